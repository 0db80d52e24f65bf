// The space behind a start for C, as the benchmark calls it. It is apart from bench_map and bench_placed, so that theirs are
// compiled as they were before there was a space.
#![tactic(auto)]

ghost use Rattle.std.specs.Prelude.{◌≡◌};
ghost use Rattle.bench_space.specs.Answers.{space_answered};

use bench_map::{OUT_OF_LIMITS, within_limits};
use map_space::space;

// The number of free blocks from start to the next taken block or n.
#[unsafe(no_mangle)]
pub extern "C" fn map_bench_space(map: &[u64], n: u32, start: u32) -> u32
    ensures { result ≡ space_answered map.now n start }
{
    if within_limits(map, n) {
        space(map, start, n)
    } else {
        OUT_OF_LIMITS
    }
}
