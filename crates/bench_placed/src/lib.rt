// The search within figures for C, as the benchmark calls it. It is apart from bench_map, whose search is then used once there
// and compiled into the function that C calls, as before there were figures.
#![tactic(auto)]

ghost use Rattle.std.specs.Prelude.{◌≡◌};
ghost use Rattle.bench_placed.specs.Answers.{placed_searched};

use bench_map::{NO_FIT, OUT_OF_LIMITS, within_limits};

// The start of the least fit for k within the figures from, before and step.
#[unsafe(no_mangle)]
pub extern "C" fn map_bench_search_placed(
    map: &[u64],
    n: u32,
    from: u32,
    before: u32,
    step: u32,
    k: u32,
) -> u32
    ensures { result ≡ placed_searched map.now n from before step k }
{
    if k == 0 {
        return OUT_OF_LIMITS;
    }
    if step == 0 {
        return OUT_OF_LIMITS;
    }
    if n < before {
        return OUT_OF_LIMITS;
    }
    if within_limits(map, n) {
        map_search_placed::search_placed(map, from, before, step, k).unwrap_or(NO_FIT)
    } else {
        OUT_OF_LIMITS
    }
}
