// The search and the survey for C: libbench_map.a. The crate bench_map is a library for other crates and so no static library;
// each function here is the one of its name there, with the same clauses.
#![tactic(auto)]

ghost use Rattle.std.specs.Prelude.{◌≡◌};
ghost use Rattle.bench_map.specs.Answers.{searched, surveyed};

use bench_map::Counts;

// The start of the least fit for k.
#[unsafe(no_mangle)]
pub extern "C" fn map_bench_search(map: &[u64], n: u32, k: u32) -> u32
    ensures { result ≡ searched map.now n k }
{
    bench_map::map_bench_search(map, n, k)
}

// The counts of a map.
#[unsafe(no_mangle)]
pub extern "C" fn map_bench_survey(map: &[u64], n: u32) -> Counts
    ensures { result ≡ surveyed map.now n }
{
    bench_map::map_bench_survey(map, n)
}
