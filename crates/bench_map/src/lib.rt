// The search and the survey for C, as the benchmark calls them: numbers and a slice of words.
#![tactic(auto)]

ghost use Rattle.std.specs.Prelude.{◌≡◌};
ghost use Rattle.bench_map.specs.Answers.{within_limits, searched, surveyed};

use catalogue_standings::opening::BLOCKS;

// What C is given where there is no start, and where the numbers are no card's.
pub const NO_FIT: u32 = 0xffff_ffff;

pub const OUT_OF_LIMITS: u32 = 0xffff_fffe;

// What a survey answers, as C has it.
#[repr(C)]
#[derive(Clone, Copy)]
pub struct Counts {
    pub free: u32,
    pub runs: u32,
    pub longest: u32,
}

// n is the size of a card, and the map has its words.
pub fn within_limits(map: &[u64], n: u32) -> bool
    ensures { result ≡ within_limits map.now n }
{
    if n == 0 {
        return false;
    }
    if BLOCKS < n {
        return false;
    }
    map.len() == ((n + 63) / 64) as usize
}

// The start of the least fit for k.
#[unsafe(no_mangle)]
pub extern "C" fn map_bench_search(map: &[u64], n: u32, k: u32) -> u32
    ensures { result ≡ searched map.now n k }
{
    if k == 0 {
        return OUT_OF_LIMITS;
    }
    if within_limits(map, n) {
        map_search::search(map, 0, n, k).unwrap_or(NO_FIT)
    } else {
        OUT_OF_LIMITS
    }
}

// The counts of a map.
#[unsafe(no_mangle)]
pub extern "C" fn map_bench_survey(map: &[u64], n: u32) -> Counts
    ensures { result ≡ surveyed map.now n }
{
    if within_limits(map, n) {
        let counts = survey::survey(map, n);
        Counts {
            free: counts.free,
            runs: counts.runs,
            longest: counts.longest,
        }
    } else {
        Counts {
            free: 0,
            runs: 0,
            longest: 0,
        }
    }
}
