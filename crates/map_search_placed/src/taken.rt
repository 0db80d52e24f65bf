// Past words that are all taken.
ghost use Rattle.std.specs.Prelude.{◌≡◌, false, ℕ, ◌*◌, ◌<◌, ◌≤◌, length, get_or, MatchOption};
ghost use Rattle.map_blocks.specs.Blocks.{free};

use map_blocks::word::ONES;
use map_search::groups::{group_end, taken_words};

// The first of the words first to stop - 1 with a free block.
fn some_word(map: &[u64], first: usize, stop: usize) -> Option<usize>
    requires { (first ≤ stop) × (stop ≤ 4096) × (stop ≤ length map.now) }
    ensures { MatchOption result ((t : ℕ) → first ≤ t → t < stop → get_or map.now t 0 ≡ 0)
        (λ i. (first ≤ i) × (i < stop) × ((t : ℕ) → first ≤ t → t < i → get_or map.now t 0 ≡ 0)) }
{
    for i in first..stop {
        if map[i] != 0 {
            return Some(i);
        }
    }
    None
}

// The same: a few one at a time, for there are mostly few, and more of them eight at a time.
fn past_words(map: &[u64], first: usize, stop: usize) -> Option<usize>
    requires { (first < stop) × (stop ≤ 4096) × (stop ≤ length map.now) }
    ensures { MatchOption result ((t : ℕ) → first ≤ t → t < stop → get_or map.now t 0 ≡ 0)
        (λ i. (first ≤ i) × (i < stop) × ((t : ℕ) → first ≤ t → t < i → get_or map.now t 0 ≡ 0)) }
{
    let few = group_end(first, stop);
    if let Some(i) = some_word(map, first, few) {
        return Some(i);
    }
    some_word(map, taken_words(map, few, stop), stop)
}

// The first free block from `from` on, before `before`.
pub fn reach(map: &[u64], from: u32, before: u32) -> Option<u32>
    requires { (from < before) × (before ≤ 262144) × (before ≤ 64 * length map.now) }
    ensures { MatchOption result ((t : ℕ) → from ≤ t → t < before → free map.now t ≡ false)
        (λ b. (from ≤ b) × (b < before) × ((t : ℕ) → from ≤ t → t < b → free map.now t ≡ false)) }
{
    let first = (from / 64) as usize;
    let stop = before.div_ceil(64) as usize;
    let w = map[first] & (ONES >> (from % 64));
    if w != 0 {
        let b = from / 64 * 64 + w.leading_zeros();
        return (b < before).then_some(b);
    }
    if first + 1 == stop {
        return None;
    }
    let i = past_words(map, first + 1, stop)?;
    let b = (i as u32) * 64 + map[i].leading_zeros();
    (b < before).then_some(b)
}
