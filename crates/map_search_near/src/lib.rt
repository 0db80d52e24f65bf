// The search by masks of the starts, for starts that are near each other. Each word is looked at with the word behind it, so
// that nothing is carried from word to word; words in which no run can start are passed over eight at a time.
#![tactic(auto)]

ghost use Rattle.std.specs.Prelude.{◌≡◌, true, false, ℕ, ◌+◌, ◌-◌, ◌*◌, ◌/◌, ◌%◌, ◌<◌, ◌≤◌, min, length, get_or};
ghost use Rattle.map_blocks.specs.Blocks.{free, all, on_step, least_fit};
ghost use Rattle.map_blocks.specs.Words.{bit};
ghost use Rattle.map_search_starts.specs.Starts.{Marks, Alone, Often, NoRun, FindsFirst};

use map_blocks::word::part;
use map_search::groups::{any_of, group_end, quiet_groups};
use map_search_starts::{ahead, ahead_next, alone, look, multiples, often, pairs, starts};
use map_search_word::word::sixteens;
use map_space::space;

// What a search by masks looks for: runs of k blocks, 64 at the most, that start at multiples of step.
#[derive(Clone, Copy)]
struct Sought {
    step: u32,
    k: u32,
    // the multiples of step below 64, as bits of a word
    below: u64,
    // what makes the pairs of a word its free blocks, where k is 1
    lone: u64,
    ghost starts: { (0 < step) × (step < 64) × Marks (on_step step) 0 below },
    ghost blocks: { (0 < k) × (k ≤ 64) × Alone k lone },
}

impl Sought {
    // Runs of k blocks, or of 64 where k is more.
    fn new(step: u32, k: u32) -> Sought
        requires { (0 < step) × (step < 64) × (0 < k) }
        ensures { (result.step ≡ step) × (result.k ≡ min k 64) }
    {
        let few = k.min(64);
        Sought {
            step: step,
            k: few,
            below: multiples(step),
            lone: alone(few),
        }
    }
}

// The pairs of the eight words from i on, or-ed together.
fn any_pairs(map: &[u64], i: usize, lone: u64) -> u64
    requires { (i ≤ 4096) × (i + 9 ≤ length map.now) }
    ensures { (k : ℕ) → Alone k lone → (u j : ℕ) → i ≤ u → u < i + 8 → j < 64
        → all (free map.now) (u * 64 + j) k ≡ true → bit result j ≡ true }
{
    any_of(i, i + 8, |t| pairs(map[t], map[t + 1], lone))
}

// The runs of 16 within each of the nine words from i on, or-ed together. A run of 31 has 16 of its blocks in one word.
fn any_sixteens(map: &[u64], i: usize) -> u64
    requires { (i ≤ 4096) × (i + 9 ≤ length map.now) }
    ensures { result ≡ 0 → (k t : ℕ) → 31 ≤ k → i * 64 ≤ t → t < (i + 8) * 64 → all (free map.now) t k ≡ false }
{
    any_of(i, i + 9, |t| sixteens(map[t]))
}

// Whether the eight words from i on say that no run starts at a start in them; `mostly` has the starts of every word.
fn is_quiet(map: &[u64], i: usize, sought: Sought, mostly: u64) -> bool
    requires { (i ≤ 4096) × (i + 9 ≤ length map.now) × Often sought.step mostly }
    ensures { result ≡ true → NoRun (on_step sought.step) (free map.now) sought.k (i * 64) ((i + 8) * 64) }
{
    if sought.k < 31 {
        return any_pairs(map, i, sought.lone) & mostly == 0;
    }
    any_sixteens(map, i) == 0
}

// Past the words from first on in which no run starts at a start, eight at a time, up to stop.
fn quiet_words(map: &[u64], first: usize, stop: usize, sought: Sought, mostly: u64) -> usize
    requires { (first ≤ stop) × (stop ≤ 4096) × (stop < length map.now) × Often sought.step mostly }
    ensures lower_bound { (first ≤ result) × (result ≤ stop) }
    ensures by_index { NoRun (on_step sought.step) (free map.now) sought.k (first * 64) (result * 64) }
{
    quiet_groups(first, stop, |i| is_quiet(map, i, sought, mostly))
}

// The first run from c on that starts at a start in a word before stop; rest is what 64 leaves, divided by the step.
fn near_words(map: &[u64], c: u32, stop: usize, sought: Sought, rest: u32) -> Option<u32>
    requires { (c < stop * 64) × (stop ≤ 4096) × (stop < length map.now) × (rest ≡ 64 % sought.step) }
    ensures { FindsFirst (on_step sought.step) (free map.now) sought.k c (stop * 64) result }
{
    let first = c / 64;
    let mut far = ahead(first * 64, sought.step);
    let mut m = starts(sought.below, far, sought.step) & part(c, first * 64 + 64, first * 64);
    for i in first as usize..stop {
        if let Some(start) = look(
            map[i],
            map[i + 1],
            m,
            (i as u32) * 64,
            sought.k,
            sought.lone,
        ) {
            return Some(start);
        }
        far = ahead_next(far, rest, sought.step);
        m = starts(sought.below, far, sought.step);
    }
    None
}

// The same, eight words at a time: after each eight, words in which no run starts are passed over.
fn near_groups(map: &[u64], c: u32, stop: usize, sought: Sought) -> Option<u32>
    requires { (c < stop * 64) × (stop ≤ 4096) × (stop < length map.now) }
    ensures { FindsFirst (on_step sought.step) (free map.now) sought.k c (stop * 64) result }
{
    let rest = 64 % sought.step;
    let mostly = often(sought.below, rest, sought.step);
    let mut at = c;
    while at < (stop as u32) * 64 {
        let end = group_end((at / 64) as usize, stop);
        if let Some(start) = near_words(map, at, end, sought, rest) {
            return Some(start);
        }
        at = (quiet_words(map, end, stop, sought, mostly) as u32) * 64;
    }
    None
}

// Word i of a map; 0 behind its last.
fn word_at(map: &[u64], i: usize) -> u64
    ensures { result ≡ get_or map.now i 0 }
{
    if i < map.len() { map[i] } else { 0 }
}

// The first run from c on that starts at a start in the word `last`, where none starts before.
fn near_last(map: &[u64], c: u32, last: usize, sought: Sought) -> Option<u32>
    requires c_bound { (c < last * 64 + 64) × (last < 4096) × (last < length map.now) }
    requires no_run { NoRun (on_step sought.step) (free map.now) sought.k c (last * 64) }
    ensures { FindsFirst (on_step sought.step) (free map.now) sought.k c (last * 64 + 64) result }
{
    let base = (last as u32) * 64;
    let m = starts(sought.below, ahead(base, sought.step), sought.step) & part(c, base + 64, base);
    look(
        map[last],
        word_at(map, last + 1),
        m,
        base,
        sought.k,
        sought.lone,
    )
}

// The first run from c on that starts at a start in a word up to that of the block before `before`.
fn near_start(map: &[u64], c: u32, before: u32, sought: Sought) -> Option<u32>
    requires { (c < before) × (before ≤ 262144) × (before ≤ 64 * length map.now) }
    ensures { FindsFirst (on_step sought.step) (free map.now) sought.k c ((before - 1) / 64 * 64 + 64) result }
{
    let last = ((before - 1) / 64) as usize;
    let end = (before - 1) / 64 * 64;
    if end <= c {
        return near_last(map, c, last, sought);
    }
    if let Some(start) = near_groups(map, c, last, sought) {
        return Some(start);
    }
    near_last(map, c, last, sought)
}

// The least fit for k. A start with 64 free blocks is found by masks; whether more of them are free, the space
// behind it tells.
pub fn search_near(map: &[u64], from: u32, before: u32, step: u32, k: u32) -> Option<u32>
    requires { (from ≤ before) × (before ≤ 262144) × (before ≤ 64 * length map.now) × (0 < k) × (k ≤ before)
        × (0 < step) × (step < 64) }
    ensures { result ≡ least_fit (free map.now) from before step k }
{
    let last = before - k;
    let sought = Sought::new(step, k);
    let mut c = from;
    while c <= last {
        let s = near_start(map, c, before, sought)?;
        if last < s {
            return None;
        }
        if k <= 64 {
            return Some(s);
        }
        let r = space(map, s, s + k);
        if r == k {
            return Some(s);
        }
        c = s + r + 1;
    }
    None
}
