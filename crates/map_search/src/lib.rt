// The search for a run of free blocks, a word at a time (003, sections 3 and 4), within a window: a start at or after
// `from`, an end at or before `before`. Blocks outside the window are never read as free, whatever their bits are.
#![tactic(auto)]

ghost use Rattle.std.specs.Prelude.{◌≡◌, Bool, ℕ, ◌+◌, ◌*◌, ◌/◌, ◌<◌, ◌≤◌, length};
ghost use Rattle.map_blocks.specs.Blocks.{free, least_fit};
ghost use Rattle.map_blocks.specs.Words.{bit, in_window};
ghost use Rattle.map_search_word.specs.Scan.{Carried, Stepped, Bounded};
ghost use Rattle.map_search.specs.Search.{HasBits, Finds};

pub mod groups;

use groups::taken_words;
// Both are functions of the crate itself too.
pub use groups::{any_free, group_end};
use map_blocks::word::part;
use map_search_word::word::{gaps, tail};
use map_search_word::{Sought, core_of, scan_word};
use std::ops::ControlFlow;

// The word that a search has come to, and its bits: those of blocks outside the window are 0.
#[derive(Clone, Copy)]
pub struct Reached {
    pub word: usize,
    pub bits: u64,
}

// The search at the words first to stop - 1, one after the other.
fn scan_words(
    map: &[u64],
    first: usize,
    stop: usize,
    s: u32,
    sought: Sought,
) -> ControlFlow<u32, u32>
    requires { (first ≤ stop) × (stop ≤ 4096) × (stop ≤ length map.now) × (s ≤ first * 64) × (s < sought.k) }
    ensures bounded { Bounded sought.k (stop * 64) result }
    ensures by_index { (f : ℕ → Bool) → HasBits map.now first stop f → Carried f sought.k (first * 64) s
        → Stepped f sought.k (stop * 64) result }
{
    let mut carried = s;
    for i in first..stop {
        carried = scan_word(map[i], (i as u32) * 64, carried, sought)?;
    }
    ControlFlow::Continue(carried)
}

// The search at the words first to stop - 1, eight at a time: after each eight, words that are all taken are skipped.
fn scan_groups(
    map: &[u64],
    first: usize,
    stop: usize,
    s: u32,
    sought: Sought,
) -> ControlFlow<u32, u32>
    requires { (first ≤ stop) × (stop ≤ 4096) × (stop ≤ length map.now) × (s ≤ first * 64) × (s < sought.k) }
    ensures bounded { Bounded sought.k (stop * 64) result }
    ensures by_index { (f : ℕ → Bool) → HasBits map.now first stop f → Carried f sought.k (first * 64) s
        → Stepped f sought.k (stop * 64) result }
{
    let mut i = first;
    let mut carried = s;
    while i < stop {
        let end = group_end(i, stop);
        carried = scan_words(map, i, end, carried, sought)?;
        i = taken_words(map, end, stop);
        if end < i {
            carried = 0;
        }
    }
    ControlFlow::Continue(carried)
}

// The search from word first on, with s free blocks right before it: the words up to the last one, then that.
fn search_on(map: &[u64], from: u32, before: u32, first: usize, s: u32, k: u32) -> Option<u32>
    requires from_lt_before { (from < before) × (before ≤ 262144) × (before ≤ 64 * length map.now)
        × (from ≤ first * 64) × (first ≤ 4096) }
    requires carried { Carried (in_window (free map.now) from before) k (first * 64) s }
    ensures { Finds (in_window (free map.now) from before) k result }
{
    let last = ((before - 1) / 64) as usize;
    if last < first {
        return None;
    }
    let sought = Sought {
        k: k,
        core: core_of(k),
    };
    match scan_groups(map, first, last, s, sought) {
        ControlFlow::Break(start) => Some(start),
        ControlFlow::Continue(next) => {
            let base = (last as u32) * 64;
            scan_word(map[last] & part(from, before, base), base, next, sought).break_value()
        }
    }
}

// The first word of the window, or where it and words behind it are all taken, the first behind them, eight at the most.
fn reach(map: &[u64], from: u32, before: u32) -> Reached
    requires { (from < before) × (before ≤ 262144) × (before ≤ 64 * length map.now) }
    ensures from_bound { (from / 64 ≤ result.word) × (result.word * 64 < before) }
    ensures by_index { (j : ℕ) → j < 64 → bit result.bits j ≡ in_window (free map.now) from before (result.word * 64 + j) }
    ensures by_index_2 { (k : ℕ) → 0 < k → Carried (in_window (free map.now) from before) k (result.word * 64) 0 }
{
    let first = (from / 64) as usize;
    let last = ((before - 1) / 64) as usize;
    let w = map[first] & part(from, before, from / 64 * 64);
    let here = Reached {
        word: first,
        bits: w,
    };
    if w != 0 {
        return here;
    }
    // a test of its own: joined with the first by `||`, both are worked out where a search is over at once
    if last < first + 9 {
        return here;
    }
    let stop = first + 8;
    for i in first + 1..stop {
        if map[i] != 0 {
            return Reached {
                word: i,
                bits: map[i],
            };
        }
    }
    Reached {
        word: stop,
        bits: map[stop],
    }
}

// The least fit for k within the window, wherever it starts: the one with a step of 1. The word reached first is looked at
// before anything else is worked out: for few blocks the search is mostly over there.
pub fn search(map: &[u64], from: u32, before: u32, k: u32) -> Option<u32>
    requires { (before ≤ 262144) × (before ≤ 64 * length map.now) × (0 < k) }
    ensures { result ≡ least_fit (free map.now) from before 1 k }
{
    if before <= from {
        return None;
    }
    let reached = reach(map, from, before);
    let g = gaps(reached.bits, k);
    if g == 0 {
        return search_on(map, from, before, reached.word + 1, tail(reached.bits), k);
    }
    Some((reached.word as u32) * 64 + g.leading_zeros())
}

// The same from block 0 on, for the call that is nothing but a search. `search_on` is then used twice in the library and stays
// a function of its own, and all that comes before it is compiled into its callers, where a search is mostly over. What it
// found is taken apart: handed on as it is, a start that was found here would go through memory too.
pub fn search_card(map: &[u64], n: u32, k: u32) -> Option<u32>
    requires { (0 < n) × (n ≤ 262144) × (n ≤ 64 * length map.now) × (0 < k) }
    ensures { result ≡ least_fit (free map.now) 0 n 1 k }
{
    let reached = reach(map, 0, n);
    let g = gaps(reached.bits, k);
    if g == 0 {
        match search_on(map, 0, n, reached.word + 1, tail(reached.bits), k) {
            Some(start) => return Some(start),
            None => return None,
        }
    }
    Some((reached.word as u32) * 64 + g.leading_zeros())
}
