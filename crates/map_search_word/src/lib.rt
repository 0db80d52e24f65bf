// The search for a run of free blocks at one word (003, sections 3 and 4): what the word tells, with the free blocks right
// before it known. The crate `map_search` goes through a map by it.
#![tactic(auto)]

ghost use Rattle.std.specs.Prelude.{◌≡◌, Bool, ℕ, ◌+◌, ◌-◌, ◌<◌, ◌≤◌};
ghost use Rattle.map_blocks.specs.Words.{bit};
ghost use Rattle.map_search_word.specs.Scan.{Core, Carried, Stepped, Bounded};

pub mod word;

use map_blocks::word::{has_all, span};
use std::ops::ControlFlow;
use word::{gaps, tail};

// What is looked for: runs of k blocks. The core has bits that each of them has, where it lies in one word.
#[derive(Clone, Copy)]
pub struct Sought {
    pub k: u32,
    pub core: u64,
    ghost shared: { Core k core },
}

// Where the s free blocks right before block base start. The formula of 003, section 4.1, points one word late where s is
// 0 or a multiple of 64.
fn run_start(base: u32, s: u32) -> u32
    requires { s ≤ base }
    ensures { result ≡ base - s }
{
    base - s
}

// Bits that every run of k in a word holds: the middle ones. Below 48 there are few or none, and testing them would be a
// branch that is guessed wrong too often.
pub fn core_of(k: u32) -> u64
    ensures { Core k result }
{
    if k < 48 {
        return 0;
    }
    let inside = k.min(64);
    span(64 - inside, inside)
}

// The search at one word, whose first block is base, with s free blocks before it: the three steps of 003, section 3. A
// word that lacks a bit of the core has no run of k.
pub fn scan_word(w: u64, base: u32, s: u32, sought: Sought) -> ControlFlow<u32, u32>
    requires { (base ≤ 262144) × (s ≤ base) × (s < sought.k) }
    ensures bounded { Bounded sought.k (base + 64) result }
    ensures by_index { (f : ℕ → Bool) → ((j : ℕ) → j < 64 → bit w j ≡ f (base + j)) → Carried f sought.k base s
        → Stepped f sought.k (base + 64) result }
{
    let wanted = sought.k - s;
    if has_all(w, span(0, wanted.min(64))) {
        if 64 < wanted {
            return ControlFlow::Continue(s + 64);
        }
        return ControlFlow::Break(run_start(base, s));
    }
    if has_all(w, sought.core) {
        let g = gaps(w, sought.k);
        if g == 0 {
            return ControlFlow::Continue(tail(w));
        }
        return ControlFlow::Break(base + g.leading_zeros());
    }
    ControlFlow::Continue(tail(w))
}
