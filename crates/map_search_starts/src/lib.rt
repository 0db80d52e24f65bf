// The search for a run of free blocks at one word, where it may start only at some blocks: those whose bits a second word
// has. The starts that are multiples of a step (document 02, request a) are such a word.
#![tactic(auto)]

ghost use Rattle.std.specs.Prelude.{◌≡◌, Bool, true, ◌&&◌, ℕ, ◌+◌, ◌-◌, ◌%◌, ◌<◌, ◌≤◌, leb, IfSome};
ghost use Rattle.map_blocks.specs.Blocks.{all, on_step};
ghost use Rattle.map_blocks.specs.Words.{bit, Mask};
ghost use Rattle.map_search_starts.specs.Starts.{Marks, Head, Alone, Often, NoRun, FindsFirst};

use map_blocks::word::{ONES, span};
use map_search_word::word::{gaps, tail};

// The multiples of step below 64, as bits of a word. Each round doubles how far they go, so that it is a `while`: one round for
// each multiple takes longer.
pub fn multiples(step: u32) -> u64
    requires { (0 < step) × (step < 64) }
    ensures { Marks (on_step step) 0 result }
{
    let mut m = span(0, 1);
    let mut done = step;
    while done < 64 {
        m |= m >> done;
        done += done;
    }
    m
}

// How far block base is past a multiple of step. A division takes as long as all the rest of a search that is over at once;
// by a number that is known beforehand it is a mask.
fn past(base: u32, step: u32) -> u32
    requires { 0 < step }
    ensures { result ≡ base % step }
{
    match step {
        1 => 0,
        2 => base % 2,
        8 => base % 8,
        _ => base % step,
    }
}

// How far behind block base the next multiple of step is: 0 where base is one.
pub fn ahead(base: u32, step: u32) -> u32
    requires { 0 < step }
    ensures { (result < step) × ((base + result) % step ≡ 0) }
{
    let p = past(base, step);
    if p == 0 {
        return 0;
    }
    step - p
}

// The same from the word behind on, by how far it is from the word's first block and by the rest of 64 divided by step.
pub fn ahead_next(far: u32, rest: u32, step: u32) -> u32
    requires { (far < step) × (rest ≡ 64 % step) × (step < 64) }
    ensures { (result < step) × ((base : ℕ) → (base + far) % step ≡ 0 → (base + 64 + result) % step ≡ 0) }
{
    if far < rest {
        return far + step - rest;
    }
    far - rest
}

// The multiples of step in a word, by those below 64 and by how far the first of them is from the word's first block.
pub fn starts(below: u64, far: u32, step: u32) -> u64
    requires { (far < step) × (step < 64) × Marks (on_step step) 0 below }
    ensures { (base : ℕ) → (base + far) % step ≡ 0 → Marks (on_step step) base result }
{
    below >> far
}

// Bits that in every word the multiples of step have: their own where each word has the same, otherwise all.
pub fn often(below: u64, rest: u32, step: u32) -> u64
    requires { (0 < step) × (rest ≡ 64 % step) × Marks (on_step step) 0 below }
    ensures { Often step result }
{
    if rest == 0 { below } else { ONES }
}

// What makes `pairs` mark every free block: ones where a run of one block is looked for.
pub fn alone(k: u32) -> u64
    requires { 0 < k }
    ensures { Alone k result }
{
    if k == 1 { ONES } else { 0 }
}

// The blocks of a word that are free with the next one free too; n is the word behind. No other starts a run of k.
pub fn pairs(w: u64, n: u64, lone: u64) -> u64
    ensures { (f : ℕ → Bool) (k base : ℕ) → Marks f base w → Marks f (base + 64) n → Alone k lone
        → (j : ℕ) → j < 64 → all f (base + j) k ≡ true → bit result j ≡ true }
{
    w & ((w << 1) | (n >> 63) | lone)
}

// The last t bits of a word.
fn ending(t: u32) -> u64
    requires { t ≤ 64 }
    ensures { Mask (64 - t) 64 result }
{
    if t == 0 {
        return 0;
    }
    ONES >> (64 - t)
}

// How many ones stand at the beginning of n.
pub fn head(n: u64) -> u32
    ensures { Head n result }
{
    if n == ONES {
        return 64;
    }
    (!n).leading_zeros()
}

// The blocks of a word from which on k are free; n is the word behind. A run of k lies in the word, or is made of the ones that
// it ends in and those that n begins with.
pub fn runs(w: u64, n: u64, k: u32) -> u64
    requires { (0 < k) × (k ≤ 64) }
    ensures { (f : ℕ → Bool) (base : ℕ) → Marks f base w → Marks f (base + 64) n → Marks (λ b. all f b k) base result }
{
    let over = ending(tail(w)) & span(0, (65 + head(n) - k).min(64));
    gaps(w, k) | over
}

// The first start of m in a word, whose first block is base, from which on k blocks are free. n is the word behind. Mostly no
// start of m has even two free blocks, and the rest is not worked out.
pub fn look(w: u64, n: u64, m: u64, base: u32, k: u32, lone: u64) -> Option<u32>
    requires { (base ≤ 262144) × (0 < k) × (k ≤ 64) × Alone k lone }
    ensures by_index { (q f : ℕ → Bool) (c : ℕ) → c ≤ base + 64 → Marks f base w → Marks f (base + 64) n
        → Marks (λ b. q b && leb c b) base m → NoRun q f k c base → FindsFirst q f k c (base + 64) result }
    ensures lower_bound { IfSome result (λ r. (base ≤ r) × (r < base + 64)) }
{
    if pairs(w, n, lone) & m == 0 {
        return None;
    }
    let g = runs(w, n, k) & m;
    if g == 0 {
        return None;
    }
    Some(base + g.leading_zeros())
}
