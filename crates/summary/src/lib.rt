// The summary beside a map (document 02, request (j)): for each group of words the free run at its head, at its tail and its
// longest, three numbers to a group. Its length, a group of it, the free blocks of a word that it tells of, and whether it
// is the map's own. That map, n and summary go together (`Matched`) is a clause of the functions that are lent all three, and
// no type's invariant: of the three each is lent by itself, the summary to be read or to be changed.
#![tactic(auto)]

ghost use Rattle.std.specs.Prelude.{◌≡◌, ℕ, ◌+◌, ◌*◌, ◌<◌, ◌≤◌, length};
ghost use Rattle.map_blocks.specs.Words.{bit};
ghost use Rattle.summary_groups.specs.Groups.{power, group_of};
ghost use Rattle.summary_groups.specs.Places.{Sited};
ghost use Rattle.summary.specs.Summary.{usable, group_in, is_own, summary_length, Matched};
ghost use Rattle.summary.specs.Walks.{halves_of, RightBelow, Decides};

use map_blocks::word::part;
use summary_groups::{Group, joined, word_group};

// How many numbers the summary of a map of w words has.
pub fn summary_len(w: usize) -> usize
    requires { w ≤ 4096 }
    ensures { result ≡ summary_length w }
{
    3 * (2 * w.next_power_of_two() - 1)
}

// How many words group 0 has, by the summary's length.
pub fn words_of(summary: &[u32]) -> usize
    ensures { (w : ℕ) → length summary.now ≡ summary_length w → result ≡ power w }
{
    (summary.len() + 3) / 6
}

// Group g of a summary, which C lends as numbers in a row.
pub fn read(summary: &[u32], g: usize) -> Group
    requires { (g ≤ 16384) × (3 * g + 2 < length summary.now) }
    ensures { result ≡ group_in summary.now g }
{
    let i = 3 * g;
    Group {
        head: summary[i],
        tail: summary[i + 1],
        longest: summary[i + 2],
    }
}

// The free blocks of word i of a map: those from n on are never free, and where words are missing none is.
pub fn free_word(map: &[u64], n: u32, i: usize) -> u64
    requires { (i ≤ 4096) × (n ≤ 64 * length map.now) }
    ensures { group_of (bit result) 0 64 ≡ group_of (usable map.now n) (64 * i) 64 }
{
    let base = (i as u32) * 64;
    if n <= base {
        return 0;
    }
    map[i] & part(0, n, base)
}

// Whether group g, of word i alone, is right.
fn word_agrees(map: &[u64], n: u32, summary: &[u32], g: usize, i: usize) -> bool
    requires { (i ≤ 4096) × (n ≤ 64 * length map.now) × (g ≤ 16384) × (3 * g + 2 < length summary.now) }
    ensures { Decides result (group_in summary.now g ≡ group_of (usable map.now n) (64 * i) 64) }
{
    read(summary, g) == word_group(free_word(map, n, i))
}

// Whether group g is as its two halves tell, of half words each.
fn halves_agree(summary: &[u32], g: usize, half: usize) -> bool
    requires { (g ≤ 4096) × (half ≤ 4096) × (3 * (2 * g + 2) + 2 < length summary.now) }
    ensures { Decides result (group_in summary.now g ≡ halves_of summary.now g half) }
{
    let a = read(summary, 2 * g + 1);
    let b = read(summary, 2 * g + 2);
    read(summary, g) == joined(a, b, 64 * (half as u32))
}

// Whether group g, of the words first to first + size - 1, and the groups below it are right.
fn right_below(map: &[u64], n: u32, summary: &[u32], g: usize, first: usize, size: usize) -> bool
    requires { Matched map.now n summary.now × Sited (power (length map.now)) g first size }
    ensures { Decides result (RightBelow (usable map.now n) (power (length map.now)) summary.now g) }
{
    if size == 1 {
        return word_agrees(map, n, summary, g, first);
    }
    let half = size / 2;
    if right_below(map, n, summary, 2 * g + 1, first, half) {
        if right_below(map, n, summary, 2 * g + 2, first + half, half) {
            return halves_agree(summary, g, half);
        }
    }
    false
}

// Whether a summary is the map's own.
pub fn check(map: &[u64], n: u32, summary: &[u32]) -> bool
    requires { Matched map.now n summary.now }
    ensures { result ≡ is_own map.now n summary.now }
{
    right_below(map, n, summary, 0, 0, words_of(summary))
}
