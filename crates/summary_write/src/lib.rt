// The summary of a map built, and brought up to date where the map has changed (document 02, request (j)).
#![tactic(auto)]

ghost use Rattle.std.specs.Prelude.{◌≡◌, Bool, List, ℕ, ◌+◌, ◌*◌, ◌<◌, ◌≤◌, length};
ghost use Rattle.map_blocks.specs.Words.{bit};
ghost use Rattle.summary_groups.specs.Groups.{power, group_of};
ghost use Rattle.summary_groups.specs.Places.{Sited};
ghost use Rattle.summary.specs.Summary.{usable, group_in, own_summary, Matched};
ghost use Rattle.summary.specs.Updates.{updated_summary};
ghost use Rattle.summary_groups.specs.declared.Group.{Group as Told};
ghost use Rattle.summary.specs.Walks.{with_group, halves_of, Builds, Decides};
ghost use Rattle.summary_write.specs.Climbs.{Joins, Stores, Rises, Stands, Comes};

use summary::{free_word, read, words_of};
use summary_groups::{Group, joined, word_group};

// Stores group g of a summary, which C lends as numbers in a row.
fn store(summary: &mut [u32], g: usize, group: Group)
    requires { (g ≤ 16384) × (3 * g + 2 < length summary.old) }
    ensures { summary.new ≡ with_group summary.old g group }
{
    let i = 3 * g;
    summary[i] = group.head;
    summary[i + 1] = group.tail;
    summary[i + 2] = group.longest;
}

// Stores group g of a summary as its word tells, of which w are the free blocks. The words of a full card have none, and need
// no call.
fn store_word(summary: &mut [u32], g: usize, w: u64)
    requires { (g ≤ 16384) × (3 * g + 2 < length summary.old) }
    ensures { summary.new ≡ with_group summary.old g (group_of (bit w) 0 64) }
{
    if w == 0 {
        store(
            summary,
            g,
            Group {
                head: 0,
                tail: 0,
                longest: 0,
            },
        );
        return;
    }
    store(summary, g, word_group(w));
}

// Stores group g as its two halves tell, of half words each.
fn store_joined(summary: &mut [u32], g: usize, half: usize)
    requires { (g ≤ 4096) × (half ≤ 4096) × (3 * (2 * g + 2) + 2 < length summary.old) }
    ensures { summary.new ≡ with_group summary.old g (halves_of summary.old g half) }
{
    let a = read(summary, 2 * g + 1);
    let b = read(summary, 2 * g + 2);
    store(summary, g, joined(a, b, 64 * (half as u32)));
}

// Stores the groups of the words lo to hi - 1, each as its word tells: that of word i is group leaf + i.
fn store_leaves(map: &[u64], n: u32, summary: &mut [u32], leaf: usize, lo: usize, hi: usize)
    requires { Matched map.now n summary.old × (leaf + 1 ≡ power (length map.now)) × (hi ≤ leaf + 1)
        × (lo ≤ hi) }
    ensures { (aim : ℕ → Told) → ((i : ℕ) → lo ≤ i → i < hi → group_of (usable map.now n) (64 * i) 64 ≡ aim (leaf + i))
        → Stores aim summary.old summary.new (leaf + lo) (leaf + hi) }
{
    for i in lo..hi {
        store_word(summary, leaf + i, free_word(map, n, i));
    }
}

// Stores the groups g to stop - 1, each as its two halves tell, of half words each.
fn store_joins(summary: &mut [u32], g: usize, stop: usize, half: usize)
    requires { (stop ≤ 4096) × (half ≤ 4096) × (6 * stop + 2 < length summary.old) × (g ≤ stop) }
    ensures { (aim : ℕ → Told) → Joins aim summary.old g stop half
        → Stores aim summary.old summary.new g stop }
{
    for i in g..stop {
        store_joined(summary, i, half);
    }
}

// Stores group g of a summary. Whether it was so before.
fn restore(summary: &mut [u32], g: usize, group: Group) -> bool
    requires { (g ≤ 16384) × (3 * g + 2 < length summary.old) }
    ensures { Decides result (group_in summary.old g ≡ group)
        × (summary.new ≡ with_group summary.old g group) }
{
    let same = read(summary, g) == group;
    store(summary, g, group);
    same
}

// Stores group g, of word i alone, as its word tells. Whether it was so before.
fn restore_word(map: &[u64], n: u32, summary: &mut [u32], g: usize, i: usize) -> bool
    requires { (i ≤ 4096) × (n ≤ 64 * length map.now) × (g ≤ 16384) × (3 * g + 2 < length summary.old) }
    ensures { let x = group_of (usable map.now n) (64 * i) 64 in
        Decides result (group_in summary.old g ≡ x) × (summary.new ≡ with_group summary.old g x) }
{
    restore(summary, g, word_group(free_word(map, n, i)))
}

// Stores group g as its two halves tell, of half words each. Whether it was so before.
fn restore_joined(summary: &mut [u32], g: usize, half: usize) -> bool
    requires { (g ≤ 4096) × (half ≤ 4096) × (3 * (2 * g + 2) + 2 < length summary.old) }
    ensures { let x = halves_of summary.old g half in
        Decides result (group_in summary.old g ≡ x) × (summary.new ≡ with_group summary.old g x) }
{
    let a = read(summary, 2 * g + 1);
    let b = read(summary, 2 * g + 2);
    restore(summary, g, joined(a, b, 64 * (half as u32)))
}

// Builds the groups above group `from` anew, of size words, from their two halves: up to one that stays as it was, above which
// none changes.
fn climb(summary: &mut [u32], from: usize, size: usize)
    requires { Stands summary.old size from }
    ensures { (f : ℕ → Bool) (p lo hi : ℕ) (was : List ℕ) → Rises f p lo hi was summary.old size from
        → Comes f p lo hi was summary.new }
{
    let mut g = from;
    let mut half = size;
    while 0 < g {
        g = (g - 1) / 2;
        if restore_joined(summary, g, half) {
            return;
        }
        half = 2 * half;
    }
}

// Builds the groups above word i anew.
fn rebuild_word(map: &[u64], n: u32, summary: &mut [u32], i: usize)
    requires { Matched map.now n summary.old × (i < power (length map.now)) }
    ensures { Comes (usable map.now n) (power (length map.now)) i (i + 1) summary.old
        summary.new }
{
    let g = words_of(summary) - 1 + i;
    if restore_word(map, n, summary, g, i) {
        return;
    }
    climb(summary, g, 1);
}

// Builds the groups above the words lo to hi - 1 anew, which are two or more: level by level, up to where one group has them
// all.
fn rebuild_words(map: &[u64], n: u32, summary: &mut [u32], lo: usize, hi: usize)
    requires { Matched map.now n summary.old × (lo + 1 < hi) × (hi ≤ power (length map.now)) }
    ensures { Comes (usable map.now n) (power (length map.now)) lo hi summary.old
        summary.new }
{
    let leaf = words_of(summary) - 1;
    store_leaves(map, n, summary, leaf, lo, hi);
    let mut g = leaf + lo;
    let mut stop = leaf + hi;
    let mut half: usize = 1;
    while (g - 1) / 2 + 1 < stop / 2 {
        g = (g - 1) / 2;
        stop = stop / 2;
        store_joins(summary, g, stop, half);
        half = 2 * half;
    }
    climb(summary, g, half);
}

// Builds group g, of the words first to first + size - 1, and the groups below it: each from its two halves, down to one word.
fn build_group(map: &[u64], n: u32, summary: &mut [u32], g: usize, first: usize, size: usize)
    requires { Matched map.now n summary.old × Sited (power (length map.now)) g first size }
    ensures { Builds (usable map.now n) (power (length map.now)) g summary.old
        summary.new }
{
    if size == 1 {
        store_word(summary, g, free_word(map, n, first));
        return;
    }
    let half = size / 2;
    build_group(map, n, summary, 2 * g + 1, first, half);
    build_group(map, n, summary, 2 * g + 2, first + half, half);
    store_joined(summary, g, half);
}

// The summary of a map of n blocks, built anew.
pub fn build(map: &[u64], n: u32, summary: &mut [u32])
    requires { Matched map.now n summary.old }
    ensures { summary.new ≡ own_summary map.now n }
{
    build_group(map, n, summary, 0, 0, words_of(summary));
}

// The summary after the blocks start to start + count - 1 of the map have changed: only groups above the words that hold one of
// them are built anew.
pub fn update(map: &[u64], n: u32, summary: &mut [u32], start: u32, count: u32)
    requires { Matched map.now n summary.old × (start + count ≤ 64 * length map.now) }
    ensures { summary.new ≡ updated_summary map.now n summary.old start count }
{
    if count == 0 {
        return;
    }
    let lo = (start / 64) as usize;
    let hi = ((start + count + 63) / 64) as usize;
    if lo + 1 == hi {
        rebuild_word(map, n, summary, lo);
        return;
    }
    rebuild_words(map, n, summary, lo, hi);
}
