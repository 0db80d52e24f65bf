// The survey of a map: free blocks, separate free runs and the longest run, a byte at a time by a fixed table (document
// 01, "Map and search"). It goes from the last word to the first, so that what it keeps describes the blocks behind.
#![tactic(auto)]

ghost use Rattle.std.specs.Prelude.{◌≡◌, Bool, List, ◌++◌, ◌+◌, ◌*◌, ◌≤◌, ◌/◌, length};
ghost use Rattle.map_blocks.specs.Blocks.{free};
ghost use Rattle.map_blocks.specs.Maps.{words_for};
ghost use Rattle.survey_bytes.specs.Bytes.{bits_of};
ghost use Rattle.survey_words.specs.Passing.{Summary};
ghost use Rattle.survey.specs.Survey.{counts_of};
ghost use Rattle.survey.specs.Words.{Before};

mod table;

use map_blocks::word::{ONES, part};
use survey_bytes::{Table, bytes_apart};
use survey_words::{
    Passed, bytes_short, prepend_word_apart, prepend_word_joined, prepend_word_short,
};
use table::TABLE;

// What a survey answers.
#[derive(Clone, Copy)]
pub struct Counts {
    pub free: u32,
    pub runs: u32,
    pub longest: u32,
}

// A word before the blocks passed. A word with no free block needs no table.
fn prepend_word(table: &Table, passed: Passed, w: u64) -> Passed
    requires { (passed.head ≤ 15000000) × (passed.runs ≤ 15000000) }
    ensures summary { (ys : List Bool) → Summary passed.head passed.longest passed.runs ys
        → Summary result.head result.longest result.runs (bits_of 64 w ++ ys) }
    ensures head_bound_2 { (result.head ≤ passed.head + 2040) × (result.runs ≤ passed.runs + 2040) }
{
    if w == 0 {
        return Passed { head: 0, ..passed };
    }
    if 14 <= passed.longest && bytes_short(w) {
        return prepend_word_short(table, passed, w);
    }
    if bytes_apart(w) {
        return prepend_word_apart(table, passed, w);
    }
    prepend_word_joined(table, passed, w)
}

// The bits of word (n - 1) div 64 that belong to blocks before n.
fn last_part(n: u32) -> u64
    requires { n ≤ 262144 }
    ensures { Before n (words_for n) result }
{
    if n == 0 {
        return ONES;
    }
    part(0, n, (n - 1) / 64 * 64)
}

// The three counts of the first n blocks. Bits from n on are read as taken: the last word is cut there, the others are not.
pub fn survey(map: &[u64], n: u32) -> Counts
    requires { (n ≤ 262144) × (n ≤ 64 * length map.now) }
    ensures { result ≡ counts_of (free map.now) n }
{
    let table = Table::new(TABLE);
    let mut free = 0;
    let mut passed = Passed {
        head: 0,
        longest: 0,
        runs: 0,
    };
    let mut mask = last_part(n);
    let words = n.div_ceil(64) as usize;
    for i in (0..words).rev() {
        let w = map[i] & mask;
        free += w.count_ones();
        passed = prepend_word(&table, passed, w);
        mask = ONES;
    }
    Counts {
        free,
        runs: passed.runs,
        longest: passed.longest,
    }
}
