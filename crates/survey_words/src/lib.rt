// The blocks that a survey has passed, with a byte or a word before them. A word has three ways, each a byte at a time by the
// table: each byte joined to what is behind it, and two that need fewer of its numbers, where the bits allow them.
#![tactic(auto)]

ghost use Rattle.std.specs.Prelude.{◌≡◌, Bool, true, List, ◌++◌, ◌+◌, ◌≤◌, ◌%◌, max};
ghost use Rattle.survey_bytes.specs.Runs.{head_of, tail_of, runs_of, meet};
ghost use Rattle.survey_bytes.specs.Bytes.{bits_of, Apart};
ghost use Rattle.survey_words.specs.Passing.{Summary, Short, runs_in};

use survey_bytes::{Table, byte_head, byte_tail, crossings, joined_head, joined_runs};

// The last bits of eight bytes, their first bits, and all but the first.
const LAST_BITS: u64 = 0x0101_0101_0101_0101;

const FIRST_BITS: u64 = 0x8080_8080_8080_8080;

const OTHER_BITS: u64 = 0x7f7f_7f7f_7f7f_7f7f;

// What a survey keeps of the blocks passed: the free blocks at their head, their longest run, their number of runs.
#[derive(Clone, Copy)]
pub struct Passed {
    pub head: u32,
    pub longest: u32,
    pub runs: u32,
}

// The last byte of w before the blocks passed.
fn prepend_byte(table: &Table, passed: Passed, w: u64) -> Passed
    requires { (passed.head ≤ 16000000) × (passed.runs ≤ 16000000) }
    ensures summary { (ys : List Bool) → Summary passed.head passed.longest passed.runs ys
        → Summary result.head result.longest result.runs (bits_of 8 (w % 256) ++ ys) }
    ensures head_bound_2 { (result.head ≤ passed.head + 255) × (result.runs ≤ passed.runs + 255) }
{
    let t = byte_tail(w);
    let l = table.byte_longest(w) as u32;
    let n = table.byte_runs(w) as u32;
    let head = passed.head;
    Passed {
        head: joined_head(byte_head(w), head),
        longest: l.max(passed.longest).max(t + head),
        runs: joined_runs(t, n, head, passed.runs),
    }
}

// The last byte of w before the blocks passed, where no run goes on from it into them.
fn prepend_byte_apart(table: &Table, passed: Passed, w: u64) -> Passed
    requires { passed.runs ≤ 16000000 }
    ensures summary { (ys : List Bool) → Summary passed.head passed.longest passed.runs ys
        → meet (tail_of (bits_of 8 (w % 256))) (head_of ys) ≡ 0
        → Summary result.head result.longest result.runs (bits_of 8 (w % 256) ++ ys) }
    ensures head_bound { (result.head ≤ 255) × (result.runs ≤ passed.runs + 255) }
{
    let l = table.byte_longest(w) as u32;
    let n = table.byte_runs(w) as u32;
    Passed {
        head: byte_head(w),
        longest: l.max(passed.longest),
        runs: n + passed.runs,
    }
}

// The last byte of w before the blocks passed. Its tail is worked out only where a run goes on from it into them.
fn prepend_last_byte(table: &Table, passed: Passed, w: u64) -> Passed
    requires { (passed.head ≤ 16000000) × (passed.runs ≤ 16000000) }
    ensures summary { (ys : List Bool) → Summary passed.head passed.longest passed.runs ys
        → Summary result.head result.longest result.runs (bits_of 8 (w % 256) ++ ys) }
    ensures head_bound_2 { (result.head ≤ passed.head + 255) × (result.runs ≤ passed.runs + 255) }
{
    if (w % 2) as u32 * passed.head == 0 {
        return prepend_byte_apart(table, passed, w);
    }
    prepend_byte(table, passed, w)
}

// A word before the blocks passed, where no run goes on from one of its bytes into the next. Its last byte stands first.
pub fn prepend_word_apart(table: &Table, passed: Passed, w: u64) -> Passed
    requires apart { Apart 7 w }
    requires head_bound { (passed.head ≤ 15000000) × (passed.runs ≤ 15000000) }
    ensures summary { (ys : List Bool) → Summary passed.head passed.longest passed.runs ys
        → Summary result.head result.longest result.runs (bits_of 64 w ++ ys) }
    ensures head_bound_2 { (result.head ≤ passed.head + 2040) × (result.runs ≤ passed.runs + 2040) }
{
    let mut before = prepend_last_byte(table, passed, w);
    let mut rest = w / 256;
    for _byte in 1u32..8 {
        before = prepend_byte_apart(table, before, rest);
        rest /= 256;
    }
    before
}

// No byte of w is all free: such a byte, without its first bit and with 1 added, has its first bit again.
pub fn bytes_short(w: u64) -> bool
    ensures { result ≡ true → Short 8 w }
{
    ((w & OTHER_BITS) + LAST_BITS) & w & FIRST_BITS == 0
}

// The runs of the bytes of w, added up.
fn runs_of_bytes(table: &Table, w: u64) -> u8
    ensures { (result ≡ runs_in 8 w) × (result ≤ 64) }
{
    let mut runs = 0;
    let mut rest = w;
    for _byte in 0u32..8 {
        runs += table.byte_runs(rest);
        rest /= 256;
    }
    runs
}

// The runs of w before others, which have head free blocks at their head and runs. A run that goes on from a byte into the
// next counts once.
fn word_runs(table: &Table, head: u32, runs: u32, w: u64) -> u32
    requires { (head ≤ 15000000) × (runs ≤ 15000000) }
    ensures value { (ys : List Bool) → head ≡ head_of ys → runs ≡ runs_of ys → result ≡ runs_of (bits_of 64 w ++ ys) }
    ensures upper_bound { result ≤ runs + 255 }
{
    let n = (runs_of_bytes(table, w) as u32) - crossings(w);
    joined_runs(byte_tail(w), n, head, runs)
}

// A word before the blocks passed, where none of its bytes is all free and a run of 14, which is the longest that two such
// bytes make, would not be the longest.
pub fn prepend_word_short(table: &Table, passed: Passed, w: u64) -> Passed
    requires short { Short 8 w }
    requires le_longest { (14 ≤ passed.longest) × (passed.head ≤ 15000000) × (passed.runs ≤ 15000000) }
    ensures summary { (ys : List Bool) → Summary passed.head passed.longest passed.runs ys
        → Summary result.head result.longest result.runs (bits_of 64 w ++ ys) }
    ensures head_bound { (result.head ≤ passed.head + 2040) × (result.runs ≤ passed.runs + 2040) }
{
    let w7 = w / 256 / 256 / 256 / 256 / 256 / 256 / 256;
    Passed {
        head: byte_head(w7),
        longest: passed.longest.max(byte_tail(w) + passed.head),
        runs: word_runs(table, passed.head, passed.runs, w),
    }
}

// A word before the blocks passed, whatever its bytes are: the last one first, each joined to what is behind it. Its runs are
// those of the word at once. Eight calls in a row: a loop of them takes 9 % more instructions on a full card, and 4 % more on
// one with long runs.
pub fn prepend_word_joined(table: &Table, passed: Passed, w: u64) -> Passed
    requires { (passed.head ≤ 15000000) × (passed.runs ≤ 15000000) }
    ensures summary { (ys : List Bool) → Summary passed.head passed.longest passed.runs ys
        → Summary result.head result.longest result.runs (bits_of 64 w ++ ys) }
    ensures head_bound_2 { (result.head ≤ passed.head + 2040) × (result.runs ≤ passed.runs + 2040) }
{
    let w1 = w / 256;
    let w2 = w1 / 256;
    let w3 = w2 / 256;
    let w4 = w3 / 256;
    let w5 = w4 / 256;
    let w6 = w5 / 256;
    let w7 = w6 / 256;
    let runs = word_runs(table, passed.head, passed.runs, w);
    let p0 = prepend_byte(table, passed, w);
    let p1 = prepend_byte(table, p0, w1);
    let p2 = prepend_byte(table, p1, w2);
    let p3 = prepend_byte(table, p2, w3);
    let p4 = prepend_byte(table, p3, w4);
    let p5 = prepend_byte(table, p4, w5);
    let p6 = prepend_byte(table, p5, w6);
    let p7 = prepend_byte(table, p6, w7);
    Passed { runs, ..p7 }
}
