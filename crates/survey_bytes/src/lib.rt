// What a survey goes by at a byte: its head and tail, which are worked out, and its numbers in the table (document 01, "Map and
// search"; document 02 (c)), how they join those of the blocks behind it, and where a run goes on from a byte of a word into
// the next.
#![tactic(auto)]

ghost use Rattle.std.specs.Prelude.{◌≡◌, true, cond, ◌+◌, ◌<◌, ◌≤◌, ◌/◌, ◌%◌, eqb};
ghost use Rattle.survey_bytes.specs.Runs.{head_of, tail_of, longest_of, runs_of, meet};
ghost use Rattle.survey_bytes.specs.Bytes.{bits_of, Ruled, Apart, crossed};

// The last bits of seven bytes.
const LAST_BITS: u64 = 0x0001_0101_0101_0101;

// The ones at the head of the last byte of w, which is its most significant side: the zeros at the head of its complement. The
// byte is taken with 24 zeros behind it, whose complement is never 0 as a whole.
pub fn byte_head(w: u64) -> u32
    ensures { (result ≡ head_of (bits_of 8 (w % 256))) × (result ≤ 8) }
{
    u32::leading_zeros(!((w % 256) as u32 * 0x0100_0000))
}

// The ones at the tail of the last byte of w: 1 more than the byte has as many zeros there.
pub fn byte_tail(w: u64) -> u32
    ensures { (result ≡ tail_of (bits_of 8 (w % 256))) × (result ≤ 8) }
{
    u32::trailing_zeros((w % 256) as u32 + 1)
}

// The table of bytes, by its rule: a row to each byte, with its longest run and its number of runs.
#[derive(Clone, Copy)]
pub struct Table {
    rows: [(u8, u8); 256],
    ghost ruled: { Ruled rows },
}

impl Table {
    // The table of these rows.
    pub fn new(rows: [(u8, u8); 256]) -> Table
        requires { Ruled rows }
        ensures { result.rows ≡ rows }
    {
        Table { rows }
    }

    // The longest run of the last byte of w.
    pub fn byte_longest(&self, w: u64) -> u8
        ensures { result ≡ longest_of (bits_of 8 (w % 256)) }
    {
        self.rows[(w % 256) as usize].0
    }

    // The runs of the last byte of w.
    pub fn byte_runs(&self, w: u64) -> u8
        ensures { (result ≡ runs_of (bits_of 8 (w % 256))) × (result ≤ 8) }
    {
        self.rows[(w % 256) as usize].1
    }
}

// The free blocks at the head of a byte, which has h, before others, which have head.
pub fn joined_head(h: u32, head: u32) -> u32
    requires { (h < 256) × (head ≤ 16000000) }
    ensures { (result ≡ cond (eqb h 8) (8 + head) h) × (result ≤ head + 255) }
{
    if h == 8 { 8 + head } else { h }
}

// The runs of a byte, which has n and ends in t free blocks, before others: a run that goes on from one into the other
// counts once. The product is 0 exactly where one side has no free block at the meeting.
pub fn joined_runs(t: u32, n: u32, head: u32, runs: u32) -> u32
    requires { (t < 256) × (n < 256) × (head ≤ 16000000) × (runs ≤ 16000000) × (0 < t → 0 < n) }
    ensures { (result + meet t head ≡ n + runs) × (result ≤ runs + 255) }
{
    if t * head == 0 {
        return n + runs;
    }
    n + runs - 1
}

// No run goes on from a byte of w into the next: never are the last bit of one and the first bit of the next both 1.
pub fn bytes_apart(w: u64) -> bool
    ensures { result ≡ true → Apart 7 w }
{
    (w / 256) & (w / 128) & LAST_BITS == 0
}

// How often a run goes on from a byte of w into the next. The bits that tell it are a byte apart, so that their sum is the
// remainder of 255.
pub fn crossings(w: u64) -> u32
    ensures { result ≡ crossed 7 w }
{
    (((w / 256) & (w / 128) & LAST_BITS) % 255) as u32
}
