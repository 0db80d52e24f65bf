// One group of a summary (document 02, request (j)): what one word of a map tells, and a group from its two halves.
#![tactic(auto)]

ghost use Rattle.std.specs.Prelude.{◌≡◌, ℕ, ◌+◌, ◌<◌, ◌≤◌};
ghost use Rattle.map_blocks.specs.Words.{bit};
ghost use Rattle.summary_groups.specs.Groups.{group_of, carried_of, joined_of};
ghost use Rattle.summary_groups.specs.Words.{StartsOf, Reaching, Longest};

use map_blocks::word::ONES;
use map_search_starts::head;
use map_search_word::word::tail;

// What a summary tells of a group: the free run at its head, at its tail, and its longest. The tail stands first, so that it is
// compared first: numbers side by side in the summary would otherwise be read from memory as one, right after they have been
// stored as two.
#[derive(Clone, Copy, PartialEq, Eq)]
pub struct Group {
    pub tail: u32,
    pub head: u32,
    pub longest: u32,
}

// The runs of a word that are `length` long: the bits of `starts` are where they start.
#[derive(Clone, Copy)]
struct Runs {
    starts: u64,
    length: u32,
}

impl Runs {
    // The runs of `length` + more where there are any, otherwise the same runs. The bits of `ends` are where runs of `more`
    // start.
    fn longer(self, ends: u64, more: u32) -> Runs
        requires { (0 < more) × (self.length + more ≤ 64) }
        ensures length_bound { result.length ≤ self.length + more }
        ensures by_index { (w : ℕ) → Reaching w self.starts self.length (more + more) → StartsOf w more ends
            → Reaching w result.starts result.length more }
    {
        let starts = self.starts & (ends << self.length);
        if starts == 0 {
            return self;
        }
        Runs {
            starts,
            length: self.length + more,
        }
    }
}

// The longest run of ones in w, which has one: by runs of 32, of 16 and so on, as long as they fit behind each other.
fn longest(w: u64) -> u32
    requires { 0 < w }
    ensures { Longest w result }
{
    let twos = w & (w << 1);
    let fours = twos & (twos << 2);
    let eights = fours & (fours << 4);
    let sixteens = eights & (eights << 8);
    let ones = Runs {
        starts: w,
        length: 1,
    };
    ones.longer(sixteens & (sixteens << 16), 32)
        .longer(sixteens, 16)
        .longer(eights, 8)
        .longer(fours, 4)
        .longer(twos, 2)
        .longer(w, 1)
        .length
}

// What a word tells. Words that are all taken or all free need no work.
pub fn word_group(w: u64) -> Group
    ensures { result ≡ group_of (bit w) 0 64 }
{
    if w == 0 {
        return Group {
            head: 0,
            tail: 0,
            longest: 0,
        };
    }
    if w == ONES {
        return Group {
            head: 64,
            tail: 64,
            longest: 64,
        };
    }
    Group {
        head: head(w),
        tail: tail(w),
        longest: longest(w),
    }
}

// A run at the end of m blocks, which goes on into `next` more where it is all of them.
fn carried(run: u32, m: u32, next: u32) -> u32
    ensures { result ≡ carried_of run m next }
{
    if run == m { m.wrapping_add(next) } else { run }
}

// A group from its halves, of m blocks each.
pub fn joined(a: Group, b: Group, m: u32) -> Group
    ensures { result ≡ joined_of a b m }
{
    Group {
        head: carried(a.head, m, b.head),
        tail: carried(b.tail, m, a.tail),
        longest: a.longest.max(b.longest).max(a.tail.wrapping_add(b.head)),
    }
}
