// The rule of a mark, as far as an entry alone says whether it is kept (document 01, "Shape, catalogue, blocks"). What the map
// says of an extent is tested window by window.
ghost use Rattle.std.specs.Prelude.{◌≡◌, true, ◌&&◌, cond, ◌+◌, eqb, leb};
ghost use Rattle.image_soundness.specs.Windows.{keeps_rule};

use catalogue::{ABSENT, COMPLETE, Entry, OPEN, PAUSED};

// Start 0 and length 0.
fn no_extent(entry: Entry) -> bool
    ensures { result ≡ (eqb entry.start 0 && eqb entry.length 0) }
{
    entry.start == 0 && entry.length == 0
}

// At least one block, and none from n on.
fn extent_inside(n: u32, entry: Entry) -> bool
    ensures { result ≡ (leb 1 entry.length && leb (entry.start + entry.length) n) }
{
    let start = entry.start as u64;
    let blocks = entry.length as u64;
    blocks >= 1 && start + blocks <= n as u64
}

// A pause has no extent, or one inside n.
fn pause_keeps(n: u32, entry: Entry) -> bool
    ensures { result ≡ cond (eqb entry.start 0 && eqb entry.length 0) true
        (leb 1 entry.length && leb (entry.start + entry.length) n) }
{
    no_extent(entry) || extent_inside(n, entry)
}

// Whether an entry keeps the rule of its mark: Absent has no extent, Open and Complete have one inside n, and Paused may have
// one.
pub fn keeps_rule(n: u32, entry: Entry) -> bool
    ensures { result ≡ keeps_rule n entry }
{
    match entry.mark {
        ABSENT => no_extent(entry),
        PAUSED => pause_keeps(n, entry),
        OPEN => extent_inside(n, entry),
        COMPLETE => extent_inside(n, entry),
        _ => false,
    }
}
