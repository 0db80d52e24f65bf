// What the calls on a card are refused with, hand back and leave (document 01, "The ledger, call by call" and "What the
// caller gets instead"): definitions in specs/, their laws in proofs/. The calls themselves stand in the crates over this
// one, whose names begin with call_.
#![tactic(auto)]

ghost use Rattle.std.specs.Prelude.{◌≡◌, true, ◌&&◌, ◌+◌, ◌*◌, ◌≤◌, length};
ghost use Rattle.map_blocks.specs.Blocks;
ghost use Rattle.roles.specs.Roles.{turned_away};
ghost use Rattle.catalogue_standings.specs.Limits.{lent_fits};
ghost use Rattle.catalogue_standings.specs.Openings.{opened_for};
ghost use Rattle.catalogue_standings.specs.Standings.{standing_of};
ghost use Rattle.refusals.specs.Effects.{refusal_out};
ghost use Rattle.refusals.specs.Guides.{guide_fits, guide_tested, guide_after};

use catalogue::Entry;
use catalogue_standings::opening::{Asked, permit};
use catalogue_standings::{Answer, Refusal, Standing};
use summary::summary_len;
use summary_write::update;

// The figures of a reserve (document 02, request a): it starts at or after `from`, ends at or before `before`, and starts on a
// multiple of `step`.
#[derive(Clone, Copy)]
pub struct Figures {
    pub from: u32,
    pub before: u32,
    pub step: u32,
}

// The standings that a call admits, by the names of `Standing`. A damaged one is admitted by none.
#[derive(Clone, Copy)]
pub struct Admits {
    pub absent: bool,
    pub paused: bool,
    pub pausedwith: bool,
    pub open: bool,
    pub complete: bool,
}

// What a call that may change a sheet hands back: the free count, the sheet's entry and the answer.
#[derive(Clone, Copy)]
pub struct Out {
    pub free: u32,
    pub entry: Entry,
    pub answer: Answer,
}

// A refusal, by its row, hands the free count and the entry back as they came.
pub fn refusal(free: u32, entry: Entry, row: u32) -> Out
    ensures { result ≡ refusal_out free entry row }
{
    Out {
        free: free,
        entry: entry,
        answer: Answer::Refused(row),
    }
}

// Whether a summary guides a call stands beside the summary here and in the crates above: a contract has no name for what a
// `&mut` inside an `Option` points at after the call.

// Row 1 for a summary, if one guides the call. A map of more words than a card can have is refused by the same row.
pub fn guide_fits(guided: bool, maplen: usize, summarylen: usize) -> bool
    ensures { result ≡ guide_tested guided maplen summarylen }
{
    if !guided {
        return true;
    }
    if 4096 < maplen {
        return false;
    }
    summarylen == summary_len(maplen)
}

// Rows 21, 1, 2 and 4 for the entry, which a call on a sheet begins with: by its number, which may be any, and the lengths of
// what it is lent, the summary that guides it, if one does, and the card, if it is lent one. It is inline as the rows behind 21
// are.
#[inline(always)]
pub fn begin(
    asked: Asked,
    call: u32,
    map: &[u64],
    guided: bool,
    summarylen: usize,
    cardlen: Option<usize>,
) -> Result<Standing, Refusal>
    ensures { result ≡ opened_for (turned_away asked.role call)
        (guide_tested guided (length map.now) summarylen
        && lent_fits asked.n asked.free (length map.now) asked.sheets cardlen) asked.sheets asked.sheet
        (standing_of asked.n (Blocks.free map.now) asked.entry) }
{
    permit(asked.role, call)?;
    if !guide_fits(guided, map.len(), summarylen) {
        return Err(Refusal::Misfit);
    }
    asked.open(map, cardlen)
}

// The summary follows the map, in which the count blocks from start on have changed, if one guides the call. It is inline, so
// that a call without a summary tests at most whether it has one.
#[inline(always)]
pub fn follow(guided: bool, map: &[u64], n: u32, summary: &mut [u32], start: u32, count: u32)
    requires { (length map.now ≤ 4096) × (n ≤ 64 * length map.now) × (start + count ≤ 64 * length map.now)
        × (guide_fits guided summary.old (length map.now) ≡ true) }
    ensures { summary.new ≡ guide_after guided summary.old map.now n start count }
{
    if guided {
        update(map, n, summary, start, count);
    }
}
