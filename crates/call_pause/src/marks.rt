// The calls that change the mark of an entry and no more: by the standings that each admits, and the mark that it leaves.
ghost use Rattle.std.specs.Prelude.{◌≡◌, false, []};
ghost use Rattle.refusals.specs.Lent.{lent_for, no_card};
ghost use Rattle.refusals.specs.Effects.{change_out};
ghost use Rattle.refusals.specs.Marks.{is_admitted};
ghost use Rattle.refusals.specs.Table.{admits_of, mark_after};
ghost use Rattle.call_pause.specs.Changes.{change_of, name_of, by_row, admitted_of, mark_out};

use catalogue::{COMPLETE, Entry, PAUSED};
use catalogue_standings::opening::{Asked, row_of};
use catalogue_standings::{Answer, Refusal, Standing};
use refusals::{Admits, Out, refusal};
use roles::Call;

#[derive(Clone, Copy, PartialEq, Eq)]
pub enum Change {
    Pause,
    Resume,
}

// Those of a call that admits none.
const NO_STANDING: Admits = Admits {
    absent: false,
    paused: false,
    pausedwith: false,
    open: false,
    complete: false,
};

impl Change {
    // Its number in the table of roles.
    fn call(self) -> u32
        ensures { result ≡ name_of self }
    {
        match self {
            Change::Pause => Call::Pause as u32,
            Change::Resume => Call::Resume as u32,
        }
    }

    fn admits(self) -> Admits
        ensures { result ≡ admits_of (change_of self) }
    {
        match self {
            Change::Pause => Admits {
                absent: true,
                complete: true,
                ..NO_STANDING
            },
            Change::Resume => Admits {
                pausedwith: true,
                ..NO_STANDING
            },
        }
    }

    // The mark that it leaves.
    fn mark(self) -> u32
        ensures { result ≡ mark_after (change_of self) }
    {
        match self {
            Change::Pause => PAUSED,
            Change::Resume => COMPLETE,
        }
    }

    // The call: what the rows that every call begins with say, then whether the standing is admitted, and then the effect. It
    // is inline, so that each change tests only what it asks.
    #[inline(always)]
    pub fn make(self, asked: Asked, map: &[u64]) -> Out
        ensures { let q = lent_for asked (name_of self) false [] map.now no_card in
            result ≡ change_out q (change_of self) }
    {
        let opened = by_row(asked.enter(self.call(), map, None));
        let verdict = admit(self.admits(), opened);
        with_mark(asked.free, asked.entry, verdict, self.mark())
    }
}

fn is_admitted(admits: Admits, stands: Standing) -> bool
    ensures { result ≡ is_admitted admits stands }
{
    match stands {
        Standing::Absent => admits.absent,
        Standing::Paused => admits.paused,
        Standing::PausedWith(_, _) => admits.pausedwith,
        Standing::Open(_, _) => admits.open,
        Standing::Complete(_, _) => admits.complete,
        Standing::Damaged => false,
    }
}

// A refusal by the number of its row.
fn by_row(opened: Result<Standing, Refusal>) -> Result<Standing, u32>
    ensures { result ≡ by_row opened }
{
    match opened {
        Ok(stands) => Ok(stands),
        Err(why) => Err(why.number()),
    }
}

// A standing that the call does not admit is refused by its own row.
pub fn admit(admits: Admits, opened: Result<Standing, u32>) -> Result<Standing, u32>
    ensures { result ≡ admitted_of admits opened }
{
    let stands = opened?;
    if is_admitted(admits, stands) {
        return Ok(stands);
    }
    Err(row_of(stands).number())
}

// The entry with the mark, start and length as they were, unless the verdict is a refusal.
pub fn with_mark(free: u32, entry: Entry, verdict: Result<Standing, u32>, mark: u32) -> Out
    ensures { result ≡ mark_out free entry verdict mark }
{
    match verdict {
        Err(row) => refusal(free, entry, row),
        Ok(_) => Out {
            free: free,
            entry: Entry {
                mark: mark,
                start: entry.start,
                length: entry.length,
            },
            answer: Answer::Done,
        },
    }
}
