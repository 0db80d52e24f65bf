// Release: any standing but Absent becomes Absent, and its blocks free. The card's bytes stay.
#![tactic(auto)]

ghost use Rattle.std.specs.Prelude.{◌≡◌};
ghost use Rattle.catalogue_standings.specs.Refusals.{Follows};
ghost use Rattle.refusals.specs.Lent.{lent_for, no_card};
ghost use Rattle.roles.specs.Roles as names;
ghost use Rattle.refusals.specs.Effects.{release_verdict, release_out, release_map, release_summary};

use catalogue::{ABSENT, Entry};
use catalogue_standings::opening::Asked;
use catalogue_standings::{Answer, Refusal, Standing};
use map_blocks::run::{FREE, mark};
use refusals::{Out, begin, follow, refusal};
use roles::Call;

fn allowed(asked: Asked, map: &[u64], guided: bool, summary: &[u32]) -> Result<(), Refusal>
    ensures { let q = lent_for asked names.release guided summary.now map.now no_card in
        Follows (release_verdict q) result }
{
    let stands = begin(
        asked,
        Call::Release as u32,
        map,
        guided,
        summary.len(),
        None,
    )?;
    if let Standing::Absent = stands {
        return Err(Refusal::IsAbsent);
    }
    if asked.n - asked.free < asked.entry.length {
        return Err(Refusal::Damaged);
    }
    Ok(())
}

// It is inline, so that a call without a summary makes no test of one.
#[inline(always)]
pub fn release(asked: Asked, map: &mut [u64], guided: bool, summary: &mut [u32]) -> Out
    ensures { let q = lent_for asked names.release guided summary.old map.old no_card in
        (result ≡ release_out q) × (map.new ≡ release_map q) × (summary.new ≡ release_summary q) }
{
    if let Err(why) = allowed(asked, map, guided, summary) {
        return refusal(asked.free, asked.entry, why.number());
    }
    let start = asked.entry.start;
    let blocks = asked.entry.length;
    mark(map, start, blocks, FREE);
    follow(guided, map, asked.n, summary, start, blocks);
    Out {
        free: asked.free + blocks,
        entry: Entry {
            mark: ABSENT,
            start: 0,
            length: 0,
        },
        answer: Answer::Done,
    }
}
