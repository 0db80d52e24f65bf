// Complete: Open becomes Complete if every place is filled.
ghost use Rattle.std.specs.Prelude.{◌≡◌, false, [], MatchResult, MatchOption};
ghost use Rattle.catalogue_standings.specs.Refusals.{number};
ghost use Rattle.catalogue_standings.specs.Rows.{accepted, refused};
ghost use Rattle.refusals.specs.Lent.{lent_for};
ghost use Rattle.roles.specs.Roles as names;
ghost use Rattle.refusals.specs.Effects.{complete_verdict, blank_place, complete_out};

use crate::places::look;
use catalogue::{COMPLETE, Entry};
use catalogue_standings::opening::{Asked, row_of};
use catalogue_standings::{Answer, Refusal, Standing};
use refusals::{Out, refusal};
use roles::Call;

// The lowest blank place, which goes with 9, or none; or the refusal by another row.
fn blank_left(asked: Asked, map: &[u64], card: &[u8]) -> Result<Option<u32>, Refusal>
    ensures { let q = lent_for asked names.complete false [] map.now card.now in
        MatchResult result
        (λ lowest. MatchOption lowest (complete_verdict q ≡ accepted)
        (λ place. (complete_verdict q ≡ refused 9) × (place ≡ blank_place q)))
        (λ why. complete_verdict q ≡ refused (number why)) }
{
    let stands = asked.enter(Call::Complete as u32, map, Some(card.len()))?;
    let Standing::Open(start, blocks) = stands else {
        return Err(row_of(stands));
    };
    look(card, start, blocks, asked.sheet)
}

pub fn complete(asked: Asked, map: &[u64], card: &[u8]) -> Out
    ensures { let q = lent_for asked names.complete false [] map.now card.now in
        result ≡ complete_out q }
{
    match blank_left(asked, map, card) {
        Err(why) => refusal(asked.free, asked.entry, why.number()),
        Ok(Some(place)) => Out {
            free: asked.free,
            entry: asked.entry,
            answer: Answer::Blank(place),
        },
        Ok(None) => Out {
            free: asked.free,
            entry: Entry {
                mark: COMPLETE,
                start: asked.entry.start,
                length: asked.entry.length,
            },
            answer: Answer::Done,
        },
    }
}
