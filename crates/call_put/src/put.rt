// Put: on Open, the block of a place becomes the sealed payload.
ghost use Rattle.std.specs.Prelude.{◌≡◌, false, [], ◌+◌, ◌*◌, ◌≤◌, length, IfOk};
ghost use Rattle.catalogue_standings.specs.Refusals.{Follows};
ghost use Rattle.refusals.specs.Lent.{lent_for};
ghost use Rattle.roles.specs.Roles as names;
ghost use Rattle.refusals.specs.Effects.{put_verdict, put_answer, put_card};

use block::PAYLOAD;
use blocks_of_card::write_block;
use catalogue_standings::opening::{Asked, row_of};
use catalogue_standings::{Answer, Refusal, Standing};
use roles::Call;

// The block of the place, or the refusal.
fn block_for(
    asked: Asked,
    map: &[u64],
    card: &[u8],
    place: u32,
    payload: &[u8],
) -> Result<u32, Refusal>
    ensures { let q = lent_for asked names.put false [] map.now card.now in
        Follows (put_verdict q place payload.now) result
        × IfOk result (λ b. (b ≡ asked.entry.start + place) × (512 * b + 512 ≤ length card.now)
        × (length payload.now ≡ 496)) }
{
    let stands = asked.enter(Call::Put as u32, map, Some(card.len()))?;
    let Standing::Open(start, blocks) = stands else {
        return Err(row_of(stands));
    };
    if blocks <= place {
        return Err(Refusal::WrongLength);
    }
    if payload.len() != PAYLOAD {
        return Err(Refusal::WrongLength);
    }
    Ok(start + place)
}

pub fn put(asked: Asked, map: &[u64], card: &mut [u8], place: u32, payload: &[u8]) -> Answer
    ensures { let q = lent_for asked names.put false [] map.now card.old in
        (result ≡ put_answer q place payload.now)
        × (card.new ≡ put_card q place payload.now) }
{
    match block_for(asked, map, card, place, payload) {
        Err(why) => why.answer(),
        Ok(b) => {
            write_block(card, b, asked.sheet, place, payload);
            Answer::Done
        }
    }
}
