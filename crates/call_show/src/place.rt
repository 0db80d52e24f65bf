// What show and the dated show have in common: the rows that they begin with, and the block of the place at their end.
ghost use Rattle.std.specs.Prelude.{◌≡◌, false, [], ◌+◌, ◌*◌, ◌≤◌, length};
ghost use Rattle.block_seals.specs.Sealed.{sound};
ghost use Rattle.blocks_of_card.specs.Card.{block_of};
ghost use Rattle.catalogue_standings.specs.Refusals.{Follows};
ghost use Rattle.refusals.specs.Lent.{lent_for};
ghost use Rattle.refusals.specs.Effects.{showing_verdict, block_verdict, shown_buffer};

use block::PAYLOAD;
use blocks_of_card::{copy_payload, sound_block};
use catalogue_standings::opening::{Asked, row_of};
use catalogue_standings::{Refusal, Standing};

// The rows that a show begins with: 21, 1, 2, 4 for the entry, 5 to 7 and 3.
pub fn showing(
    asked: Asked,
    call: u32,
    map: &[u64],
    card: &[u8],
    place: u32,
    buffer: &[u8],
) -> Result<(), Refusal>
    ensures { let q = lent_for asked call false [] map.now card.now in
        Follows (showing_verdict q place buffer.now) result }
{
    let stands = asked.enter(call, map, Some(card.len()))?;
    let Standing::Complete(_, blocks) = stands else {
        return Err(row_of(stands));
    };
    if blocks <= place {
        return Err(Refusal::WrongLength);
    }
    if buffer.len() != PAYLOAD {
        return Err(Refusal::WrongLength);
    }
    Ok(())
}

// The payload of block b is copied out, or 4 if the block is not sound for the sheet and the place.
pub fn show_block(
    card: &[u8],
    b: u32,
    sheet: u32,
    place: u32,
    buffer: &mut [u8],
) -> Result<(), Refusal>
    requires { (512 * b + 512 ≤ length card.now) × (length buffer.old ≡ 496) }
    ensures { let block = block_of card.now b in
        let v = block_verdict (sound sheet place block) in
        Follows v result × (buffer.new ≡ shown_buffer v block buffer.old) }
{
    if !sound_block(card, b, sheet, place) {
        return Err(Refusal::Damaged);
    }
    copy_payload(card, b, buffer);
    Ok(())
}
