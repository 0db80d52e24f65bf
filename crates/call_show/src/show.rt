// Show: copies a payload of a Complete sheet. The entry is taken apart first, and no block is read unless it is Complete.
ghost use Rattle.std.specs.Prelude.{◌≡◌, false, []};
ghost use Rattle.catalogue_standings.specs.Refusals.{Follows};
ghost use Rattle.refusals.specs.Lent.{lent_for};
ghost use Rattle.roles.specs.Roles as names;
ghost use Rattle.refusals.specs.Effects.{show_verdict, show_answer, show_buffer};

use crate::place::{show_block, showing};
use catalogue_standings::opening::Asked;
use catalogue_standings::{Answer, Refusal};
use roles::Call;

fn copied(
    asked: Asked,
    map: &[u64],
    card: &[u8],
    place: u32,
    buffer: &mut [u8],
) -> Result<(), Refusal>
    ensures { let q = lent_for asked names.show false [] map.now card.now in
        Follows (show_verdict q place buffer.old) result × (buffer.new ≡ show_buffer q place buffer.old) }
{
    showing(asked, Call::Show as u32, map, card, place, buffer)?;
    show_block(card, asked.entry.start + place, asked.sheet, place, buffer)
}

pub fn show(asked: Asked, map: &[u64], card: &[u8], place: u32, buffer: &mut [u8]) -> Answer
    ensures { let q = lent_for asked names.show false [] map.now card.now in
        (result ≡ show_answer q place buffer.old)
        × (buffer.new ≡ show_buffer q place buffer.old) }
{
    match copied(asked, map, card, place, buffer) {
        Err(why) => why.answer(),
        Ok(()) => Answer::Done,
    }
}
