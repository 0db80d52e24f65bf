// The dated show (document 02 (m)): what show does, on a day of the term that the payload of place 0 starts with.
ghost use Rattle.std.specs.Prelude.{◌≡◌, false, [], ◌+◌, ◌*◌, ◌≤◌, length};
ghost use Rattle.block_seals.specs.Sealed.{sound, payload_of};
ghost use Rattle.blocks_of_card.specs.Card.{block_of};
ghost use Rattle.calendar.specs.Calendar.{date_of};
ghost use Rattle.calendar.specs.Term.{term_of, in_term};
ghost use Rattle.catalogue_standings.specs.Refusals.{Follows};
ghost use Rattle.refusals.specs.Lent.{lent_for};
ghost use Rattle.roles.specs.Roles as names;
ghost use Rattle.refusals.specs.Effects.{term_verdict, show_dated_verdict, show_dated_answer, show_dated_buffer};

use crate::place::{show_block, showing};
use block::{BLOCK, PAYLOAD};
use blocks_of_card::{PAYLOAD_START, sound_block};
use calendar::{day_number, in_term};
use catalogue_standings::opening::Asked;
use catalogue_standings::{Answer, Refusal};
use roles::Call;

// Whether a day lies in the term that the payload of block b starts with.
fn day_in_term(card: &[u8], b: u32, day: u32) -> bool
    requires { 512 * b + 512 ≤ length card.now }
    ensures { result ≡ in_term (term_of (payload_of (block_of card.now b))) day }
{
    let start = BLOCK * (b as usize) + PAYLOAD_START;
    let end = start + PAYLOAD;
    in_term(&card[start..end], day)
}

// The rows of a date, of a sheet whose place 0 is block b: 19, 4 for place 0, and 20.
fn on_term(card: &[u8], b: u32, sheet: u32, year: u32, month: u32, day: u32) -> Result<(), Refusal>
    requires { 512 * b + 512 ≤ length card.now }
    ensures { let block = block_of card.now b in
        Follows (term_verdict (sound sheet 0 block) (term_of (payload_of block)) (date_of year month day)) result }
{
    let Some(number) = day_number(year, month, day) else {
        return Err(Refusal::NoDate);
    };
    if !sound_block(card, b, sheet, 0) {
        return Err(Refusal::Damaged);
    }
    if !day_in_term(card, b, number) {
        return Err(Refusal::OutsideTerm);
    }
    Ok(())
}

fn copied(
    asked: Asked,
    map: &[u64],
    card: &[u8],
    place: u32,
    year: u32,
    month: u32,
    day: u32,
    buffer: &mut [u8],
) -> Result<(), Refusal>
    ensures { let q = lent_for asked names.show_dated false [] map.now card.now in
        let date = date_of year month day in
        Follows (show_dated_verdict q place date buffer.old) result
        × (buffer.new ≡ show_dated_buffer q place date buffer.old) }
{
    showing(asked, Call::ShowDated as u32, map, card, place, buffer)?;
    let start = asked.entry.start;
    on_term(card, start, asked.sheet, year, month, day)?;
    show_block(card, start + place, asked.sheet, place, buffer)
}

pub fn show_dated(
    asked: Asked,
    map: &[u64],
    card: &[u8],
    place: u32,
    year: u32,
    month: u32,
    day: u32,
    buffer: &mut [u8],
) -> Answer
    ensures { let q = lent_for asked names.show_dated false [] map.now card.now in
        let date = date_of year month day in
        (result ≡ show_dated_answer q place date buffer.old)
        × (buffer.new ≡ show_dated_buffer q place date buffer.old) }
{
    match copied(asked, map, card, place, year, month, day, buffer) {
        Err(why) => why.answer(),
        Ok(()) => Answer::Done,
    }
}
