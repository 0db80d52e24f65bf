// The C library: every call of the card for the dispenser's C program (include/pagunlit.h). Each function makes the public
// call of its name (crate card), with the role of who makes it, and turns the outcome into document 01's numbers. A slice
// is a pointer and a length to C; the shape, the entries and the reply are structs of 32-bit numbers.
#![tactic(auto)]

pub mod dated;
pub mod days;
pub mod with_summary;

ghost use Rattle.std.specs.Prelude.{◌≡◌};
ghost use Rattle.block.specs.Calls.{seal_answer, after_seal, check_answer};
ghost use Rattle.calendar.specs.Term.{term_answer, with_term};
ghost use Rattle.counts.specs.Counts.{read_of, write_answer, after_write};
ghost use Rattle.counts.specs.Replies.{count_reply, count_from};
ghost use Rattle.pagunlit_replies.specs.Replies.{reply_of};
ghost use Rattle.card.specs.Ends.{fresh_end, search_end, survey_end, reserve_end, reservePlacedEnd, offer_end, accept_end};
ghost use Rattle.card.specs.Ends.{grow_end};
ghost use Rattle.card.specs.Ends.{putEnd, complete_end, pause_end, resume_end, release_end, showEnd, standing_end, save_end};
ghost use Rattle.card.specs.Ends.{load_end, close_end};
ghost use Rattle.card.specs.Leaves.{HandsBack, LeavesCard, LeavesEntries, LeavesBuffer, LeavesMapEntries};
ghost use Rattle.card.specs.Leaves.{LeavesMapEntriesCard, LeavesScratchImage, LeavesMapEntriesScratch};
ghost use Rattle.card.specs.Leaves.{LeavesMapEntriesCardScratch};

use card::Shape;
use catalogue::Entry;
use counts::CountReply;
use pagunlit_replies::{Reply, reply_of};

#[unsafe(no_mangle)]
pub extern "C" fn pagunlit_fresh(
    role: u32,
    shape: Shape,
    blocks: u32,
    map: &mut [u64],
    catalogue: &mut [Entry],
) -> Reply
    ensures { LeavesMapEntries reply_of (fresh_end shape role blocks map.old catalogue.old) result
        map.new catalogue.new }
{
    let outcome = shape.fresh(role, blocks, map, catalogue);
    reply_of(outcome)
}

#[unsafe(no_mangle)]
pub extern "C" fn pagunlit_search(role: u32, shape: Shape, map: &[u64], k: u32) -> Reply
    ensures { HandsBack reply_of (search_end shape role map.now k) result }
{
    let outcome = shape.search(role, map, k);
    reply_of(outcome)
}

#[unsafe(no_mangle)]
pub extern "C" fn pagunlit_survey(role: u32, shape: Shape, map: &[u64]) -> Reply
    ensures { HandsBack reply_of (survey_end shape role map.now) result }
{
    let outcome = shape.survey(role, map);
    reply_of(outcome)
}

#[unsafe(no_mangle)]
pub extern "C" fn pagunlit_reserve(
    role: u32,
    shape: Shape,
    map: &mut [u64],
    catalogue: &mut [Entry],
    card: &mut [u8],
    limits: &[u32; 8],
    sheet: u32,
    count: u32,
) -> Reply
    ensures { LeavesMapEntriesCard reply_of (reserve_end shape role map.old catalogue.old
        card.old limits.now sheet count) result map.new catalogue.new
        card.new }
{
    let outcome = shape.reserve(role, map, catalogue, card, limits, sheet, count);
    reply_of(outcome)
}

#[unsafe(no_mangle)]
pub extern "C" fn pagunlit_reserve_placed(
    role: u32,
    shape: Shape,
    map: &mut [u64],
    catalogue: &mut [Entry],
    card: &mut [u8],
    limits: &[u32; 8],
    sheet: u32,
    count: u32,
    from: u32,
    before: u32,
    step: u32,
) -> Reply
    ensures { LeavesMapEntriesCard reply_of (reservePlacedEnd shape role map.old catalogue.old
        card.old limits.now sheet count from before step) result map.new catalogue.new
        card.new }
{
    let outcome = shape.reserve_placed(
        role, map, catalogue, card, limits, sheet, count, from, before, step,
    );
    reply_of(outcome)
}

#[unsafe(no_mangle)]
pub extern "C" fn pagunlit_offer(
    role: u32,
    shape: Shape,
    map: &[u64],
    catalogue: &[Entry],
    card: &[u8],
    limits: &[u32; 8],
    sheet: u32,
    count: u32,
) -> Reply
    ensures { HandsBack reply_of (offer_end shape role map.now catalogue.now card.now
        limits.now sheet count) result }
{
    let outcome = shape.offer(role, map, catalogue, card, limits, sheet, count);
    reply_of(outcome)
}

#[unsafe(no_mangle)]
pub extern "C" fn pagunlit_accept(
    role: u32,
    shape: Shape,
    map: &mut [u64],
    catalogue: &mut [Entry],
    card: &mut [u8],
    limits: &[u32; 8],
    sheet: u32,
    start: u32,
    count: u32,
) -> Reply
    ensures { LeavesMapEntriesCard reply_of (accept_end shape role map.old catalogue.old
        card.old limits.now sheet start count) result map.new catalogue.new
        card.new }
{
    let outcome = shape.accept(role, map, catalogue, card, limits, sheet, start, count);
    reply_of(outcome)
}

#[unsafe(no_mangle)]
pub extern "C" fn pagunlit_grow(
    role: u32,
    shape: Shape,
    map: &mut [u64],
    catalogue: &mut [Entry],
    card: &mut [u8],
    limits: &[u32; 8],
    sheet: u32,
    count: u32,
) -> Reply
    ensures { LeavesMapEntriesCard reply_of (grow_end shape role map.old catalogue.old
        card.old limits.now sheet count) result map.new catalogue.new
        card.new }
{
    let outcome = shape.grow(role, map, catalogue, card, limits, sheet, count);
    reply_of(outcome)
}

#[unsafe(no_mangle)]
pub extern "C" fn pagunlit_put(
    role: u32,
    shape: Shape,
    map: &[u64],
    catalogue: &[Entry],
    card: &mut [u8],
    sheet: u32,
    place: u32,
    payload: &[u8],
) -> Reply
    ensures { LeavesCard reply_of (putEnd shape role map.now catalogue.now card.old
        sheet place payload.now) result card.new }
{
    let outcome = shape.put(role, map, catalogue, card, sheet, place, payload);
    reply_of(outcome)
}

#[unsafe(no_mangle)]
pub extern "C" fn pagunlit_complete(
    role: u32,
    shape: Shape,
    map: &[u64],
    catalogue: &mut [Entry],
    card: &[u8],
    sheet: u32,
) -> Reply
    ensures { LeavesEntries reply_of (complete_end shape role map.now catalogue.old
        card.now sheet) result catalogue.new }
{
    let outcome = shape.complete(role, map, catalogue, card, sheet);
    reply_of(outcome)
}

#[unsafe(no_mangle)]
pub extern "C" fn pagunlit_pause(
    role: u32,
    shape: Shape,
    map: &[u64],
    catalogue: &mut [Entry],
    sheet: u32,
) -> Reply
    ensures { LeavesEntries reply_of (pause_end shape role map.now catalogue.old sheet) result
        catalogue.new }
{
    let outcome = shape.pause(role, map, catalogue, sheet);
    reply_of(outcome)
}

#[unsafe(no_mangle)]
pub extern "C" fn pagunlit_resume(
    role: u32,
    shape: Shape,
    map: &[u64],
    catalogue: &mut [Entry],
    sheet: u32,
) -> Reply
    ensures { LeavesEntries reply_of (resume_end shape role map.now catalogue.old sheet) result
        catalogue.new }
{
    let outcome = shape.resume(role, map, catalogue, sheet);
    reply_of(outcome)
}

#[unsafe(no_mangle)]
pub extern "C" fn pagunlit_release(
    role: u32,
    shape: Shape,
    map: &mut [u64],
    catalogue: &mut [Entry],
    sheet: u32,
) -> Reply
    ensures { LeavesMapEntries reply_of (release_end shape role map.old catalogue.old sheet) result
        map.new catalogue.new }
{
    let outcome = shape.release(role, map, catalogue, sheet);
    reply_of(outcome)
}

#[unsafe(no_mangle)]
pub extern "C" fn pagunlit_show(
    role: u32,
    shape: Shape,
    map: &[u64],
    catalogue: &[Entry],
    card: &[u8],
    sheet: u32,
    place: u32,
    buffer: &mut [u8],
) -> Reply
    ensures { LeavesBuffer reply_of (showEnd shape role map.now catalogue.now
        card.now sheet place buffer.old) result buffer.new }
{
    let outcome = shape.show(role, map, catalogue, card, sheet, place, buffer);
    reply_of(outcome)
}

#[unsafe(no_mangle)]
pub extern "C" fn pagunlit_standing(
    role: u32,
    shape: Shape,
    map: &[u64],
    catalogue: &[Entry],
    sheet: u32,
) -> Reply
    ensures { HandsBack reply_of (standing_end shape role map.now catalogue.now sheet) result }
{
    let outcome = shape.standing(role, map, catalogue, sheet);
    reply_of(outcome)
}

#[unsafe(no_mangle)]
pub extern "C" fn pagunlit_save(
    role: u32,
    shape: Shape,
    map: &[u64],
    catalogue: &[Entry],
    scratch: &mut [u64],
    image: &mut [u8],
) -> Reply
    ensures { LeavesScratchImage reply_of (save_end shape role map.now catalogue.now
        scratch.old image.old) result scratch.new image.new }
{
    let outcome = shape.save(role, map, catalogue, scratch, image);
    reply_of(outcome)
}

#[unsafe(no_mangle)]
pub extern "C" fn pagunlit_close(
    role: u32,
    shape: Shape,
    map: &mut [u64],
    catalogue: &mut [Entry],
    card: &mut [u8],
    scratch: &mut [u64],
) -> Reply
    ensures { LeavesMapEntriesCardScratch reply_of (close_end shape role map.old catalogue.old
        card.old scratch.old) result map.new catalogue.new card.new
        scratch.new }
{
    let outcome = shape.close(role, map, catalogue, card, scratch);
    reply_of(outcome)
}

#[unsafe(no_mangle)]
pub extern "C" fn pagunlit_load(
    role: u32,
    shape: Shape,
    image: &[u8],
    map: &mut [u64],
    catalogue: &mut [Entry],
    scratch: &mut [u64],
) -> Reply
    ensures { LeavesMapEntriesScratch reply_of (load_end shape role image.now map.old
        catalogue.old scratch.old) result map.new catalogue.new scratch.new }
{
    let outcome = shape.load(role, image, map, catalogue, scratch);
    reply_of(outcome)
}

#[unsafe(no_mangle)]
pub extern "C" fn seal(sheet: u32, place: u32, payload: &[u8], bytes: &mut [u8]) -> u32
    ensures { (result ≡ seal_answer payload.now bytes.old)
        × (bytes.new ≡ after_seal sheet place payload.now bytes.old) }
{
    block::seal(sheet, place, payload, bytes)
}

#[unsafe(no_mangle)]
pub extern "C" fn check(bytes: &[u8]) -> u32
    ensures { result ≡ check_answer bytes.now }
{
    block::check(bytes)
}

// Dose counts of a payload, as the crate counts has them.

#[unsafe(no_mangle)]
pub extern "C" fn pagunlit_read_count(payload: &[u8], which: u32) -> CountReply
    ensures { result ≡ count_reply (read_of payload.now which) }
{
    counts::reply_of(counts::read_count(payload, which))
}

#[unsafe(no_mangle)]
pub extern "C" fn pagunlit_write_count(payload: &mut [u8], which: u32, hundredths: u32) -> u32
    ensures { (result ≡ write_answer payload.old which (count_from hundredths))
        × (payload.new ≡ after_write payload.old which (count_from hundredths)) }
{
    match counts::write_count(payload, which, counts::count_from(hundredths)) {
        Ok(()) => 0,
        Err(error) => error.number(),
    }
}

// The two days of a term, as the crate calendar has them.

#[unsafe(no_mangle)]
pub extern "C" fn pagunlit_write_term(payload: &mut [u8], first: u32, last: u32) -> u32
    ensures { (result ≡ term_answer payload.old)
        × (payload.new ≡ with_term payload.old first last) }
{
    match calendar::write_term(payload, first, last) {
        Ok(()) => 0,
        Err(error) => error.number(),
    }
}
