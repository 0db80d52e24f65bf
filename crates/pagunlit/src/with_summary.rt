// The C functions on a summary beside the map, and of the calls that are lent one (document 02, request j), each beside the one
// without a summary, as C has them.
ghost use Rattle.pagunlit_replies.specs.Replies.{reply_of};
ghost use Rattle.card.specs.Ends.{summary_build_end, summary_check_end, reserve_with_summary_end};
ghost use Rattle.card.specs.Ends.{reserve_placed_with_summary_end};
ghost use Rattle.card.specs.Ends.{acceptWithSummaryEnd, grow_with_summary_end, release_with_summary_end};
ghost use Rattle.card.specs.Ends.{close_with_summary_end};
ghost use Rattle.card.specs.Leaves.{HandsBack, LeavesSummary, LeavesMapSummaryEntries, LeavesMapSummaryEntriesCard};
ghost use Rattle.card.specs.Leaves.{LeavesMapSummaryEntriesCardScratch};

use card::Shape;
use catalogue::Entry;
use pagunlit_replies::{Reply, reply_of};

#[unsafe(no_mangle)]
pub extern "C" fn pagunlit_summary_build(
    role: u32,
    shape: Shape,
    map: &[u64],
    summary: &mut [u32],
) -> Reply
    ensures { LeavesSummary reply_of (summary_build_end shape role map.now summary.old) result
        summary.new }
{
    let outcome = shape.summary_build(role, map, summary);
    reply_of(outcome)
}

#[unsafe(no_mangle)]
pub extern "C" fn pagunlit_summary_check(
    role: u32,
    shape: Shape,
    map: &[u64],
    summary: &[u32],
) -> Reply
    ensures { HandsBack reply_of (summary_check_end shape role map.now summary.now) result }
{
    let outcome = shape.summary_check(role, map, summary);
    reply_of(outcome)
}

#[unsafe(no_mangle)]
pub extern "C" fn pagunlit_reserve_with_summary(
    role: u32,
    shape: Shape,
    map: &mut [u64],
    summary: &mut [u32],
    catalogue: &mut [Entry],
    card: &mut [u8],
    limits: &[u32; 8],
    sheet: u32,
    count: u32,
) -> Reply
    ensures { LeavesMapSummaryEntriesCard reply_of (reserve_with_summary_end shape role map.old
        summary.old catalogue.old card.old limits.now sheet count) result
        map.new summary.new catalogue.new card.new }
{
    let outcome = shape.reserve_with_summary(
        role, map, summary, catalogue, card, limits, sheet, count,
    );
    reply_of(outcome)
}

#[unsafe(no_mangle)]
pub extern "C" fn pagunlit_reserve_placed_with_summary(
    role: u32,
    shape: Shape,
    map: &mut [u64],
    summary: &mut [u32],
    catalogue: &mut [Entry],
    card: &mut [u8],
    limits: &[u32; 8],
    sheet: u32,
    count: u32,
    from: u32,
    before: u32,
    step: u32,
) -> Reply
    ensures { LeavesMapSummaryEntriesCard reply_of (reserve_placed_with_summary_end shape role map.old
        summary.old catalogue.old card.old limits.now sheet count from before
        step) result map.new summary.new catalogue.new card.new }
{
    let outcome = shape.reserve_placed_with_summary(
        role, map, summary, catalogue, card, limits, sheet, count, from, before, step,
    );
    reply_of(outcome)
}

#[unsafe(no_mangle)]
pub extern "C" fn pagunlit_accept_with_summary(
    role: u32,
    shape: Shape,
    map: &mut [u64],
    summary: &mut [u32],
    catalogue: &mut [Entry],
    card: &mut [u8],
    limits: &[u32; 8],
    sheet: u32,
    start: u32,
    count: u32,
) -> Reply
    ensures { LeavesMapSummaryEntriesCard reply_of (acceptWithSummaryEnd shape role map.old
        summary.old catalogue.old card.old limits.now sheet start count) result
        map.new summary.new catalogue.new card.new }
{
    let outcome = shape.accept_with_summary(
        role, map, summary, catalogue, card, limits, sheet, start, count,
    );
    reply_of(outcome)
}

#[unsafe(no_mangle)]
pub extern "C" fn pagunlit_grow_with_summary(
    role: u32,
    shape: Shape,
    map: &mut [u64],
    summary: &mut [u32],
    catalogue: &mut [Entry],
    card: &mut [u8],
    limits: &[u32; 8],
    sheet: u32,
    count: u32,
) -> Reply
    ensures { LeavesMapSummaryEntriesCard reply_of (grow_with_summary_end shape role map.old
        summary.old catalogue.old card.old limits.now sheet count) result
        map.new summary.new catalogue.new card.new }
{
    let outcome = shape.grow_with_summary(
        role, map, summary, catalogue, card, limits, sheet, count,
    );
    reply_of(outcome)
}

#[unsafe(no_mangle)]
pub extern "C" fn pagunlit_release_with_summary(
    role: u32,
    shape: Shape,
    map: &mut [u64],
    summary: &mut [u32],
    catalogue: &mut [Entry],
    sheet: u32,
) -> Reply
    ensures { LeavesMapSummaryEntries reply_of (release_with_summary_end shape role map.old
        summary.old catalogue.old sheet) result map.new summary.new
        catalogue.new }
{
    let outcome = shape.release_with_summary(role, map, summary, catalogue, sheet);
    reply_of(outcome)
}

#[unsafe(no_mangle)]
pub extern "C" fn pagunlit_close_with_summary(
    role: u32,
    shape: Shape,
    map: &mut [u64],
    summary: &mut [u32],
    catalogue: &mut [Entry],
    card: &mut [u8],
    scratch: &mut [u64],
) -> Reply
    ensures { LeavesMapSummaryEntriesCardScratch reply_of (close_with_summary_end shape role map.old
        summary.old catalogue.old card.old scratch.old) result map.new
        summary.new catalogue.new card.new scratch.new }
{
    let outcome = shape.close_with_summary(role, map, summary, catalogue, card, scratch);
    reply_of(outcome)
}
