// The C function of the dated show (document 02 (m)).
ghost use Rattle.pagunlit_replies.specs.Replies.{reply_of};
ghost use Rattle.card.specs.Ends.{show_dated_end};
ghost use Rattle.card.specs.Leaves.{LeavesBuffer};

use card::Shape;
use catalogue::Entry;
use pagunlit_replies::{Reply, reply_of};

#[unsafe(no_mangle)]
pub extern "C" fn pagunlit_show_dated(
    role: u32,
    shape: Shape,
    map: &[u64],
    catalogue: &[Entry],
    card: &[u8],
    sheet: u32,
    place: u32,
    year: u32,
    month: u32,
    day: u32,
    buffer: &mut [u8],
) -> Reply
    ensures { LeavesBuffer reply_of (show_dated_end shape role map.now catalogue.now
        card.now sheet place year month day buffer.old) result buffer.new }
{
    let outcome = shape.show_dated(
        role, map, catalogue, card, sheet, place, year, month, day, buffer,
    );
    reply_of(outcome)
}
