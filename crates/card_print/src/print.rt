// The card printer's work: an image in, the text of its card or of a refusal out.
ghost use Rattle.std.specs.Prelude.{◌≤◌};
ghost use Rattle.card_print.specs.Printed.{Prints, PrintsWith};

use card::Shape;
use catalogue::Entry;
use catalogue_standings::opening::SHEETS;
use pagunlit_replies::reply_of;
use printer::{describe_card, describe_refusal};

// Writes what is to be printed of an image to the text, and gives the number of its bytes. A role loads it, over a shape of
// which a load reads nothing. The map has a bit for each block of the card, the catalogue an entry for each sheet, and the
// scratch its length; load refuses them if not. Then the map of an accepted load holds the card's blocks.
pub fn print_image(
    shape: Shape,
    role: u32,
    image: &[u8],
    map: &mut [u64],
    catalogue: &mut [Entry],
    scratch: &mut [u64],
    text: &mut [u8],
) -> usize
    ensures { Prints shape role image.now map.old catalogue.old scratch.old
        text.old result
        map.new catalogue.new scratch.new text.new }
{
    let outcome = shape.load(role, image, map, catalogue, scratch);
    let loaded = reply_of(outcome);
    if loaded.number != 0 {
        return describe_refusal(loaded.number, text);
    }
    let n = loaded.shape.blocks;
    let counts = survey::survey(&*map, n);
    describe_card(n, loaded.shape.free, counts, &*catalogue, text)
}

// The same with the first c of some entries by value, of which nothing is handed back.
pub fn print_with(
    shape: Shape,
    role: u32,
    image: &[u8],
    map: &mut [u64],
    entries: [Entry; SHEETS],
    c: usize,
    scratch: &mut [u64],
    text: &mut [u8],
) -> usize
    requires { c ≤ 1024 }
    ensures { PrintsWith shape role image.now map.old entries c scratch.old
        text.old result
        map.new scratch.new text.new }
{
    let mut all = entries;
    print_image(shape, role, image, map, &mut all[..c], scratch, text)
}
