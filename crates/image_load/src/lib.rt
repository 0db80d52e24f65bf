// Load (document 01, "Saved image"): the verdict, and then the map and the entries one by one. Everything is validated before
// the first word of the map or the first entry is written, so that a refusal changes nothing but the scratch.
#![tactic(auto)]

ghost use Rattle.std.specs.Prelude.{◌≡◌, length, IfOk};
ghost use Rattle.catalogue_standings.specs.Refusals.{number_in};
ghost use Rattle.catalogue_standings.specs.Rows.{row_number};
ghost use Rattle.roles.specs.Roles as names;
ghost use Rattle.roles.specs.Roles.{turned_away};
ghost use Rattle.image.specs.Effects.{answered, load_result, load_map, load_entries, load_scratch};
ghost use Rattle.image.specs.Image.{blocks_in, free_count_in};
ghost use Rattle.image.specs.Table.{load_verdict};

use block::BLOCK;
use catalogue::Entry;
use catalogue_standings::Refusal;
use image::Loaded;
use image::limits::{head_fits, load_fits, whole_blocks};
use image_content::content_holds;
use image_content::entries::entry_at;
use image_frames::{all_framed, number, read_words};
use roles::Call;

// The rows of load. If none holds, n and the free count of the image.
fn verdict(
    role: u32,
    image: &[u8],
    maplen: usize,
    count: usize,
    scratch: &mut [u64],
) -> Result<Loaded, Refusal>
    ensures number { let turned = turned_away role names.load in
        number_in result ≡ row_number (load_verdict turned image.now maplen count (length scratch.old)) }
    ensures head { IfOk result (λ loaded. (loaded.blocks ≡ blocks_in image.now) × (loaded.free ≡ free_count_in image.now)) }
{
    if Call::Load.turned_away(role) {
        return Err(Refusal::TurnedAway);
    }
    if !whole_blocks(image.len()) {
        return Err(Refusal::ImageLength);
    }
    if !all_framed(image) {
        return Err(Refusal::ImageFrame);
    }
    let n = number(image, 0);
    let free = number(image, 1);
    let c = number(image, 2) as usize;
    if !head_fits(n, free, c, image.len() / BLOCK) {
        return Err(Refusal::ImageContent);
    }
    if !load_fits(n, c, maplen, count, scratch.len()) {
        return Err(Refusal::Misfit);
    }
    if !content_holds(image, n, free, c, scratch) {
        return Err(Refusal::ImageContent);
    }
    Ok(Loaded {
        blocks: n,
        free: free,
    })
}

// Loads an image, or says why not.
pub fn load(
    role: u32,
    image: &[u8],
    map: &mut [u64],
    catalogue: &mut [Entry],
    scratch: &mut [u64],
) -> Result<Loaded, Refusal>
    ensures { let turned = turned_away role names.load in
        (answered result ≡ load_result turned image.now map.old catalogue.old scratch.old)
        × (map.new ≡ load_map turned image.now map.old catalogue.old
        scratch.old)
        × (catalogue.new ≡ load_entries turned image.now map.old catalogue.old
        scratch.old)
        × (scratch.new ≡ load_scratch turned image.now map.old catalogue.old
        scratch.old) }
{
    let count = catalogue.len();
    let ruled = verdict(role, image, map.len(), count, scratch);
    scratch.fill(0);
    let loaded = ruled?;
    read_words(map, image, 3 + 3 * count);
    for (sheet, entry) in catalogue.iter_mut().enumerate() {
        *entry = entry_at(image, 3 + 3 * sheet);
    }
    Ok(loaded)
}
