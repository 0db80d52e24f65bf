// Save (document 01, "Saved image"): the verdict, with whether the state is sound, and then the image from its head to its
// fill. Everything is validated before the first byte of the image is written, so that a refusal changes nothing but the
// scratch.
#![tactic(auto)]

ghost use Rattle.std.specs.Prelude.{◌≡◌, ◌+◌, ◌*◌, ◌≤◌, length};
ghost use Rattle.map_blocks.specs.Maps.{words_for};
ghost use Rattle.block_bytes.specs.Numbers.{bytes4};
ghost use Rattle.block_bytes.specs.Replaced.{replaced};
ghost use Rattle.roles.specs.Roles as names;
ghost use Rattle.roles.specs.Roles.{turned_away};
ghost use Rattle.catalogue_standings.specs.Refusals.{number_in};
ghost use Rattle.image_frames.specs.Numbers.{with_number};
ghost use Rattle.image.specs.Effects.{save_number, save_scratch, save_image};
ghost use Rattle.image.specs.Image.{frames_for, image_of};

use block::BLOCK;
use block_bytes::put4;
use catalogue::Entry;
use catalogue_standings::Refusal;
use image::limits::{frames_for, save_fits};
use image_frames::{NUMBERS, place, put_number, put_zeros, seal_all, write_words};
use image_windows::test_state;
use roles::Call;

// The rows of save.
fn verdict(
    role: u32,
    n: u32,
    free: u32,
    map: &[u64],
    catalogue: &[Entry],
    scratch: &mut [u64],
    image: &[u8],
) -> Result<(), Refusal>
    ensures { let turned = turned_away role names.save in
        number_in result ≡ save_number turned n free map.now catalogue.now scratch.old image.now }
{
    if Call::Save.turned_away(role) {
        return Err(Refusal::TurnedAway);
    }
    let count = catalogue.len();
    if !save_fits(n, free, count, map.len(), scratch.len()) {
        return Err(Refusal::Misfit);
    }
    if !test_state(map, catalogue, scratch, n, n.checked_sub(free)) {
        return Err(Refusal::Damaged);
    }
    if image.len() != BLOCK * frames_for(n, count) {
        return Err(Refusal::ImageLength);
    }
    Ok(())
}

// Stores a number from byte `at` of the image on.
fn put_here(image: &mut [u8], at: usize, number: u32)
    requires { at + 4 ≤ length image.old }
    ensures { image.new ≡ replaced image.old at (bytes4 number) }
{
    let end = at + 4;
    put4(&mut image[at..end], number);
}

// Writes an entry from number k of the body on: mark, start and length. Where they stand together in a frame, as those of most
// entries do, the place of the first gives the others.
fn write_entry(image: &mut [u8], k: usize, entry: Entry)
    requires { k ≤ 4096 }
    ensures { image.new ≡ with_number (with_number (with_number image.old k entry.mark) (k + 1) entry.start) (k + 2)
        entry.length }
{
    if k / NUMBERS < image.len() / BLOCK {
        if k % NUMBERS < NUMBERS - 2 {
            let at = place(k);
            put_here(image, at, entry.mark);
            put_here(image, at + 4, entry.start);
            put_here(image, at + 8, entry.length);
            return;
        }
    }
    put_number(image, k, entry.mark);
    put_number(image, k + 1, entry.start);
    put_number(image, k + 2, entry.length);
}

// Writes n, free count and c, behind them the entries, the words and the fill, and seals the frames.
fn write_image(n: u32, free: u32, map: &[u64], catalogue: &[Entry], image: &mut [u8])
    requires { (n ≤ 262144) × (length catalogue.now ≤ 1024) × (length map.now ≡ words_for n)
        × (length image.old ≡ 512 * frames_for n (length catalogue.now)) }
    ensures { image.new ≡ image_of (record { blocks = n; spare = free; entries = catalogue.now; map = map.now }) }
{
    put_number(image, 0, n);
    put_number(image, 1, free);
    put_number(image, 2, catalogue.len() as u32);
    for (sheet, entry) in catalogue.iter().enumerate() {
        write_entry(image, 3 + 3 * sheet, *entry);
    }
    let words = 3 + 3 * catalogue.len();
    write_words(image, words, map);
    put_zeros(image, words + 2 * map.len());
    seal_all(image);
}

// Saves a state, or says why not.
pub fn save(
    role: u32,
    n: u32,
    free: u32,
    map: &[u64],
    catalogue: &[Entry],
    scratch: &mut [u64],
    image: &mut [u8],
) -> Result<(), Refusal>
    ensures { let turned = turned_away role names.save in
        (number_in result ≡ save_number turned n free map.now catalogue.now scratch.old
        image.old)
        × (scratch.new ≡ save_scratch turned n free map.now catalogue.now scratch.old
        image.old)
        × (image.new ≡ save_image turned n free map.now catalogue.now scratch.old
        image.old) }
{
    let ruled = verdict(role, n, free, map, catalogue, scratch, &*image);
    scratch.fill(0);
    ruled?;
    write_image(n, free, map, catalogue, image);
    Ok(())
}
