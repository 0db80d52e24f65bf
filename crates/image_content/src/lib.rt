// What stands in an image (document 01, "Saved image"): its entries, and whether its state is sound and the fill zero. Each
// entry is tested alone, and then the map in windows, as of a lent state, with the entries and the words read from the image.
#![tactic(auto)]

pub mod entries;

ghost use Rattle.std.specs.Prelude.{◌≡◌, true, ◌&&◌, ◌+◌, ◌*◌, ◌/◌, ◌≤◌, length};
ghost use Rattle.map_blocks.specs.Maps.{words_for};
ghost use Rattle.image_frames.specs.Frames.{total_of};
ghost use Rattle.image_soundness.specs.Scratch.{scratch_words};
ghost use Rattle.image_soundness.specs.Sound.{sound};
ghost use Rattle.image_soundness.specs.Windows.{tally_of, words_from, parts_stand, scratch_over, state_window_passes};
ghost use Rattle.image_soundness.specs.Windows.{state_windows_pass};
ghost use Rattle.image.specs.Image.{blocks_in, free_count_in, sheets_in, entries_from, entries_in, map_in, state_in, filled};
ghost use Rattle.image.specs.Table.{head_fits};

use crate::entries::{entry_across, entry_here, together};
use image::limits::words_for;
use image_frames::{place, read_words, zeros_from};
use image_soundness::tally_entry;
use image_windows::{WINDOW, release_near, release_part};
use map_blocks::run::is_fresh;

// Counts entries that stand one behind the other in a frame, from byte `at` of the image on.
fn tally_together(n: u32, blocks: u32, image: &[u8], at: usize, count: usize) -> Option<u32>
    requires { at + 12 * count ≤ length image.now }
    ensures { result ≡ tally_of (entries_from image.now at count) n blocks }
{
    let mut left = blocks;
    for i in 0..count {
        left = tally_entry(n, left, entry_here(image, at + 12 * i))?;
    }
    Some(left)
}

// Counts the c entries that stand in an image: frame by frame, and the entry across two frames apart.
fn tally_in(n: u32, blocks: u32, image: &[u8], c: usize) -> Option<u32>
    requires { (c ≤ 1024) × (3 + 3 * c ≤ 124 * total_of image.now) }
    ensures { result ≡ tally_of (entries_in image.now c) n blocks }
{
    let mut left = blocks;
    let mut sheet: usize = 0;
    while sheet < c {
        let count = together(sheet, c);
        left = tally_together(n, left, image, place(3 + 3 * sheet), count)?;
        sheet += count;
        if c <= sheet {
            break;
        }
        left = tally_entry(n, left, entry_across(image, 3 + 3 * sheet))?;
        sheet += 1;
    }
    Some(left)
}

// Copies the words of the window from block lo on to the scratch, of the map of n blocks that stands behind c entries.
fn fill_in(image: &[u8], n: u32, c: usize, lo: u32, scratch: &mut [u64])
    requires { (n ≤ 262144) × (c ≤ 1024) × (length scratch.old ≤ 64) }
    ensures { scratch.new ≡ words_from (map_in image.now n c) (lo / 64) (length scratch.old) }
{
    let words = words_for(n);
    let a = words.min((lo / 64) as usize);
    let w = scratch.len().min(words - a);
    scratch.fill(0);
    read_words(&mut scratch[..w], image, 3 + 3 * c + 2 * a);
}

// Releases the parts of extents whose entries stand one behind the other in a frame, from byte `at` of the image on. This is
// the loop that a load goes through most: every entry, once for each window. A part that is not taken does not end it.
fn release_together(lo: u32, scratch: &mut [u64], image: &[u8], at: usize, count: usize) -> bool
    requires { at + 12 * count ≤ length image.now }
    ensures { (result ≡ parts_stand (entries_from image.now at count) lo scratch.old)
        × (scratch.new ≡ scratch_over (entries_from image.now at count) lo scratch.old) }
{
    let mut stand = true;
    for i in 0..count {
        stand = release_near(lo, scratch, entry_here(image, at + 12 * i), stand);
    }
    stand
}

// Releases the parts of the c extents that stand in an image: frame by frame, as they are counted.
fn release_in(lo: u32, scratch: &mut [u64], image: &[u8], c: usize) -> bool
    requires { (c ≤ 1024) × (3 + 3 * c ≤ 124 * total_of image.now) }
    ensures { (result ≡ parts_stand (entries_in image.now c) lo scratch.old)
        × (scratch.new ≡ scratch_over (entries_in image.now c) lo scratch.old) }
{
    let mut stand = true;
    let mut sheet: usize = 0;
    while sheet < c {
        let count = together(sheet, c);
        stand &= release_together(lo, scratch, image, place(3 + 3 * sheet), count);
        sheet += count;
        if c <= sheet {
            break;
        }
        stand &= release_part(lo, scratch, entry_across(image, 3 + 3 * sheet));
        sheet += 1;
    }
    stand
}

// Whether the window from block lo on is as it should be. It and the loop over windows are as those of a lent state (crate
// image_windows): a trait over the two sources would have more lines than these have.
fn test_window(image: &[u8], n: u32, c: usize, lo: u32, scratch: &mut [u64]) -> bool
    requires { (lo ≤ n) × (n ≤ 262144) × (c ≤ 1024) × (3 + 3 * c ≤ 124 * total_of image.now) × (length scratch.old ≤ 64) }
    ensures { result ≡ state_window_passes (map_in image.now n c) (entries_in image.now c) (length scratch.old) n lo }
{
    fill_in(image, n, c, lo, scratch);
    let stand = release_in(lo, scratch, image, c);
    stand && is_fresh(scratch, n - lo)
}

// All windows, up to one that fails.
fn test_windows(image: &[u8], n: u32, c: usize, scratch: &mut [u64]) -> bool
    requires { (n ≤ 262144) × (c ≤ 1024) × (3 + 3 * c ≤ 124 * total_of image.now) × (length scratch.old ≤ 64) }
    ensures { result ≡ state_windows_pass (map_in image.now n c) (entries_in image.now c) (length scratch.old) n }
{
    for i in 0..n.div_ceil(WINDOW) {
        if !test_window(image, n, c, i * WINDOW, scratch) {
            return false;
        }
    }
    true
}

// Whether the state that stands in an image is sound and the fill zero.
pub fn content_holds(image: &[u8], n: u32, free: u32, c: usize, scratch: &mut [u64]) -> bool
    requires { (n ≡ blocks_in image.now) × (free ≡ free_count_in image.now) × (c ≡ sheets_in image.now)
        × (head_fits n free c (total_of image.now) ≡ true)
        × (length scratch.old ≡ scratch_words (words_for n)) × (length image.now ≤ 46592) }
    ensures { result ≡ (sound (state_in image.now) && filled image.now (blocks_in image.now)
        (sheets_in image.now)) }
{
    if tally_in(n, n - free, image, c) != Some(0) {
        return false;
    }
    if !test_windows(image, n, c, scratch) {
        return false;
    }
    zeros_from(image, 3 + 3 * c + 2 * words_for(n))
}
