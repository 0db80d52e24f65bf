// The entries that stand in an image. The three numbers of most entries stand together in a frame, and the next entry twelve
// bytes on; they are read without looking for the place of each.
ghost use Rattle.std.specs.Prelude.{◌≡◌, ◌+◌, ◌-◌, ◌*◌, ◌/◌, ◌%◌, ◌≤◌, min, length};
ghost use Rattle.image_frames.specs.Frames.{body_of};
ghost use Rattle.image.specs.Image.{entry_from};

use block::BLOCK;
use block_bytes::get4;
use catalogue::Entry;
use image_frames::{NUMBERS, number, place};

// The entry whose numbers stand together, from byte `at` of the image on.
pub fn entry_here(image: &[u8], at: usize) -> Entry
    requires { at + 12 ≤ length image.now }
    ensures { result ≡ entry_from image.now at }
{
    Entry {
        mark: get4(image, at),
        start: get4(image, at + 4),
        length: get4(image, at + 8),
    }
}

// The entry that stands at number k of the body, of which two frames may have a part. It stays a call: few entries do, and
// beside entry_here, in a loop, the places of its numbers would be computed for every entry.
#[inline(never)]
pub fn entry_across(image: &[u8], k: usize) -> Entry
    requires { k + 2 ≤ 18446744073709551615 }
    ensures { result ≡ entry_from (body_of image.now) (4 * k) }
{
    Entry {
        mark: number(image, k),
        start: number(image, k + 1),
        length: number(image, k + 2),
    }
}

// The entry that stands at number k of the body.
pub fn entry_at(image: &[u8], k: usize) -> Entry
    requires { k + 2 ≤ 18446744073709551615 }
    ensures { result ≡ entry_from (body_of image.now) (4 * k) }
{
    if k / NUMBERS < image.len() / BLOCK {
        if k % NUMBERS < NUMBERS - 2 {
            return entry_here(image, place(k));
        }
    }
    entry_across(image, k)
}

// How many entries, from that of a sheet on and before that of sheet c, stand whole in the frame where it begins.
pub fn together(sheet: usize, c: usize) -> usize
    requires { (sheet ≤ c) × (c ≤ 1024) }
    ensures { result ≡ min ((124 - (3 + 3 * sheet) % 124) / 3) (c - sheet) }
{
    (c - sheet).min((NUMBERS - (3 + 3 * sheet) % NUMBERS) / 3)
}
