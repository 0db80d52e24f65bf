// Whether a state is sound (document 01, "Saved image"), with a scratch of 64 words (document 02, (h)). First each entry alone,
// as image_soundness has it. Then the map, window by window: the words of a window are copied to the scratch, and of each
// extent the part that lies there is released, which must be taken; at the end all blocks of the window below n, and no
// others, must be free.
#![tactic(auto)]

mod any_size;
#[cfg(test)]
mod tests;

ghost use Rattle.std.specs.Prelude.{◌≡◌, ◌+◌, ◌*◌, ◌/◌, ◌≤◌, ◌&&◌, true, false, length, replicate};
ghost use Rattle.image_soundness.specs.Windows.{touches, taken, part_stands, scratch_after, parts_stand, scratch_over};
ghost use Rattle.image_soundness.specs.Windows.{state_window_passes, state_windows_pass, state_tested};

use catalogue::Entry;
use image_soundness::words::copy_from;
use image_soundness::{SCRATCH, tally_entries};
use map_blocks::run::{FREE, TAKEN, all_marked, is_fresh, mark};

// The test of a map of any length. Save and closing ask `test_state`.
pub use any_size::test_sound;

// The blocks of a window.
pub const WINDOW: u32 = 4096;

// No window begins behind this block, which no card has.
const LAST: u32 = 266240;

// Whether an extent may have a part in the window that begins at block lo. Most have none, and one comparison says so of both
// ends: the start, counted back from the window's last block, is at least the length and 4095 more if the extent ends before
// the window, and a number near 2^64 if it begins behind it.
fn may_have_part(lo: u32, entry: Entry) -> bool
    ensures { result ≡ false → touches lo entry ≡ false }
{
    let low = lo as usize;
    let start = entry.start as usize;
    let blocks = entry.length as usize;
    std::num::wrapping_sub_usize(low + 4095, start) < blocks + 4095
}

// Whether the k blocks from s on lie in the scratch and are taken there.
fn is_taken(scratch: &[u64], s: u32, k: u32) -> bool
    requires { s + k ≤ 4096 }
    ensures { result ≡ taken scratch.now s k }
{
    if scratch.len() < ((s + k + 63) / 64) as usize {
        return false;
    }
    all_marked(scratch, s, k, TAKEN)
}

// Releases the part of an extent that lies in the window from block lo on, if it is taken. Gives false if it is not. It stays
// a call, so that the loops over all entries have their registers for the test that most entries end with.
#[inline(never)]
pub fn release_part(lo: u32, scratch: &mut [u64], entry: Entry) -> bool
    ensures { (result ≡ part_stands lo scratch.old entry) × (scratch.new ≡ scratch_after lo scratch.old entry) }
{
    let low = lo as usize;
    let start = entry.start as usize;
    let blocks = entry.length as usize;
    let from = start.max(low);
    let to = (start + blocks).min(low + (WINDOW as usize));
    if to <= from {
        return true;
    }
    let s = (from - low) as u32;
    let k = (to - from) as u32;
    if !is_taken(scratch, s, k) {
        return false;
    }
    mark(scratch, s, k, FREE);
    true
}

// The same, where `stand` says whether each part before it was taken. Most extents have no part there, so that this is tested
// first, and leaves a loop nothing to keep.
pub fn release_near(lo: u32, scratch: &mut [u64], entry: Entry, stand: bool) -> bool
    ensures { (result ≡ (stand && part_stands lo scratch.old entry)) × (scratch.new ≡ scratch_after lo scratch.old entry) }
{
    if !may_have_part(lo, entry) {
        return stand;
    }
    stand & release_part(lo, scratch, entry)
}

// Releases the parts of all extents, and says whether each was taken. One that is not does not end the loop: it is kept that it
// was met.
fn release_parts(catalogue: &[Entry], lo: u32, scratch: &mut [u64]) -> bool
    ensures { (result ≡ parts_stand catalogue.now lo scratch.old)
        × (scratch.new ≡ scratch_over catalogue.now lo scratch.old) }
{
    let mut stand = true;
    for entry in catalogue {
        stand = release_near(lo, scratch, *entry, stand);
    }
    stand
}

// Whether the window from block lo on is as it should be. With a scratch of over 64 words it is not.
fn test_window(map: &[u64], catalogue: &[Entry], scratch: &mut [u64], n: u32, lo: u32) -> bool
    requires { lo ≤ n }
    ensures { result ≡ state_window_passes map.now catalogue.now (length scratch.old) n lo }
{
    if SCRATCH < scratch.len() {
        return false;
    }
    copy_from(scratch, map, (lo / 64) as usize);
    let stand = release_parts(catalogue, lo, scratch);
    stand && is_fresh(scratch, n - lo)
}

// All windows, up to one that fails.
fn test_windows(map: &[u64], catalogue: &[Entry], scratch: &mut [u64], n: u32) -> bool
    ensures { result ≡ state_windows_pass map.now catalogue.now (length scratch.old) n }
{
    for i in 0..n.div_ceil(WINDOW) {
        let lo = (i * WINDOW).min(LAST);
        if !test_window(map, catalogue, scratch, n, lo) {
            return false;
        }
    }
    true
}

// The test: first each entry alone, and then the windows.
fn passes(
    map: &[u64],
    catalogue: &[Entry],
    scratch: &mut [u64],
    n: u32,
    blocks: Option<u32>,
) -> bool
    ensures { result ≡ state_tested map.now catalogue.now (length scratch.old) n blocks }
{
    let Some(blocks) = blocks else {
        return false;
    };
    if tally_entries(catalogue, n, blocks) != Some(0) {
        return false;
    }
    test_windows(map, catalogue, scratch, n)
}

// Whether a map and its entries are sound, where the entries must make so many blocks: n less the free count, or None if that
// is more than n, and then they are not. The scratch is all zeros afterwards.
pub fn test_state(
    map: &[u64],
    catalogue: &[Entry],
    scratch: &mut [u64],
    n: u32,
    blocks: Option<u32>,
) -> bool
    ensures { (result ≡ state_tested map.now catalogue.now (length scratch.old) n blocks)
        × (scratch.new ≡ replicate (length scratch.old) 0) }
{
    let sound = passes(map, catalogue, scratch, n, blocks);
    scratch.fill(0);
    sound
}
