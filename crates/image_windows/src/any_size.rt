// The test of a map of any length: every window begins where it stands, however many there are, and a scratch of over 64
// words is too long even for no blocks.

ghost use Rattle.std.specs.Prelude.{◌≡◌, ◌≤◌, length, replicate};
ghost use Rattle.image_soundness.specs.Windows.{windows_pass, tested};

use crate::{WINDOW, test_window};
use catalogue::Entry;
use image_soundness::{SCRATCH, tally_entries};

// All windows, up to one that fails.
fn test_windows(map: &[u64], catalogue: &[Entry], scratch: &mut [u64], n: u32) -> bool
    requires { length scratch.old ≤ 64 }
    ensures { result ≡ windows_pass map.now catalogue.now (length scratch.old) n }
{
    for i in 0..n.div_ceil(WINDOW) {
        if !test_window(map, catalogue, scratch, n, i * WINDOW) {
            return false;
        }
    }
    true
}

// The test, with a scratch of 64 words at most.
fn passes(map: &[u64], catalogue: &[Entry], scratch: &mut [u64], n: u32, blocks: u32) -> bool
    ensures { result ≡ tested map.now catalogue.now (length scratch.old) n blocks }
{
    if SCRATCH < scratch.len() {
        return false;
    }
    if tally_entries(catalogue, n, blocks) != Some(0) {
        return false;
    }
    test_windows(map, catalogue, scratch, n)
}

// Whether a map and its entries are sound, where the entries must make so many blocks: n less the free count. The scratch is
// all zeros afterwards.
pub fn test_sound(
    map: &[u64],
    catalogue: &[Entry],
    scratch: &mut [u64],
    n: u32,
    blocks: u32,
) -> bool
    ensures { (result ≡ tested map.now catalogue.now (length scratch.old) n blocks)
        × (scratch.new ≡ replicate (length scratch.old) 0) }
{
    let sound = passes(map, catalogue, scratch, n, blocks);
    scratch.fill(0);
    sound
}
