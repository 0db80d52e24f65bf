// The tests of limits and lengths that the rows of save and load make.
ghost use Rattle.std.specs.Prelude.{◌≡◌, ◌≤◌};
ghost use Rattle.image_soundness.specs.Scratch.{scratch_words};
ghost use Rattle.map_blocks.specs.Maps.{words_for};
ghost use Rattle.image.specs.Image.{frames_for};
ghost use Rattle.image.specs.Table.{save_fits, whole_blocks, head_fits, load_fits};

use block::{BLOCK, PAYLOAD};
use catalogue_standings::opening::{BLOCKS, shape_fits, sheets_fit};
use image_soundness::SCRATCH;

// The most blocks of an image.
const IMAGE_BLOCKS: usize = 91;

// The words of a map of n blocks.
pub fn words_for(n: u32) -> usize
    requires { n ≤ 262144 }
    ensures { result ≡ words_for n }
{
    ((n + 63) / 64) as usize
}

// The image blocks of n blocks and c sheets.
pub fn frames_for(n: u32, c: usize) -> usize
    requires { (n ≤ 262144) × (c ≤ 1024) }
    ensures { result ≡ frames_for n c }
{
    (12 + 12 * c + 8 * words_for(n) + PAYLOAD - 1) / PAYLOAD
}

// The words of the scratch that goes with a map: 64, or the map's if that is less.
fn scratch_words(maplen: usize) -> usize
    ensures { result ≡ scratch_words maplen }
{
    maplen.min(SCRATCH)
}

// Row 1 of save.
#[tactic(auto, unfolding(crate::specs::Table::save_fits))]
pub fn save_fits(n: u32, free: u32, c: usize, maplen: usize, scratchlen: usize) -> bool
    ensures { result ≡ save_fits n free c maplen scratchlen }
{
    shape_fits(n, free, maplen) && sheets_fit(c) && scratchlen == scratch_words(maplen)
}

// Row 12 of load: 1 to 91 whole blocks.
#[tactic(auto, unfolding(crate::specs::Table::whole_blocks))]
pub fn whole_blocks(bytes: usize) -> bool
    ensures { result ≡ whole_blocks bytes }
{
    bytes % BLOCK == 0 && bytes / BLOCK >= 1 && bytes / BLOCK <= IMAGE_BLOCKS
}

// Row 14 of load for the numbers at the head: they are within their limits, and the number of image blocks fits them.
// Test by test: words_for and frames_for ask for what the tests before them found, and behind && the proof did not have it.
pub fn head_fits(n: u32, free: u32, c: usize, total: usize) -> bool
    ensures { result ≡ head_fits n free c total }
{
    if BLOCKS < n {
        return false;
    }
    if !shape_fits(n, free, words_for(n)) {
        return false;
    }
    if !sheets_fit(c) {
        return false;
    }
    total == frames_for(n, c)
}

// Row 1 of load.
#[tactic(auto, unfolding(crate::specs::Table::load_fits))]
pub fn load_fits(n: u32, c: usize, maplen: usize, count: usize, scratchlen: usize) -> bool
    requires { n ≤ 262144 }
    ensures { result ≡ load_fits n c maplen count scratchlen }
{
    maplen == words_for(n) && count == c && scratchlen == scratch_words(words_for(n))
}
