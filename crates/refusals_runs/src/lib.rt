// What the rulings ask of a run of blocks: whether the figures for it are right, whether the wing's limit allows it, where the
// least fit is, and whether one that is asked for is free.
#![tactic(auto)]

ghost use Rattle.std.specs.Prelude.{◌≡◌, true, ◌*◌, ◌≤◌, ◌<◌, length};
ghost use Rattle.map_blocks.specs.Blocks;
ghost use Rattle.map_blocks.specs.Blocks.{fit};
ghost use Rattle.refusals.specs.Guides.{guide_fits, found_by};
ghost use Rattle.refusals.specs.Placement.{misfigured};
ghost use Rattle.refusals.specs.Shares.{over_limit};
ghost use Rattle.catalogue_wings.specs.Wings.{wing_of};

use map_blocks::run::{FREE, all_marked};
use map_search_placed::search_placed;
use refusals::Figures;
use summary_search::search_by;

// Row 15: the figures are not within a card of n blocks.
pub fn figures_wrong(n: u32, figures: Figures) -> bool
    ensures { result ≡ misfigured n figures }
{
    figures.step == 0 || figures.before <= figures.from || n < figures.before
}

// What the search of a reserve finds: by the summary that guides it, or by the map alone.
pub fn find_run(guided: bool, map: &[u64], summary: &[u32], figures: Figures, k: u32) -> Option<u32>
    requires { (length map.now ≤ 4096) × (figures.before ≤ 262144) × (figures.before ≤ 64 * length map.now)
        × (guide_fits guided summary.now (length map.now) ≡ true) × (0 < k) × (0 < figures.step) }
    ensures { result ≡ found_by guided summary.now map.now figures k }
{
    let Figures { from, before, step } = figures;
    if guided {
        return search_by(map, summary, from, before, step, k);
    }
    search_placed(map, from, before, step, k)
}

// Row 18: what the sheet's wing holds and the k blocks wanted together pass the wing's limit. The sum of the two may pass 2^64,
// and is not made.
pub fn over_limit(limits: &[u32; 8], held: u64, sheet: u32, k: u32) -> bool
    requires { sheet < 1024 }
    ensures { result ≡ over_limit limits.now (wing_of sheet) held k }
{
    let wing = (sheet / 128) as usize;
    let limit = u64::from(limits[wing]);
    let wanted = u64::from(k);
    limit < wanted || limit - wanted < held
}

// The k blocks from start on are all free and inside n. The sum of the two may pass 2^32, and is not made.
pub fn run_is_free(n: u32, map: &[u64], start: u32, k: u32) -> bool
    requires { (n ≤ 262144) × (n ≤ 64 * length map.now) }
    ensures { result ≡ fit (Blocks.free map.now) 0 n 1 k start }
{
    if n < start || n - start < k {
        return false;
    }
    all_marked(map, start, k, FREE)
}
