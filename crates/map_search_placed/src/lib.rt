// The search for a run of free blocks within three figures: from, before and step (document 02, request a). From block 0 on
// with a step of 1 it is the plain search. Below 64 the starts are masked word by word; from 64 on it goes from start to start.
#![tactic(auto)]

ghost use Rattle.std.specs.Prelude.{◌≡◌, ◌*◌, ◌<◌, ◌≤◌, length, IfSome, Some};
ghost use Rattle.map_blocks.specs.Blocks.{free, least_fit};

mod far;
mod taken;

use far::search_far;
use map_blocks::BLOCKS;
use map_search::search;
use map_search_near::search_near;
use map_search_starts::ahead;
use map_space::space;
use taken::reach;

// The first start, where it is a fit. It is looked at before anything else is worked out: where free blocks
// abound, the search is mostly over there.
fn first_start(map: &[u64], from: u32, before: u32, step: u32, k: u32) -> Option<u32>
    requires { (from < before) × (before ≤ 262144) × (before ≤ 64 * length map.now) × (0 < k) × (k ≤ before)
        × (0 < step) × (step < 64) }
    ensures { IfSome result (λ s. Some s ≡ least_fit (free map.now) from before step k) }
{
    let c = from + ahead(from, step);
    if before - k < c {
        return None;
    }
    if space(map, c, c + k) == k {
        return Some(c);
    }
    None
}

// The least fit for k within the three figures. The plain search is handed 0 as a constant, and keeps the speed that it has
// where it is called with 0 alone. Taken words before the first free block are passed over first, unless the starts are so far
// from each other that most of those words have none.
pub fn search_placed(map: &[u64], from: u32, before: u32, step: u32, k: u32) -> Option<u32>
    requires { (before ≤ 262144) × (before ≤ 64 * length map.now) × (0 < k) × (0 < step) }
    ensures { result ≡ least_fit (free map.now) from before step k }
{
    if step == 1 {
        if from == 0 {
            return search(map, 0, before, k);
        }
    }
    if before <= from {
        return None;
    }
    if before < k {
        return None;
    }
    if 512 <= step {
        return search_far(map, from, before, step.min(BLOCKS), k);
    }
    let b = reach(map, from, before)?;
    if 64 <= step {
        return search_far(map, b, before, step, k);
    }
    if let Some(start) = first_start(map, b, before, step, k) {
        return Some(start);
    }
    search_near(map, b, before, step, k)
}
