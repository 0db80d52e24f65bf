// What reserve does at the start that it found, and accept at the one that is asked for: a sheet without blocks takes k from
// there on and becomes Open. Every block taken is filled with zeros, so that no old seal of the same sheet passes for a new
// place. The space behind the start is measured before the marking.
#![tactic(auto)]

ghost use Rattle.std.specs.Prelude.{◌≡◌, true, false, ◌+◌, ◌-◌, ◌*◌, ◌≤◌, length};
ghost use Rattle.map_blocks.specs.Blocks;
ghost use Rattle.map_blocks.specs.Maps.{marked};
ghost use Rattle.blocks_of_card.specs.Card.{zeroed};
ghost use Rattle.catalogue.specs.Entries.{open_mark};
ghost use Rattle.catalogue_standings.specs.Searches.{start_with_space};
ghost use Rattle.refusals.specs.Effects.{entry_of, out_of};
ghost use Rattle.refusals.specs.Guides.{guide_fits, guide_after};

use blocks_of_card::zero_blocks;
use catalogue::{Entry, OPEN};
use catalogue_standings::Answer;
use map_blocks::run::{TAKEN, mark};
use map_space::space;
use refusals::{Out, follow};

// The k blocks from start on are marked taken and filled with zeros. A summary that guides the call follows the map.
pub fn occupy(
    n: u32,
    map: &mut [u64],
    guided: bool,
    summary: &mut [u32],
    card: &mut [u8],
    start: u32,
    k: u32,
)
    requires { (start + k ≤ n) × (n ≤ 262144) × (length map.old ≤ 4096) × (n ≤ 64 * length map.old)
        × (guide_fits guided summary.old (length map.old) ≡ true) × (512 * n ≤ length card.old) }
    ensures { (map.new ≡ marked map.old start k false)
        × (summary.new ≡ guide_after guided summary.old (marked map.old start k false) n start k)
        × (card.new ≡ zeroed card.old start k) }
{
    mark(map, start, k, TAKEN);
    follow(guided, map, n, summary, start, k);
    zero_blocks(card, start, k);
}

// It is inline, so that a call without a summary makes no test of one.
#[inline(always)]
pub fn take(
    n: u32,
    free: u32,
    map: &mut [u64],
    guided: bool,
    summary: &mut [u32],
    card: &mut [u8],
    start: u32,
    k: u32,
) -> Out
    requires { (start + k ≤ n) × (n ≤ 262144) × (length map.old ≤ 4096) × (n ≤ 64 * length map.old)
        × (guide_fits guided summary.old (length map.old) ≡ true) × (512 * n ≤ length card.old) × (k ≤ free) }
    ensures { (result ≡ out_of (free - k) (entry_of open_mark start k) (start_with_space (Blocks.free map.old) n start))
        × (map.new ≡ marked map.old start k false)
        × (summary.new ≡ guide_after guided summary.old (marked map.old start k false) n start k)
        × (card.new ≡ zeroed card.old start k) }
{
    let behind = space(map, start, n);
    occupy(n, map, guided, summary, card, start, k);
    Out {
        free: free - k,
        entry: Entry {
            mark: OPEN,
            start: start,
            length: k,
        },
        answer: Answer::Start(start, behind),
    }
}
