// Reserve: Absent becomes Open at the least fit within the figures.
ghost use Rattle.std.specs.Prelude.{◌≡◌};
ghost use Rattle.refusals.specs.Lent.{lent_for, within};
ghost use Rattle.roles.specs.Roles as names;
ghost use Rattle.refusals.specs.Placement.{placed};
ghost use Rattle.refusals.specs.Effects.{reserve_out, reserve_map, reserve_summary, reserve_card};

use call_take::take;
use catalogue_standings::opening::Asked;
use refusals::{Figures, Out, refusal};
use refusals_rulings::reserve_ruling;
use roles::Call;

pub fn reserve(
    asked: Asked,
    map: &mut [u64],
    guided: bool,
    summary: &mut [u32],
    card: &mut [u8],
    held: u64,
    limits: &[u32; 8],
    k: u32,
    figures: Figures,
) -> Out
    ensures { let q = within held limits.now (lent_for asked names.reserve guided summary.old map.old card.old) in
        (result ≡ reserve_out q k (placed figures))
        × (map.new ≡ reserve_map q k (placed figures))
        × (summary.new ≡ reserve_summary q k (placed figures))
        × (card.new ≡ reserve_card q k (placed figures)) }
{
    match reserve_ruling(
        asked,
        Call::Reserve as u32,
        map,
        guided,
        summary,
        card,
        held,
        limits,
        k,
        figures,
    ) {
        Err(why) => refusal(asked.free, asked.entry, why.number()),
        Ok(start) => take(asked.n, asked.free, map, guided, summary, card, start, k),
    }
}
