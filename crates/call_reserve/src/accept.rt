// Accept: Absent becomes Open at the start that is asked for, as a reserve does at the start that it finds.
ghost use Rattle.std.specs.Prelude.{◌≡◌};
ghost use Rattle.refusals.specs.Lent.{lent_for, within};
ghost use Rattle.roles.specs.Roles as names;
ghost use Rattle.refusals.specs.Effects.{accept_out, accept_map, accept_summary, accept_card};

use call_take::take;
use catalogue_standings::opening::Asked;
use refusals::{Out, refusal};
use refusals_rulings::accept_ruling;

pub fn accept(
    asked: Asked,
    map: &mut [u64],
    guided: bool,
    summary: &mut [u32],
    card: &mut [u8],
    held: u64,
    limits: &[u32; 8],
    start: u32,
    k: u32,
) -> Out
    ensures { let q = within held limits.now (lent_for asked names.accept guided summary.old map.old card.old) in
        (result ≡ accept_out q start k)
        × (map.new ≡ accept_map q start k)
        × (summary.new ≡ accept_summary q start k)
        × (card.new ≡ accept_card q start k) }
{
    match accept_ruling(asked, map, guided, summary, card, held, limits, start, k) {
        Err(why) => refusal(asked.free, asked.entry, why.number()),
        Ok(at) => take(asked.n, asked.free, map, guided, summary, card, at, k),
    }
}
