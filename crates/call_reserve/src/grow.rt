// Grow: the m blocks after an Open extent are added, taken and filled with zeros.
ghost use Rattle.std.specs.Prelude.{◌≡◌};
ghost use Rattle.refusals.specs.Lent.{lent_for, within};
ghost use Rattle.roles.specs.Roles as names;
ghost use Rattle.refusals.specs.Effects.{grow_out, grow_map, grow_summary, grow_card};

use call_take::occupy;
use catalogue::{Entry, OPEN};
use catalogue_standings::Answer;
use catalogue_standings::opening::Asked;
use refusals::{Out, refusal};
use refusals_rulings::grow_ruling;

pub fn grow(
    asked: Asked,
    map: &mut [u64],
    guided: bool,
    summary: &mut [u32],
    card: &mut [u8],
    held: u64,
    limits: &[u32; 8],
    m: u32,
) -> Out
    ensures { let q = within held limits.now (lent_for asked names.grow guided summary.old map.old card.old) in
        (result ≡ grow_out q m)
        × (map.new ≡ grow_map q m)
        × (summary.new ≡ grow_summary q m)
        × (card.new ≡ grow_card q m) }
{
    match grow_ruling(asked, map, guided, summary, card, held, limits, m) {
        Err(why) => refusal(asked.free, asked.entry, why.number()),
        Ok(end) => {
            occupy(asked.n, map, guided, summary, card, end, m);
            Out {
                free: asked.free - m,
                entry: Entry {
                    mark: OPEN,
                    start: asked.entry.start,
                    length: asked.entry.length + m,
                },
                answer: Answer::Done,
            }
        }
    }
}
