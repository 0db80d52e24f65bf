// Offer: where a plain reserve would start now, and the length, by the same ruling. It changes nothing.
ghost use Rattle.std.specs.Prelude.{◌≡◌, false, []};
ghost use Rattle.refusals.specs.Lent.{lent_for, within};
ghost use Rattle.roles.specs.Roles as names;
ghost use Rattle.refusals.specs.Effects.{offer_answer};

use catalogue_standings::Answer;
use catalogue_standings::opening::Asked;
use refusals::Figures;
use refusals_rulings::reserve_ruling;
use roles::Call;

pub fn offer(asked: Asked, map: &[u64], card: &[u8], held: u64, limits: &[u32; 8], k: u32) -> Answer
    ensures { let q = within held limits.now (lent_for asked names.offer false [] map.now card.now) in
        result ≡ offer_answer q k }
{
    let figures = Figures {
        from: 0,
        before: asked.n,
        step: 1,
    };
    match reserve_ruling(
        asked,
        Call::Offer as u32,
        map,
        false,
        &[],
        card,
        held,
        limits,
        k,
        figures,
    ) {
        Err(why) => why.answer(),
        Ok(start) => Answer::Start(start, k),
    }
}
