// Standing: answers mark, start and length.
ghost use Rattle.std.specs.Prelude.{◌≡◌, false, []};
ghost use Rattle.refusals.specs.Lent.{lent_for, no_card};
ghost use Rattle.roles.specs.Roles as names;
ghost use Rattle.refusals.specs.Effects.{standing_answer};

use catalogue_standings::Answer;
use catalogue_standings::opening::Asked;
use roles::Call;

pub fn standing(asked: Asked, map: &[u64]) -> Answer
    ensures { let q = lent_for asked names.standing false [] map.now no_card in
        result ≡ standing_answer q }
{
    match asked.enter(Call::Standing as u32, map, None) {
        Err(why) => why.answer(),
        Ok(_) => Answer::Reads(asked.entry.mark, asked.entry.start, asked.entry.length),
    }
}
