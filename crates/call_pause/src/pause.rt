// Pause: Absent and Complete become Paused. Start and length remain (document 02 (g)).
ghost use Rattle.std.specs.Prelude.{◌≡◌, false, []};
ghost use Rattle.refusals.specs.Lent.{lent_for, no_card};
ghost use Rattle.roles.specs.Roles as names;
ghost use Rattle.refusals.specs.Effects.{change_out};
ghost use Rattle.refusals.specs.Table as table;

use crate::marks::Change;
use catalogue_standings::opening::Asked;
use refusals::Out;

pub fn pause(asked: Asked, map: &[u64]) -> Out
    ensures { let q = lent_for asked names.pause false [] map.now no_card in
        result ≡ change_out q table.pause }
{
    Change::Pause.make(asked, map)
}
