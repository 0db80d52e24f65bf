// The dated show (document 02 (m)).
ghost use Rattle.card.specs.Ends.{show_dated_end};
ghost use Rattle.card.specs.Leaves.{itself, LeavesBuffer};

use crate::{Outcome, Shape};
use catalogue::Entry;

impl Shape {
    // Copies a payload of a Complete sheet, on a day of its term (document 02 (m)).
    pub fn show_dated(
        self,
        role: u32,
        map: &[u64],
        catalogue: &[Entry],
        card: &[u8],
        sheet: u32,
        place: u32,
        year: u32,
        month: u32,
        day: u32,
        buffer: &mut [u8],
    ) -> Outcome
        ensures { LeavesBuffer itself (show_dated_end self role map.now catalogue.now
            card.now sheet place year month day buffer.old) result buffer.new }
    {
        let asked = self.asked(role, catalogue, sheet);
        let answer = call_show::dated::show_dated(
            asked, map, card, place, year, month, day, buffer,
        );
        Outcome {
            shape: self,
            answer,
        }
    }
}
