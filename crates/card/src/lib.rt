// The card: its shape, and every call as a method (document 01, "Shape, catalogue, blocks"): one for a sheet finds its entry,
// leaves the rest to the call on that entry by value, and stores what it hands back. A refusal changes nothing lent but a
// scratch. Each takes the role of whoever calls (document 02 (n)). Here stand those for a sheet that take no blocks, and search
// and survey; beside it those that take blocks, the dated show, those for the whole card, and the forms with a summary.
#![tactic(auto)]

pub mod dated;
mod outcomes;
pub mod reserves;
pub mod whole;
pub mod with_summary;

ghost use Rattle.std.specs.Prelude.{true, ◌≡◌};
ghost use Rattle.card.specs.Calls.{asked_by};
ghost use Rattle.card.specs.Ends.{search_end, survey_end};
ghost use Rattle.card.specs.Ends.{putEnd, complete_end, pause_end, resume_end, release_end, showEnd, standing_end};
ghost use Rattle.card.specs.Leaves.{itself, HandsBack, LeavesCard, LeavesEntries, LeavesBuffer, LeavesMapEntries};

use catalogue::Entry;
use catalogue_standings::Answer;
use catalogue_standings::opening::Asked;
use outcomes::outcome_of;

// n and the carried free count.
#[repr(C)]
#[derive(Clone, Copy)]
pub struct Shape {
    pub blocks: u32,
    pub free: u32,
}

// What a call hands back: the shape, with its changed free count, and the answer.
#[derive(Clone, Copy)]
pub struct Outcome {
    pub shape: Shape,
    pub answer: Answer,
}

impl Shape {
    // Bytes of a block and of a payload; the most blocks and sheets of a card.
    pub const BLOCK: usize = block::BLOCK;

    pub const PAYLOAD: usize = block::PAYLOAD;

    pub const BLOCKS: u32 = catalogue_standings::opening::BLOCKS;

    pub const SHEETS: usize = catalogue_standings::opening::SHEETS;

    // That the constants are document 01's numbers. It is for its contract, which holds them to that.
    pub fn constants_hold() -> bool
        ensures { result ≡ true }
    {
        if Self::BLOCK != 512 {
            return false;
        }
        if Self::PAYLOAD != 496 {
            return false;
        }
        if Self::BLOCKS != 262144 {
            return false;
        }
        Self::SHEETS == 1024
    }

    // What a call on a sheet is asked, with the entry by value.
    fn asked(self, role: u32, catalogue: &[Entry], sheet: u32) -> Asked
        ensures { result ≡ asked_by self role catalogue.now sheet }
    {
        let slot = catalogue::find(catalogue, sheet);
        Asked {
            role,
            n: self.blocks,
            free: self.free,
            sheets: slot.count,
            sheet,
            entry: slot.entry,
        }
    }

    // The least fit for k.
    pub fn search(self, role: u32, map: &[u64], k: u32) -> Outcome
        ensures { HandsBack itself (search_end self role map.now k) result }
    {
        let answer = call_search::search(role, self.blocks, self.free, map, k);
        Outcome {
            shape: self,
            answer,
        }
    }

    // Free blocks, separate runs and the longest run.
    pub fn survey(self, role: u32, map: &[u64]) -> Outcome
        ensures { HandsBack itself (survey_end self role map.now) result }
    {
        let answer = call_search::survey(role, self.blocks, self.free, map);
        Outcome {
            shape: self,
            answer,
        }
    }

    // On Open, a place becomes the payload.
    pub fn put(
        self,
        role: u32,
        map: &[u64],
        catalogue: &[Entry],
        card: &mut [u8],
        sheet: u32,
        place: u32,
        payload: &[u8],
    ) -> Outcome
        ensures { LeavesCard itself (putEnd self role map.now catalogue.now card.old
            sheet place payload.now) result card.new }
    {
        let asked = self.asked(role, catalogue, sheet);
        let answer = call_put::put::put(asked, map, card, place, payload);
        Outcome {
            shape: self,
            answer,
        }
    }

    // Open becomes Complete if every place is filled.
    pub fn complete(
        self,
        role: u32,
        map: &[u64],
        catalogue: &mut [Entry],
        card: &[u8],
        sheet: u32,
    ) -> Outcome
        ensures { LeavesEntries itself (complete_end self role map.now catalogue.old
            card.now sheet) result catalogue.new }
    {
        let asked = self.asked(role, catalogue, sheet);
        let out = call_put::complete::complete(asked, map, card);
        catalogue::store(catalogue, sheet, out.entry);
        outcome_of(self, out)
    }

    // Absent and Complete become Paused; start and length remain (document 02 (g)).
    pub fn pause(self, role: u32, map: &[u64], catalogue: &mut [Entry], sheet: u32) -> Outcome
        ensures { LeavesEntries itself (pause_end self role map.now catalogue.old sheet) result
            catalogue.new }
    {
        let asked = self.asked(role, catalogue, sheet);
        let out = call_pause::pause::pause(asked, map);
        catalogue::store(catalogue, sheet, out.entry);
        outcome_of(self, out)
    }

    // Paused with blocks becomes Complete (document 02 (g)).
    pub fn resume(self, role: u32, map: &[u64], catalogue: &mut [Entry], sheet: u32) -> Outcome
        ensures { LeavesEntries itself (resume_end self role map.now catalogue.old sheet) result
            catalogue.new }
    {
        let asked = self.asked(role, catalogue, sheet);
        let out = call_pause::resume::resume(asked, map);
        catalogue::store(catalogue, sheet, out.entry);
        outcome_of(self, out)
    }

    // Any standing but Absent becomes Absent, and its blocks free.
    pub fn release(self, role: u32, map: &mut [u64], catalogue: &mut [Entry], sheet: u32) -> Outcome
        ensures { LeavesMapEntries itself (release_end self role map.old catalogue.old sheet) result
            map.new catalogue.new }
    {
        let asked = self.asked(role, catalogue, sheet);
        let out = call_release::release(asked, map, false, &mut []);
        catalogue::store(catalogue, sheet, out.entry);
        outcome_of(self, out)
    }

    // Copies a payload of a Complete sheet.
    pub fn show(
        self,
        role: u32,
        map: &[u64],
        catalogue: &[Entry],
        card: &[u8],
        sheet: u32,
        place: u32,
        buffer: &mut [u8],
    ) -> Outcome
        ensures { LeavesBuffer itself (showEnd self role map.now catalogue.now
            card.now sheet place buffer.old) result buffer.new }
    {
        let asked = self.asked(role, catalogue, sheet);
        let answer = call_show::show::show(asked, map, card, place, buffer);
        Outcome {
            shape: self,
            answer,
        }
    }

    // Answers mark, start and length.
    pub fn standing(self, role: u32, map: &[u64], catalogue: &[Entry], sheet: u32) -> Outcome
        ensures { HandsBack itself (standing_end self role map.now catalogue.now sheet) result }
    {
        let asked = self.asked(role, catalogue, sheet);
        let answer = call_show::standing::standing(asked, map);
        Outcome {
            shape: self,
            answer,
        }
    }
}
