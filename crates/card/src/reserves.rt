// The methods that take blocks, or would: reserve, plain and placed, offer, accept and grow.
ghost use Rattle.card.specs.Ends.{reserve_end, reservePlacedEnd, offer_end, accept_end, grow_end};
ghost use Rattle.card.specs.Leaves.{itself, HandsBack, LeavesMapEntriesCard};

use crate::outcomes::outcome_of;
use crate::{Outcome, Shape};
use catalogue::Entry;
use refusals::Figures;

impl Shape {
    // Absent becomes Open at the least fit, with k blank places.
    pub fn reserve(
        self,
        role: u32,
        map: &mut [u64],
        catalogue: &mut [Entry],
        card: &mut [u8],
        limits: &[u32; 8],
        sheet: u32,
        k: u32,
    ) -> Outcome
        ensures { LeavesMapEntriesCard itself (reserve_end self role map.old catalogue.old
            card.old limits.now sheet k) result map.new catalogue.new
            card.new }
    {
        self.reserve_placed(
            role,
            map,
            catalogue,
            card,
            limits,
            sheet,
            k,
            0,
            self.blocks,
            1,
        )
    }

    // The same at the least fit within three figures: it starts at or after `from`, ends at or before `before`, and starts on a
    // multiple of `step` (document 02, request a).
    pub fn reserve_placed(
        self,
        role: u32,
        map: &mut [u64],
        catalogue: &mut [Entry],
        card: &mut [u8],
        limits: &[u32; 8],
        sheet: u32,
        k: u32,
        from: u32,
        before: u32,
        step: u32,
    ) -> Outcome
        ensures { LeavesMapEntriesCard itself (reservePlacedEnd self role map.old catalogue.old
            card.old limits.now sheet k from before step) result map.new catalogue.new
            card.new }
    {
        let asked = self.asked(role, catalogue, sheet);
        let held = catalogue_wings::held_by(catalogue, sheet);
        let figures = Figures { from, before, step };
        let out = call_reserve::reserve::reserve(
            asked,
            map,
            false,
            &mut [],
            card,
            held,
            limits,
            k,
            figures,
        );
        catalogue::store(catalogue, sheet, out.entry);
        outcome_of(self, out)
    }

    // Answers where a plain reserve would start now, and the length; it changes nothing (document 02, request f).
    pub fn offer(
        self,
        role: u32,
        map: &[u64],
        catalogue: &[Entry],
        card: &[u8],
        limits: &[u32; 8],
        sheet: u32,
        k: u32,
    ) -> Outcome
        ensures { HandsBack itself (offer_end self role map.now catalogue.now
            card.now limits.now sheet k) result }
    {
        let asked = self.asked(role, catalogue, sheet);
        let held = catalogue_wings::held_by(catalogue, sheet);
        let answer = call_reserve::offer::offer(asked, map, card, held, limits, k);
        Outcome {
            shape: self,
            answer,
        }
    }

    // Absent becomes Open at the start that is asked for, if the run there is all free (document 02, request f).
    pub fn accept(
        self,
        role: u32,
        map: &mut [u64],
        catalogue: &mut [Entry],
        card: &mut [u8],
        limits: &[u32; 8],
        sheet: u32,
        start: u32,
        k: u32,
    ) -> Outcome
        ensures { LeavesMapEntriesCard itself (accept_end self role map.old catalogue.old
            card.old limits.now sheet start k) result map.new catalogue.new
            card.new }
    {
        let asked = self.asked(role, catalogue, sheet);
        let held = catalogue_wings::held_by(catalogue, sheet);
        let out = call_reserve::accept::accept(
            asked,
            map,
            false,
            &mut [],
            card,
            held,
            limits,
            start,
            k,
        );
        catalogue::store(catalogue, sheet, out.entry);
        outcome_of(self, out)
    }

    // The m blocks after an Open extent are added as blank places.
    pub fn grow(
        self,
        role: u32,
        map: &mut [u64],
        catalogue: &mut [Entry],
        card: &mut [u8],
        limits: &[u32; 8],
        sheet: u32,
        m: u32,
    ) -> Outcome
        ensures { LeavesMapEntriesCard itself (grow_end self role map.old catalogue.old
            card.old limits.now sheet m) result map.new catalogue.new
            card.new }
    {
        let asked = self.asked(role, catalogue, sheet);
        let held = catalogue_wings::held_by(catalogue, sheet);
        let out = call_reserve::grow::grow(asked, map, false, &mut [], card, held, limits, m);
        catalogue::store(catalogue, sheet, out.entry);
        outcome_of(self, out)
    }
}
