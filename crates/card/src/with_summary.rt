// The calls on a summary beside the map, and the calls that are lent one (document 02, request j). They stand beside the calls
// without one, since C has a function for each.
ghost use Rattle.card.specs.Ends.{summary_build_end, summary_check_end, reserve_with_summary_end};
ghost use Rattle.card.specs.Ends.{reserve_placed_with_summary_end};
ghost use Rattle.card.specs.Ends.{acceptWithSummaryEnd, grow_with_summary_end, release_with_summary_end};
ghost use Rattle.card.specs.Ends.{close_with_summary_end};
ghost use Rattle.card.specs.Leaves.{itself, HandsBack, LeavesSummary, LeavesMapSummaryEntries};
ghost use Rattle.card.specs.Leaves.{LeavesMapSummaryEntriesCard, LeavesMapSummaryEntriesCardScratch};

use crate::outcomes::{outcome_of, rebuild, save_outcome};
use crate::{Outcome, Shape};
use catalogue::Entry;
use refusals::Figures;

impl Shape {
    // The summary becomes the map's own.
    pub fn summary_build(self, role: u32, map: &[u64], summary: &mut [u32]) -> Outcome
        ensures { LeavesSummary itself (summary_build_end self role map.now summary.old) result
            summary.new }
    {
        let answer = call_summary::build_summary(role, self.blocks, self.free, map, summary);
        Outcome {
            shape: self,
            answer,
        }
    }

    // Whether the summary is the map's own.
    pub fn summary_check(self, role: u32, map: &[u64], summary: &[u32]) -> Outcome
        ensures { HandsBack itself (summary_check_end self role map.now summary.now) result }
    {
        let answer = call_summary::check_summary(role, self.blocks, self.free, map, summary);
        Outcome {
            shape: self,
            answer,
        }
    }

    // Reserve, guided by the summary.
    pub fn reserve_with_summary(
        self,
        role: u32,
        map: &mut [u64],
        summary: &mut [u32],
        catalogue: &mut [Entry],
        card: &mut [u8],
        limits: &[u32; 8],
        sheet: u32,
        k: u32,
    ) -> Outcome
        ensures { LeavesMapSummaryEntriesCard itself (reserve_with_summary_end self role map.old
            summary.old catalogue.old card.old limits.now sheet k) result
            map.new summary.new catalogue.new card.new }
    {
        self.reserve_placed_with_summary(
            role,
            map,
            summary,
            catalogue,
            card,
            limits,
            sheet,
            k,
            0,
            self.blocks,
            1,
        )
    }

    // The placed reserve, guided by the summary.
    pub fn reserve_placed_with_summary(
        self,
        role: u32,
        map: &mut [u64],
        summary: &mut [u32],
        catalogue: &mut [Entry],
        card: &mut [u8],
        limits: &[u32; 8],
        sheet: u32,
        k: u32,
        from: u32,
        before: u32,
        step: u32,
    ) -> Outcome
        ensures { LeavesMapSummaryEntriesCard itself (reserve_placed_with_summary_end self role map.old
            summary.old catalogue.old card.old limits.now sheet k from before
            step) result map.new summary.new catalogue.new card.new }
    {
        let asked = self.asked(role, catalogue, sheet);
        let held = catalogue_wings::held_by(catalogue, sheet);
        let figures = Figures { from, before, step };
        let out = call_reserve::reserve::reserve(
            asked, map, true, summary, card, held, limits, k, figures,
        );
        catalogue::store(catalogue, sheet, out.entry);
        outcome_of(self, out)
    }

    // Accept, after which the summary follows the map.
    pub fn accept_with_summary(
        self,
        role: u32,
        map: &mut [u64],
        summary: &mut [u32],
        catalogue: &mut [Entry],
        card: &mut [u8],
        limits: &[u32; 8],
        sheet: u32,
        start: u32,
        k: u32,
    ) -> Outcome
        ensures { LeavesMapSummaryEntriesCard itself (acceptWithSummaryEnd self role map.old
            summary.old catalogue.old card.old limits.now sheet start k) result
            map.new summary.new catalogue.new card.new }
    {
        let asked = self.asked(role, catalogue, sheet);
        let held = catalogue_wings::held_by(catalogue, sheet);
        let out = call_reserve::accept::accept(
            asked, map, true, summary, card, held, limits, start, k,
        );
        catalogue::store(catalogue, sheet, out.entry);
        outcome_of(self, out)
    }

    // Grow, after which the summary follows the map.
    pub fn grow_with_summary(
        self,
        role: u32,
        map: &mut [u64],
        summary: &mut [u32],
        catalogue: &mut [Entry],
        card: &mut [u8],
        limits: &[u32; 8],
        sheet: u32,
        m: u32,
    ) -> Outcome
        ensures { LeavesMapSummaryEntriesCard itself (grow_with_summary_end self role map.old
            summary.old catalogue.old card.old limits.now sheet m) result
            map.new summary.new catalogue.new card.new }
    {
        let asked = self.asked(role, catalogue, sheet);
        let held = catalogue_wings::held_by(catalogue, sheet);
        let out = call_reserve::grow::grow(asked, map, true, summary, card, held, limits, m);
        catalogue::store(catalogue, sheet, out.entry);
        outcome_of(self, out)
    }

    // Release, after which the summary follows the map.
    pub fn release_with_summary(
        self,
        role: u32,
        map: &mut [u64],
        summary: &mut [u32],
        catalogue: &mut [Entry],
        sheet: u32,
    ) -> Outcome
        ensures { LeavesMapSummaryEntries itself (release_with_summary_end self role map.old
            summary.old catalogue.old sheet) result map.new summary.new
            catalogue.new }
    {
        let asked = self.asked(role, catalogue, sheet);
        let out = call_release::release(asked, map, true, summary);
        catalogue::store(catalogue, sheet, out.entry);
        outcome_of(self, out)
    }

    // Closing, after which the summary is built anew (document 02 (l)).
    pub fn close_with_summary(
        self,
        role: u32,
        map: &mut [u64],
        summary: &mut [u32],
        catalogue: &mut [Entry],
        card: &mut [u8],
        scratch: &mut [u64],
    ) -> Outcome
        ensures { LeavesMapSummaryEntriesCardScratch itself (close_with_summary_end self role map.old
            summary.old catalogue.old card.old scratch.old) result map.new
            summary.new catalogue.new card.new scratch.new }
    {
        let fits = refusals::guide_fits(true, map.len(), summary.len());
        let ended = closing::close(
            role,
            self.blocks,
            self.free,
            fits,
            map,
            catalogue,
            card,
            scratch,
        );
        rebuild(self, map, summary, ended);
        save_outcome(self, ended)
    }
}
