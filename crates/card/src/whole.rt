// The methods for the whole card: fresh, save, close and load.
ghost use Rattle.card.specs.Ends.{fresh_end, save_end, load_end, close_end};
ghost use Rattle.card.specs.Leaves.{itself, LeavesMapEntries, LeavesScratchImage, LeavesMapEntriesScratch};
ghost use Rattle.card.specs.Leaves.{LeavesMapEntriesCardScratch};

use crate::outcomes::{load_outcome, save_outcome};
use crate::{Outcome, Shape};
use catalogue::Entry;
use catalogue_standings::Answer;

impl Shape {
    // All blocks free, all sheets Absent. It reads nothing of the shape it takes.
    pub fn fresh(self, role: u32, blocks: u32, map: &mut [u64], catalogue: &mut [Entry]) -> Outcome
        ensures { LeavesMapEntries itself (fresh_end self role blocks map.old catalogue.old) result
            map.new catalogue.new }
    {
        match call_search::fresh(role, blocks, map, catalogue.len()) {
            Err(why) => Outcome {
                shape: self,
                answer: why.answer(),
            },
            Ok(()) => {
                catalogue::clear_if(catalogue, true);
                Outcome {
                    shape: Shape {
                        blocks,
                        free: blocks,
                    },
                    answer: Answer::Done,
                }
            }
        }
    }

    // Writes the image of the state, if it is sound and the buffer exactly the image's length. Every save zeroes the scratch.
    pub fn save(
        self,
        role: u32,
        map: &[u64],
        catalogue: &[Entry],
        scratch: &mut [u64],
        image: &mut [u8],
    ) -> Outcome
        ensures { LeavesScratchImage itself (save_end self role map.now catalogue.now
            scratch.old image.old) result scratch.new image.new }
    {
        let ended = image_save::save(role, self.blocks, self.free, map, catalogue, scratch, image);
        save_outcome(self, ended)
    }

    // Moves all extents towards block 0, in order of their starts and with no block free before or between them, and the bytes
    // of their blocks along, if the state is sound (document 02 (l)). The scratch is all zeros after every closing.
    pub fn close(
        self,
        role: u32,
        map: &mut [u64],
        catalogue: &mut [Entry],
        card: &mut [u8],
        scratch: &mut [u64],
    ) -> Outcome
        ensures { LeavesMapEntriesCardScratch itself (close_end self role map.old catalogue.old
            card.old scratch.old) result map.new catalogue.new card.new
            scratch.new }
    {
        let ended = closing::close(
            role,
            self.blocks,
            self.free,
            true,
            map,
            catalogue,
            card,
            scratch,
        );
        save_outcome(self, ended)
    }

    // Reads map, entries and shape from an image, and nothing of the shape it takes. Every load leaves the scratch all zeros.
    pub fn load(
        self,
        role: u32,
        image: &[u8],
        map: &mut [u64],
        catalogue: &mut [Entry],
        scratch: &mut [u64],
    ) -> Outcome
        ensures { LeavesMapEntriesScratch itself (load_end self role image.now map.old
            catalogue.old scratch.old) result map.new catalogue.new
            scratch.new }
    {
        let loaded = image_load::load(role, image, map, catalogue, scratch);
        load_outcome(self, loaded)
    }
}
