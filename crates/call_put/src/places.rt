// What the places of an Open sheet hold, for complete: one answer for all of them, block by block.
ghost use Rattle.std.specs.Prelude.{◌≡◌, true, false, ◌||◌, ◌+◌, ◌*◌, ◌≤◌, length, MatchResult};
ghost use Rattle.map_blocks.specs.Blocks.{all, least};
ghost use Rattle.blocks_of_card.specs.Card.{block_of};
ghost use Rattle.block_seals.specs.Sealed.{blank, sound};

use blocks_of_card::{blank_block, sound_block};
use catalogue_standings::Refusal;

// The lowest blank place of the extent, or none if each has a payload; or 4, if some block is neither blank nor sound. A blank
// block fails the test for a sound one at its first bytes, so that a block is read once, or nearly.
pub fn look(card: &[u8], start: u32, blocks: u32, sheet: u32) -> Result<Option<u32>, Refusal>
    requires { (start + blocks ≤ 262144) × (512 * (start + blocks) ≤ length card.now) }
    ensures { MatchResult result
        (λ lowest. (all (λ p. blank (block_of card.now (start + p)) || sound sheet p (block_of card.now (start + p))) 0 blocks
        ≡ true) × (lowest ≡ least (λ p. blank (block_of card.now (start + p))) 0 blocks))
        (λ why. (all (λ p. blank (block_of card.now (start + p)) || sound sheet p (block_of card.now (start + p))) 0 blocks
        ≡ false) × (why ≡ Refusal.Damaged)) }
{
    let mut lowest = None;
    for place in 0..blocks {
        let b = start + place;
        if !sound_block(card, b, sheet, place) {
            if !blank_block(card, b) {
                return Err(Refusal::Damaged);
            }
            lowest = lowest.or(Some(place));
        }
    }
    Ok(lowest)
}
