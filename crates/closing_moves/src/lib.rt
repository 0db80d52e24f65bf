// Moving blocks of a card towards block 0 (document 02 (l)): the lowest block first, so that no block is overwritten before it
// is read, where the old place and the new one overlap. Each block is read once and written once, and none that stays.
#![tactic(auto)]

ghost use Rattle.std.specs.Prelude.{◌≡◌, ◌+◌, ◌*◌, ◌≤◌, length};
ghost use Rattle.blocks_of_card.specs.Card.{block_of, with_block};
ghost use Rattle.closing_moves.specs.Moved.{moved};

use block_bytes::copy;
use block_seals::BLOCK;

// Block `to` gets the bytes of block `from`, by way of an array: std's `copy_within` goes byte by byte.
fn move_block(card: &mut [u8], to: usize, from: usize)
    requires { (512 * to + 512 ≤ length card.old) × (512 * from + 512 ≤ length card.old) }
    ensures { card.new ≡ with_block card.old to (block_of card.old from) }
{
    let mut bytes = [0u8; BLOCK];
    let start = BLOCK * from;
    copy(&mut bytes, &card[start..start + BLOCK]);
    let first = BLOCK * to;
    copy(&mut card[first..first + BLOCK], &bytes);
}

// Moves the k blocks from `from` on down to those from `to` on.
pub fn move_blocks(card: &mut [u8], to: u32, from: u32, k: u32)
    requires { (to ≤ from) × (512 * (from + k) ≤ length card.old) }
    ensures { card.new ≡ moved card.old to from k }
{
    if from == to {
        return;
    }
    let first = to as usize;
    let old = from as usize;
    for i in 0..k as usize {
        move_block(card, first + i, old + i);
    }
}
