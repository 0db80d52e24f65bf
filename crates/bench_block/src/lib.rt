// For the benchmark: two functions over a card, to be called from C. Blocks that do not lie inside the card give 3.
#![tactic(auto)]

ghost use Rattle.std.specs.Prelude.{◌≡◌, cond, ◌+◌, ◌*◌, leb, length};
ghost use Rattle.block_seals.specs.Sealed.{blank};
ghost use Rattle.blocks_of_card.specs.Card.{block_of, zeroed};

use block_seals::BLOCK;

// Fills k blocks from b on with zeros, and gives 0.
#[unsafe(no_mangle)]
pub extern "C" fn bench_zero_blocks(card: &mut [u8], b: u32, k: u32) -> u32
    ensures { (result ≡ cond (leb (512 * (b + k)) (length card.old)) 0 3)
        × (card.new ≡ cond (leb (512 * (b + k)) (length card.old))
        (zeroed card.old b k) card.old) }
{
    if BLOCK * ((b as usize) + (k as usize)) <= card.len() {
        blocks_of_card::zero_blocks(card, b, k);
        return 0;
    }
    3
}

// Gives 1 if block b is blank, else 0.
#[unsafe(no_mangle)]
pub extern "C" fn bench_blank_block(card: &[u8], b: u32) -> u32
    ensures { result ≡ cond (leb (512 * b + 512) (length card.now))
        (cond (blank (block_of card.now b)) 1 0) 3 }
{
    if BLOCK * (b as usize) + BLOCK <= card.len() {
        if blocks_of_card::blank_block(card, b) {
            return 1;
        }
        return 0;
    }
    3
}
