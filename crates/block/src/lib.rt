// A single sealed block (document 01, "Shape, catalogue, blocks").
//
// A block is 512 bytes: sheet number, place in the sheet, 496 bytes of payload, and the two sums A and B. `seal` and
// `check` are for the dispenser's C program: they take slices of any length, and refuse a wrong one with 3.
#![tactic(auto)]

ghost use Rattle.std.specs.Prelude.{◌≡◌};
ghost use Rattle.block.specs.Calls.{seal_answer, after_seal, check_answer};

use block_seals::{check_holds, write_sealed};

// Bytes of a block and of a payload.
pub const BLOCK: usize = block_seals::BLOCK;

pub const PAYLOAD: usize = block_seals::PAYLOAD;

// What `seal` and `check` give for a slice of the wrong length: row 3 of document 01's table of refusals. C is
// given its number.
const WRONG_LENGTH: u32 = 3;

// Writes the sealed block of a sheet, a place and a payload, and gives 0.
#[unsafe(no_mangle)]
pub extern "C" fn seal(sheet: u32, place: u32, payload: &[u8], block: &mut [u8]) -> u32
    ensures { (result ≡ seal_answer payload.now block.old)
        × (block.new ≡ after_seal sheet place payload.now block.old) }
{
    if payload.len() != PAYLOAD {
        return WRONG_LENGTH;
    }
    if block.len() != BLOCK {
        return WRONG_LENGTH;
    }
    write_sealed(block, sheet, place, payload);
    0
}

// Gives 1 exactly if the check of the block holds, else 0.
#[unsafe(no_mangle)]
pub extern "C" fn check(block: &[u8]) -> u32
    ensures { result ≡ check_answer block.now }
{
    if block.len() != BLOCK {
        return WRONG_LENGTH;
    }
    if check_holds(block) { 1 } else { 0 }
}
