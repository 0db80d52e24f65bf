// Sealed blocks for C: libblock.a (include/block.h). The crate block is a library for other crates and so no static library;
// each function here is the one of its name there, with the same clauses.
#![tactic(auto)]

ghost use Rattle.std.specs.Prelude.{◌≡◌};
ghost use Rattle.block.specs.Calls.{seal_answer, after_seal, check_answer};

// Writes the sealed block of a sheet, a place and a payload, and gives 0.
#[unsafe(no_mangle)]
pub extern "C" fn seal(sheet: u32, place: u32, payload: &[u8], block: &mut [u8]) -> u32
    ensures { (result ≡ seal_answer payload.now block.old)
        × (block.new ≡ after_seal sheet place payload.now block.old) }
{
    block::seal(sheet, place, payload, block)
}

// Gives 1 exactly if the check of the block holds, else 0.
#[unsafe(no_mangle)]
pub extern "C" fn check(block: &[u8]) -> u32
    ensures { result ≡ check_answer block.now }
{
    block::check(block)
}
