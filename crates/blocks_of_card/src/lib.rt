// The blocks of a card (document 01, "Shape, catalogue, blocks"): block b of a lent card is its bytes 512·b to 512·b + 511,
// and the caller sees that they lie inside the card: a clause, since the card is lent to be read or to be changed, and b is any
// number.
#![tactic(auto)]

ghost use Rattle.std.specs.Prelude.{◌≡◌, ◌+◌, ◌*◌, ◌≤◌, length};
ghost use Rattle.block_seals.specs.Sealed.{sealed, blank, sound, payload_of};
ghost use Rattle.blocks_of_card.specs.Card.{block_of, with_block, zeroed};

use block::{BLOCK, PAYLOAD};

// Where the payload starts in its block.
pub const PAYLOAD_START: usize = 8;

// Seals a payload into block b.
pub fn write_block(card: &mut [u8], b: u32, sheet: u32, place: u32, payload: &[u8])
    requires { (512 * b + 512 ≤ length card.old) × (length payload.now ≡ 496) }
    ensures { card.new ≡ with_block card.old b (sealed sheet place payload.now) }
{
    let start = BLOCK * (b as usize);
    let end = start + BLOCK;
    block_seals::write_sealed(&mut card[start..end], sheet, place, payload);
}

// Fills k blocks from b on with zeros.
pub fn zero_blocks(card: &mut [u8], b: u32, k: u32)
    requires { 512 * (b + k) ≤ length card.old }
    ensures { card.new ≡ zeroed card.old b k }
{
    let start = BLOCK * (b as usize);
    let end = start + BLOCK * (k as usize);
    card[start..end].fill(0);
}

// Whether block b is blank.
pub fn blank_block(card: &[u8], b: u32) -> bool
    requires { 512 * b + 512 ≤ length card.now }
    ensures { result ≡ blank (block_of card.now b) }
{
    let start = BLOCK * (b as usize);
    let end = start + BLOCK;
    block_seals::is_blank(&card[start..end])
}

// Whether block b is sound for a sheet and a place.
pub fn sound_block(card: &[u8], b: u32, sheet: u32, place: u32) -> bool
    requires { 512 * b + 512 ≤ length card.now }
    ensures { result ≡ sound sheet place (block_of card.now b) }
{
    let start = BLOCK * (b as usize);
    let end = start + BLOCK;
    block_seals::is_sound(&card[start..end], sheet, place)
}

// Copies the payload of block b out into a buffer.
pub fn copy_payload(card: &[u8], b: u32, buffer: &mut [u8])
    requires { (512 * b + 512 ≤ length card.now) × (length buffer.old ≡ 496) }
    ensures { buffer.new ≡ payload_of (block_of card.now b) }
{
    let start = BLOCK * (b as usize) + PAYLOAD_START;
    let end = start + PAYLOAD;
    block_bytes::copy(buffer, &card[start..end]);
}
