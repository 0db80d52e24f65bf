// A sealed block (document 01, "Shape, catalogue, blocks"): its sums A and B, its tests, and how it is written.
//
// One whole block: bytes 0 to 3 the sheet number, 4 to 7 the place, 8 to 503 the payload, 504 to 507 A, 508 to 511 B.
#![tactic(auto)]

ghost use Rattle.std.specs.Prelude.{◌≡◌, ◌+◌, ◌*◌, length};
ghost use Rattle.block_seals.specs.Sealed.{sums, check_holds, blank, sound, front, sealed};

use block_bytes::{copy, get4, put4};

// Bytes of a block and of a payload.
pub const BLOCK: usize = 512;

pub const PAYLOAD: usize = 496;

const MODULUS: u32 = 65521;

// The sums A and B.
#[derive(Clone, Copy)]
pub struct Sums {
    pub a: u32,
    pub b: u32,
}

// The sums over the first 504 bytes of a block, reduced once, at the end, as all of it fits 32 bits. The bytes at even
// and at odd places are summed side by side, so that an addition need not wait for the one before it: after i bytes A
// is 1 + even + odd, and B is i + 2 · (evens + odds + even) + odd.
pub fn sums_of(s: &[u8]) -> Sums
    requires { length s.now ≡ 504 }
    ensures { (result.a ≡ (sums 1 0 s.now).0) × (result.b ≡ (sums 1 0 s.now).1) }
{
    let mut even: u32 = 0;
    let mut odd: u32 = 0;
    let mut evens: u32 = 0;
    let mut odds: u32 = 0;
    for i in (0..s.len()).step_by(2) {
        evens += even;
        odds += odd;
        even += u32::from(s[i]);
        odd += u32::from(s[i + 1]);
    }
    Sums {
        a: (1 + even + odd) % MODULUS,
        b: (504 + 2 * (evens + odds + even) + odd) % MODULUS,
    }
}

// Whether the stored A and B are the sums of the first 504 bytes.
#[tactic(auto, unfolding(crate::specs::Sealed::check_holds))]
pub fn check_holds(block: &[u8]) -> bool
    requires { length block.now ≡ 512 }
    ensures { result ≡ check_holds block.now }
{
    let s = sums_of(&block[0..504]);
    get4(block, 504) == s.a && get4(block, 508) == s.b
}

// Whether all bytes of a block are 0. The loop has no way out before its end, so that the compiler reads 16 bytes at a
// time: quicker than stopping at the first byte that is not 0, but for blocks that start with one.
pub fn is_blank(block: &[u8]) -> bool
    requires { length block.now ≡ 512 }
    ensures { result ≡ blank block.now }
{
    let mut all: u8 = 0;
    for i in 0..BLOCK {
        all |= block[i];
    }
    all == 0
}

// Whether a block carries a sheet and a place and its check holds.
#[tactic(auto, unfolding(crate::specs::Sealed::sound))]
pub fn is_sound(block: &[u8], sheet: u32, place: u32) -> bool
    requires { length block.now ≡ 512 }
    ensures { result ≡ sound sheet place block.now }
{
    get4(block, 0) == sheet && get4(block, 4) == place && check_holds(block)
}

// Writes the first 504 bytes of the sealed block.
fn write_front(first: &mut [u8], sheet: u32, place: u32, payload: &[u8])
    requires { (length first.old ≡ 504) × (length payload.now ≡ 496) }
    ensures { first.new ≡ front sheet place payload.now }
{
    put4(&mut first[0..4], sheet);
    put4(&mut first[4..8], place);
    copy(&mut first[8..504], payload);
}

// Writes the sealed block of a sheet, a place and a payload.
pub fn write_sealed(block: &mut [u8], sheet: u32, place: u32, payload: &[u8])
    requires { (length block.old ≡ 512) × (length payload.now ≡ 496) }
    ensures { block.new ≡ sealed sheet place payload.now }
{
    write_front(&mut block[0..504], sheet, place, payload);
    let s = sums_of(&block[0..504]);
    put4(&mut block[504..508], s.a);
    put4(&mut block[508..BLOCK], s.b);
}
