// Operations on one word of the map. Bits are counted from the most significant, as blocks are.
ghost use Rattle.std.specs.Prelude.{◌≡◌, cond, ◌&&◌, ℕ, ◌+◌, ◌<◌, ◌≤◌, leb, ltb};
ghost use Rattle.map_blocks.specs.Words;
ghost use Rattle.map_blocks.specs.Words.{bit, Mask};

pub const ONES: u64 = 0xffff_ffff_ffff_ffff;

// The word whose bits lo to hi - 1 are 1.
pub fn span(lo: u32, hi: u32) -> u64
    requires { (lo < 64) × (0 < hi) × (hi ≤ 64) }
    ensures { Mask lo hi result }
{
    (ONES >> lo) & (ONES << (64 - hi))
}

// Each bit that is 1 in m is 1 in w. With the mask of p head bits this is the prefix test of 003, section 4.1.
pub fn has_all(w: u64, m: u64) -> bool
    ensures { result ≡ Words.has_all w m }
{
    w & m == m
}

// The bits of the blocks lo to hi - 1 that lie in the word whose first block is base.
pub fn part(lo: u32, hi: u32, base: u32) -> u64
    requires { (lo < base + 64) × (base < hi) × (base ≤ 262144) }
    ensures { (j : ℕ) → j < 64 → bit result j ≡ (leb lo (base + j) && ltb (base + j) hi) }
{
    span(lo.saturating_sub(base), (hi - base).min(64))
}

// w with the bits that m has set to 1 or to 0.
pub fn set_bits(w: u64, m: u64, to: bool) -> u64
    ensures { (j : ℕ) → j < 64 → bit result j ≡ cond (bit m j) to (bit w j) }
{
    if to { w | m } else { w & !m }
}
