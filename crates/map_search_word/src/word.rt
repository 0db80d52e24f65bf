// What the search asks of one word: its runs of k free blocks, and the free blocks at its end. Bits are counted from the most
// significant, as blocks are.
ghost use Rattle.std.specs.Prelude.{◌≡◌, ℕ, ◌<◌, ◌≤◌};
ghost use Rattle.map_blocks.specs.Blocks.{all};
ghost use Rattle.map_blocks.specs.Words.{bit};
ghost use Rattle.map_search_word.specs.Scan.{Tail};

// Bit j of the result is 1 where the 16 bits of w from j on are: the first four rounds of 003, section 4.2, without a
// branch between them. Shifts go left, so that a bit marks a run's start.
pub fn sixteens(w: u64) -> u64
    ensures { (j : ℕ) → bit result j ≡ all (bit w) j 16 }
{
    let twos = w & (w << 1);
    let fours = twos & (twos << 2);
    let eights = fours & (fours << 4);
    eights & (eights << 8)
}

// The rounds from runs of `have` to runs of k, each of which shifts by as much as it can. They stop where no run is left. How
// far a round goes is known only in it, so that this is a `while`.
fn rounds(runs: u64, have: u32, k: u32) -> u64
    requires { (0 < have) × (have ≤ k) × (k ≤ 64) }
    ensures { (w : ℕ) → ((j : ℕ) → bit runs j ≡ all (bit w) j have) → (j : ℕ) → bit result j ≡ all (bit w) j k }
{
    let mut g = runs;
    let mut done = have;
    while done < k {
        if g == 0 {
            return 0;
        }
        let shift = done.min(k - done);
        g = g & (g << shift);
        done += shift;
    }
    g
}

// Bit j of the result is 1 where the k bits of w from j on are (003, section 4.2).
pub fn gaps(w: u64, k: u32) -> u64
    requires { 0 < k }
    ensures { (j : ℕ) → bit result j ≡ all (bit w) j k }
{
    if 64 < k {
        return 0;
    }
    if k < 16 {
        return rounds(w, 1, k);
    }
    rounds(sixteens(w), 16, k)
}

// How many ones stand at the end of w (003, section 4.3).
pub fn tail(w: u64) -> u32
    ensures { Tail w result }
{
    (!w).trailing_zeros()
}
