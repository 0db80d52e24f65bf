// Runs of blocks of a map, tested and marked a word at a time by masks; and the fresh map.
ghost use Rattle.std.specs.Prelude.{◌≡◌, not, cond, ℕ, ◌+◌, ◌*◌, ◌<◌, ◌≤◌, ltb, length};
ghost use Rattle.map_blocks.specs.Blocks.{all};
ghost use Rattle.map_blocks.specs.Maps.{in_state, marked, fresh_map, is_fresh};
ghost use Rattle.map_blocks.specs.Words.{bit};

use super::word::{has_all, part, set_bits};

// The two states of a block, as its bit has them: a bool, and no enum, since a block's state is its bit, as in the clauses.
pub const FREE: bool = true;

pub const TAKEN: bool = false;

// The k blocks from start on become free, or taken, and no other changes.
pub fn mark(map: &mut [u64], start: u32, k: u32, to: bool)
    requires { (start + k ≤ 262144) × (start + k ≤ 64 * length map.old) }
    ensures { map.new ≡ marked map.old start k to }
{
    let end = start + k;
    for i in start / 64..end.div_ceil(64) {
        let at = i as usize;
        map[at] = set_bits(map[at], part(start, end, i * 64), to);
    }
}

// A word, or its complement: the bits that are 1 are those of blocks in the state asked for.
fn in_state(w: u64, state: bool) -> u64
    ensures { (j : ℕ) → j < 64 → bit result j ≡ cond state (bit w j) (not (bit w j)) }
{
    if state { w } else { !w }
}

// The k blocks from start on are all free, or all taken.
pub fn all_marked(map: &[u64], start: u32, k: u32, state: bool) -> bool
    requires { (start + k ≤ 262144) × (start + k ≤ 64 * length map.now) }
    ensures { result ≡ all (in_state map.now state) start k }
{
    let end = start + k;
    for i in start / 64..end.div_ceil(64) {
        if !has_all(in_state(map[i as usize], state), part(start, end, i * 64)) {
            return false;
        }
    }
    true
}

// The word of a fresh map whose first block is base: blocks below n are free.
fn fresh_word(base: u32, n: u32) -> u64
    requires { base ≤ 262144 }
    ensures { (j : ℕ) → j < 64 → bit result j ≡ ltb (base + j) n }
{
    if n <= base {
        return 0;
    }
    part(0, n, base)
}

// The map of a fresh card of n blocks. No other call changes bits from n on.
pub fn fresh(map: &mut [u64], n: u32)
    requires { length map.old ≤ 4096 }
    ensures { map.new ≡ fresh_map n (length map.old) }
{
    for (i, word) in map.iter_mut().enumerate() {
        *word = fresh_word((i as u32) * 64, n);
    }
}

// Whether the map is that of a fresh card of n blocks.
pub fn is_fresh(map: &[u64], n: u32) -> bool
    requires { length map.now ≤ 4096 }
    ensures { result ≡ is_fresh map.now n }
{
    for (i, word) in map.iter().enumerate() {
        if *word != fresh_word((i as u32) * 64, n) {
            return false;
        }
    }
    true
}
