// The search from start to start, for starts that are far from each other.
ghost use Rattle.std.specs.Prelude.{◌≡◌, true, false, ℕ, ◌+◌, ◌*◌, ◌%◌, ◌<◌, ◌≤◌, length};
ghost use Rattle.map_blocks.specs.Blocks.{free, all, on_step, least_fit};
ghost use Rattle.map_search_starts.specs.Starts.{NoRun};

use map_search::groups::taken_words;
use map_search_starts::ahead;
use map_space::space;

// From the start c on to one that is not in the words, all taken, from that of c on. It is tried only where several
// of eight words have a start.
fn past_taken(map: &[u64], c: u32, before: u32, step: u32) -> u32
    requires { (c < before) × (before ≤ 262144) × (before ≤ 64 * length map.now) × (0 < step) × (step ≤ 262144)
        × (c % step ≡ 0) }
    ensures { (c ≤ result) × (result ≤ 524288) × (result % step ≡ 0)
        × ((t : ℕ) → c ≤ t → t < result → on_step step t ≡ true → free map.now t ≡ false) }
{
    if 512 <= step {
        return c;
    }
    let first = (c / 64) as usize;
    let i = taken_words(map, first, (before / 64) as usize);
    if i == first {
        return c;
    }
    let b = (i as u32) * 64;
    b + ahead(b, step)
}

// How far behind a start the next is that lies behind the r free blocks from it on and the taken one after them.
fn past_run(r: u32, step: u32) -> u32
    requires { (r ≤ 262144) × (0 < step) × (step ≤ 262144) }
    ensures { (r < result) × (result ≤ r + step) × (result % step ≡ 0)
        × ((t : ℕ) → r < t → t < result → on_step step t ≡ false) }
{
    if r < step {
        return step;
    }
    r + 1 + ahead(r + 1, step)
}

// The first start from c on whose own block is free, or the first behind stop: which that is only a `while` knows at its end.
fn open_start(map: &[u64], c: u32, stop: u32, step: u32) -> u32
    requires { (c ≤ stop) × (stop < 262144) × (stop < 64 * length map.now) × (0 < step) × (step ≤ 262144)
        × (c % step ≡ 0) }
    ensures { (c ≤ result) × (result ≤ stop + step) × (result % step ≡ 0)
        × ((t : ℕ) → c ≤ t → t < result → on_step step t ≡ true → free map.now t ≡ false) }
{
    let mut s = c;
    while s <= stop {
        if (map[(s / 64) as usize] >> (63 - s % 64)) % 2 == 1 {
            break;
        }
        s += step;
    }
    s
}

// The first start from c to stop with k free blocks from it on; where there is none, a start behind stop, and none before that.
fn some_starts(map: &[u64], c: u32, stop: u32, step: u32, k: u32) -> u32
    requires { (c ≤ stop) × (stop + k ≤ 262144) × (stop + k ≤ 64 * length map.now) × (0 < k) × (0 < step) × (step ≤ 262144)
        × (c % step ≡ 0) }
    ensures { (c ≤ result) × (result ≤ 524288) × (result % step ≡ 0) × NoRun (on_step step) (free map.now) k c result
        × (result ≤ stop → all (free map.now) result k ≡ true) }
{
    let mut s = c;
    while s <= stop {
        let a = open_start(map, s, stop, step);
        if stop < a {
            return a;
        }
        let r = space(map, a, a + k);
        if r == k {
            return a;
        }
        s = a + past_run(r, step);
    }
    s
}

// The least fit for k: from start to start, eight at a time; after each eight, words that are all taken are
// passed over.
pub fn search_far(map: &[u64], from: u32, before: u32, step: u32, k: u32) -> Option<u32>
    requires { (from < before) × (before ≤ 262144) × (before ≤ 64 * length map.now) × (0 < k) × (k ≤ before)
        × (0 < step) × (step ≤ 262144) }
    ensures { result ≡ least_fit (free map.now) from before step k }
{
    let last = before - k;
    let mut c = from + ahead(from, step);
    while c <= last {
        let stop = last.min(c + 7 * step);
        let s = some_starts(map, c, stop, step, k);
        if s <= stop {
            return Some(s);
        }
        if last < s {
            return None;
        }
        c = past_taken(map, s, before, step);
    }
    None
}
