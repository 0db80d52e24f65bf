// Words of a map in groups of eight, which are passed over where nothing is to be found in them.
ghost use Rattle.std.specs.Prelude.{◌≡◌, true, ℕ, ◌+◌, ◌<◌, ◌≤◌, length, get_or};
ghost use Rattle.map_blocks.specs.Words.{has_all};

// What f tells of each of the words first to stop - 1, or-ed together: it has each bit that f has anywhere.
pub fn any_of<F: Fn(usize) -> u64>(first: usize, stop: usize, f: F) -> u64
    requires { (t : ℕ) → first ≤ t → t < stop → F.pre f t }
    ensures { (t : ℕ) → first ≤ t → t < stop → (v : ℕ) × F.post f t v × (has_all result v ≡ true) }
{
    let mut any: u64 = 0;
    for t in first..stop {
        any |= f(t);
    }
    any
}

// Past the words from first on, eight at a time, up to stop, as long as `quiet` holds of the eight. How far that is nobody
// knows beforehand, and so it is a `while`.
pub fn quiet_groups<F: Fn(usize) -> bool>(first: usize, stop: usize, quiet: F) -> usize
    requires first_le_stop { (first ≤ stop) × (stop ≤ 4096) }
    requires callable { (i : ℕ) → first ≤ i → i + 8 ≤ stop → F.pre quiet i }
    ensures lower_bound { (first ≤ result) × (result ≤ stop) }
    ensures by_index { (t : ℕ) → first ≤ t → t < result
        → (i : ℕ) × (i ≤ t) × (t < i + 8) × (first ≤ i) × (i + 8 ≤ result) × F.post quiet i true }
{
    let mut i = first;
    while 8 <= stop - i && quiet(i) {
        i += 8;
    }
    i
}

// The eight words from i on, or-ed together: 0 only where each of them is.
pub fn any_free(map: &[u64], i: usize) -> u64
    requires { (i ≤ 4096) × (i + 8 ≤ length map.now) }
    ensures { result ≡ 0 → (t : ℕ) → i ≤ t → t < i + 8 → get_or map.now t 0 ≡ 0 }
{
    any_of(i, i + 8, |t| map[t])
}

// Past the words from first on that are all taken, eight at a time, up to stop.
pub fn taken_words(map: &[u64], first: usize, stop: usize) -> usize
    requires { (first ≤ stop) × (stop ≤ 4096) × (stop ≤ length map.now) }
    ensures { (first ≤ result) × (result ≤ stop) × ((t : ℕ) → first ≤ t → t < result → get_or map.now t 0 ≡ 0) }
{
    quiet_groups(first, stop, |i| any_free(map, i) == 0)
}

// The end of the group of words that starts at word i: eight words, or fewer before stop.
pub fn group_end(i: usize, stop: usize) -> usize
    requires { (i < stop) × (stop ≤ 4096) }
    ensures { (i < result) × (result ≤ stop) }
{
    (i + 8).min(stop)
}
