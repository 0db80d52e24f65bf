// The space behind a start (document 02, request b), a word at a time.
#![tactic(auto)]

ghost use Rattle.std.specs.Prelude.{◌≡◌, ◌*◌, ◌≤◌, length};
ghost use Rattle.map_blocks.specs.Blocks;
ghost use Rattle.map_blocks.specs.Blocks.{free};

// The number of free blocks from start to the next taken block or n. Where the run ends in the word of its start, that word is
// shifted to the start and its first taken block is the answer; behind it the words are looked at one after the other.
pub fn space(map: &[u64], start: u32, n: u32) -> u32
    requires { (n ≤ 262144) × (n ≤ 64 * length map.now) }
    ensures { result ≡ Blocks.space (free map.now) start n }
{
    if n <= start {
        return 0;
    }
    let first = (start / 64) as usize;
    let head = !map[first] << (start % 64);
    if head != 0 {
        return head.leading_zeros().min(n - start);
    }
    let stop = n.div_ceil(64) as usize;
    for i in first + 1..stop {
        let taken = !map[i];
        if taken != 0 {
            return ((i as u32) * 64 + taken.leading_zeros()).min(n) - start;
        }
    }
    n - start
}
