// Byte slices: numbers stored in them as four bytes, the high byte first; a slice copied.
#![tactic(auto)]

ghost use Rattle.std.specs.Prelude.{◌≡◌, ◌+◌, ◌≤◌, length};
ghost use Rattle.block_bytes.specs.Numbers.{bytes4, number_at};

// Stores n.
#[tactic(auto, unfolding(crate::specs::Numbers::bytes4))]
pub fn put4(s: &mut [u8], n: u32)
    requires { length s.old ≡ 4 }
    ensures { s.new ≡ bytes4 n }
{
    copy(s, &n.to_be_bytes());
}

// The number stored from `at` on.
#[tactic(auto, unfolding(crate::specs::Numbers::number_at))]
pub fn get4(s: &[u8], at: usize) -> u32
    requires { at + 4 ≤ length s.now }
    ensures { result ≡ number_at s.now at }
{
    u32::from_be_bytes([s[at], s[at + 1], s[at + 2], s[at + 3]])
}

// Copies `from` over `to`, which is as long. A loop of its own: of std's `copy_from_slice` the compiler makes a call of
// memmove, which libblock.a would then need from outside.
pub fn copy(to: &mut [u8], from: &[u8])
    requires { length to.old ≡ length from.now }
    ensures { to.new ≡ from.now }
{
    for i in 0..from.len() {
        to[i] = from[i];
    }
}
