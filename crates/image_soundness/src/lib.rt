// What a sound state is (document 01, "Saved image"), and what each entry alone says of it: it must keep the rule of its mark,
// and the lengths must make what the free count leaves of n. The map is tested in windows (crate image_windows), with a scratch
// of 64 words (document 02, (h)), to which its words are copied here.
#![tactic(auto)]

pub mod rule;
pub mod words;

ghost use Rattle.std.specs.Prelude.{◌≡◌};
ghost use Rattle.image_soundness.specs.Windows.{tally_after, tally_of};

use crate::rule::keeps_rule;
use catalogue::Entry;

// The most words of a scratch.
pub const SCRATCH: usize = 64;

// Counts an entry, where `left` blocks are left to count. An entry counts if it keeps the rule of its mark, and is no longer
// than what is left.
pub fn tally_entry(n: u32, left: u32, entry: Entry) -> Option<u32>
    ensures { result ≡ tally_after n left entry }
{
    if !keeps_rule(n, entry) {
        return None;
    }
    left.checked_sub(entry.length)
}

// Counts every entry, of so many blocks. Gives what is left of them, if every entry counts.
pub fn tally_entries(catalogue: &[Entry], n: u32, blocks: u32) -> Option<u32>
    ensures { result ≡ tally_of catalogue.now n blocks }
{
    let mut left = blocks;
    for entry in catalogue {
        left = tally_entry(n, left, *entry)?;
    }
    Some(left)
}
