// Wings: the sheets of a card in groups of 128, and how many blocks a wing holds (document 02, request k). The sum is made in
// one pass over the wing's own entries, whatever they say: a damaged one counts by its length too.
#![tactic(auto)]

ghost use Rattle.std.specs.Prelude.{◌≡◌, ◌≤◌, length};
ghost use Rattle.std.specs.List.{sum_by};
ghost use Rattle.catalogue_wings.specs.Wings.{held_by};

use catalogue::Entry;

// The sheets of a wing.
const SHEETS: u32 = 128;

// The lengths of some entries together. From the front, what is left of the slice in hand: a loop by index takes a quarter more
// instructions, and std's `sum` hands over a reference in an Option.
fn lengths(entries: &[Entry]) -> u64
    requires { length entries.now ≤ 128 }
    ensures { result ≡ sum_by (λ e. e.length) entries.now }
{
    let mut sum = 0;
    let mut rest = entries;
    while !rest.is_empty() {
        sum += u64::from(rest[0].length);
        rest = &rest[1..];
    }
    sum
}

// How many blocks the sheet's wing holds: the lengths of 128 entries, of 32 bits each, do not come near to 2^64.
pub fn held_by(catalogue: &[Entry], sheet: u32) -> u64
    ensures { result ≡ held_by catalogue.now sheet }
{
    let count = catalogue.len();
    let first = count.min((sheet / SHEETS * SHEETS) as usize);
    let end = count.min(first + SHEETS as usize);
    lengths(&catalogue[first..end])
}
