// The catalogue: a lent run of entries, one for each sheet number from 0 (document 01, "Shape, catalogue, blocks").
// These functions read, store and clear entries, and decide nothing: every decision is in code on an entry by value.
#![tactic(auto)]

ghost use Rattle.std.specs.Prelude.{◌≡◌, set};
ghost use Rattle.catalogue.specs.Entries.{slot_at, cleared_if};

// The mark of each standing, in ASCII: A, P, O and C. They are numbers and no enum, since an entry lies in the C program's
// memory and may have any other there.
pub const ABSENT: u32 = 0x41;

pub const PAUSED: u32 = 0x50;

pub const OPEN: u32 = 0x4f;

pub const COMPLETE: u32 = 0x43;

// A mark, a start and a length.
#[repr(C)]
#[derive(Clone, Copy)]
pub struct Entry {
    pub mark: u32,
    pub start: u32,
    pub length: u32,
}

// A sheet in the catalogue: how many entries there are, and its entry.
#[derive(Clone, Copy)]
pub struct Slot {
    pub count: usize,
    pub entry: Entry,
}

// How many entries there are, and the entry of the sheet; three zeros, which are damaged and never a pause, where the
// sheet has none.
pub fn find(catalogue: &[Entry], sheet: u32) -> Slot
    ensures { result ≡ slot_at catalogue.now sheet }
{
    let at = sheet as usize;
    let count = catalogue.len();
    if at < count {
        return Slot {
            count,
            entry: catalogue[at],
        };
    }
    let entry = Entry {
        mark: 0,
        start: 0,
        length: 0,
    };
    Slot { count, entry }
}

// Stores the entry of the sheet. Past the end nothing changes.
pub fn store(catalogue: &mut [Entry], sheet: u32, entry: Entry)
    ensures { catalogue.new ≡ set catalogue.old sheet entry }
{
    let at = sheet as usize;
    if at < catalogue.len() {
        catalogue[at] = entry;
    }
}

// Every entry becomes Absent if fresh was accepted. Else none changes.
pub fn clear_if(catalogue: &mut [Entry], accepted: bool)
    ensures { catalogue.new ≡ cleared_if catalogue.old accepted }
{
    if accepted {
        catalogue.fill(Entry {
            mark: ABSENT,
            start: 0,
            length: 0,
        });
    }
}
