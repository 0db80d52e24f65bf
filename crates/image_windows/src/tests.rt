// What `test_sound` says of a few maps, and where it and `test_state` differ: what they must answer is worked out by hand.

use crate::{test_sound, test_state};
use catalogue::{COMPLETE, Entry};

// A sheet of the two blocks 2 and 3.
const SHEET: Entry = Entry {
    mark: COMPLETE,
    start: 2,
    length: 2,
};

// Of 64 blocks, the highest bit of the word being block 0.
#[test]
fn of_64_blocks(rt: HostRuntime) {
    let all_free = [u64::MAX];
    let two_taken = [0xcfff_ffff_ffff_ffff];
    let three_taken = [0xc7ff_ffff_ffff_ffff];
    let mut scratch = [7];
    assert!(rt;
        test_sound(&all_free, &[], &mut scratch, 64, 0),
        "a fresh map"
    );
    assert_eq!(rt; scratch[0], 0, "the scratch after it");
    assert!(rt;
        test_sound(&two_taken, &[SHEET], &mut scratch, 64, 2),
        "a sheet of two blocks"
    );
    assert!(rt;
        !test_sound(&two_taken, &[SHEET], &mut scratch, 64, 3),
        "a block more than the sheet has"
    );
    assert!(rt;
        !test_sound(&three_taken, &[SHEET], &mut scratch, 64, 2),
        "block 4, which no sheet has"
    );
    assert!(rt;
        !test_sound(&all_free, &[SHEET], &mut scratch, 64, 2),
        "a sheet whose blocks are free"
    );
    scratch[0] = 7;
    assert!(rt;
        !test_sound(&two_taken, &[SHEET, SHEET], &mut scratch, 64, 4),
        "two sheets with the same blocks"
    );
    assert_eq!(rt; scratch[0], 0, "the scratch after a refusal");
}

// No blocks, with a scratch of 65 words: for `test_state` there is no window that it would be too long for.
#[test]
fn of_no_blocks(rt: HostRuntime) {
    let mut scratch = [7; 65];
    assert!(rt; !test_sound(&[], &[], &mut scratch, 0, 0), "65 words");
    assert_eq!(rt; scratch[64], 0, "the scratch after it");
    assert!(rt;
        test_state(&[], &[], &mut scratch, 0, Some(0)),
        "65 words, of a state"
    );
    assert!(rt; test_sound(&[], &[], &mut scratch[..64], 0, 0), "64 words");
}

// One block more than 66 windows have: `test_sound` looks at it, and `test_state` at the window before it once more.
#[test]
fn of_270337_blocks(rt: HostRuntime) {
    let mut map = [u64::MAX; 4225];
    let mut scratch = [0; 64];
    map[4224] = 0x8000_0000_0000_0000;
    assert!(rt;
        test_sound(&map, &[], &mut scratch, 270337, 0),
        "the last block is free"
    );
    assert!(rt;
        test_state(&map, &[], &mut scratch, 270337, Some(0)),
        "the last block is free, of a state"
    );
    map[4224] = 0;
    assert!(rt;
        !test_sound(&map, &[], &mut scratch, 270337, 0),
        "no sheet has the last block"
    );
    assert!(rt;
        test_state(&map, &[], &mut scratch, 270337, Some(0)),
        "no sheet has the last block, of a state"
    );
}
