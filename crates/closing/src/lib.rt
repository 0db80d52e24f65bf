// Closing the gaps (document 02 (l)): whether the state is sound, as save tests it, and the verdict. Then round by round: of
// the extents that start at or after the end of those that have moved, the one with the least start moves down to that end.
// There are as many rounds as entries at most, and each is one pass over them: the first that finds no extent ends them. Last
// the map: as many blocks as all extents have are taken.
#![tactic(auto)]

ghost use Rattle.std.specs.Prelude.{◌≡◌, ◌*◌, ◌<◌, ◌≤◌, length, IfSome, MatchOption};
ghost use Rattle.closing.specs.Closed.{first_taken};
ghost use Rattle.catalogue_standings.specs.Refusals.{number_in};
ghost use Rattle.roles.specs.Roles as names;
ghost use Rattle.roles.specs.Roles.{turned_away};
ghost use Rattle.closing.specs.Effects.{close_number, close_map, close_entries, close_card, close_scratch};
ghost use Rattle.closing.specs.Rounds.{found_of, nearest_of, moved_extent, round_at, round_entries, round_card, rounds_at};
ghost use Rattle.closing.specs.Rounds.{rounds_entries, rounds_card};
ghost use Rattle.closing.specs.Table.{close_fits};

use block_seals::BLOCK;
use catalogue::Entry;
use catalogue_standings::Refusal;
use closing_moves::move_blocks;
use image::limits::save_fits;
use image_windows::test_state;
use map_blocks::run::{TAKEN, fresh, mark};
use roles::Call;

// An extent that starts here is never found. No card has this block.
const BEHIND: u64 = 4294967295;

// Of the extents that start at or after `at`, where those that have moved end, the sheet of the one with the least start. Its
// start is kept beside it, since reading it from the entry that is found takes 16 % more instructions; and the test stands in
// the loop, since a function for it takes 26 % more.
fn nearest(catalogue: &[Entry], at: u32) -> Option<usize>
    ensures value { found_of catalogue.now result ≡ nearest_of catalogue.now at }
    ensures inside { IfSome result (λ sheet. sheet < length catalogue.now) }
{
    let mut nearest = None;
    let mut before = BEHIND;
    for (sheet, entry) in catalogue.iter().enumerate() {
        let start = u64::from(entry.start);
        if entry.length >= 1 && entry.start >= at && start < before {
            nearest = Some(sheet);
            before = start;
        }
    }
    nearest
}

// Moves the blocks of an extent down to `at`. Blocks outside the card, and blocks that would move up, stay.
fn move_extent(card: &mut [u8], at: u32, extent: Entry)
    ensures { card.new ≡ moved_extent card.old at extent }
{
    if extent.start < at {
        return;
    }
    if card.len() < BLOCK * ((extent.start as usize) + (extent.length as usize)) {
        return;
    }
    move_blocks(card, at, extent.start, extent.length);
}

// One round. Gives where the extents that have moved end, or None where none was left to move: such a round changes nothing.
fn close_next(catalogue: &mut [Entry], card: &mut [u8], at: u32) -> Option<u32>
    ensures { MatchOption result
        ((at ≡ round_at catalogue.old card.old at) × (catalogue.old ≡ round_entries catalogue.old card.old at)
        × (card.old ≡ round_card catalogue.old card.old at) × (catalogue.new ≡ catalogue.old) × (card.new ≡ card.old))
        (λ end. (end ≡ round_at catalogue.old card.old at) × (catalogue.new ≡ round_entries catalogue.old card.old at)
        × (card.new ≡ round_card catalogue.old card.old at)) }
{
    let Some(sheet) = nearest(&*catalogue, at) else {
        return None;
    };
    let extent = catalogue[sheet];
    move_extent(card, at, extent);
    catalogue[sheet] = Entry {
        start: at,
        ..extent
    };
    Some(at.wrapping_add(extent.length))
}

// All rounds, as many as there are entries; behind one that changed nothing no other does. Gives how many blocks all extents
// have.
fn close_rounds(catalogue: &mut [Entry], card: &mut [u8]) -> u32
    ensures { (result ≡ rounds_at catalogue.old card.old (length catalogue.old) 0)
        × (catalogue.new ≡ rounds_entries catalogue.old card.old (length catalogue.old) 0)
        × (card.new ≡ rounds_card catalogue.old card.old (length catalogue.old) 0) }
{
    let mut at = 0;
    for _ in 0..catalogue.len() {
        let Some(end) = close_next(catalogue, card, at) else {
            break;
        };
        at = end;
    }
    at
}

// Row 1.
#[tactic(auto, unfolding(crate::specs::Table::close_fits))]
fn close_fits(
    n: u32,
    free: u32,
    fits: bool,
    c: usize,
    maplen: usize,
    cardlen: usize,
    scratchlen: usize,
) -> bool
    ensures { result ≡ close_fits n free fits c maplen cardlen scratchlen }
{
    save_fits(n, free, c, maplen, scratchlen) && cardlen == BLOCK * (n as usize) && fits
}

// The rows of closing.
fn verdict(
    role: u32,
    n: u32,
    free: u32,
    fits: bool,
    map: &[u64],
    catalogue: &[Entry],
    card: &[u8],
    scratch: &mut [u64],
) -> Result<(), Refusal>
    ensures { let turned = turned_away role names.close in
        number_in result ≡ close_number turned n free fits map.now catalogue.now card.now scratch.old }
{
    if Call::Close.turned_away(role) {
        return Err(Refusal::TurnedAway);
    }
    if !close_fits(
        n,
        free,
        fits,
        catalogue.len(),
        map.len(),
        card.len(),
        scratch.len(),
    ) {
        return Err(Refusal::Misfit);
    }
    if !test_state(map, catalogue, scratch, n, n.checked_sub(free)) {
        return Err(Refusal::Damaged);
    }
    Ok(())
}

// The first h blocks become taken, and all others free.
fn close_map(map: &mut [u64], n: u32, h: u32)
    requires { (length map.old ≤ 4096) × (n ≤ 262144) × (n ≤ 64 * length map.old) × (h ≤ n) }
    ensures { map.new ≡ first_taken h n (length map.old) }
{
    fresh(map, n);
    mark(map, 0, h, TAKEN);
}

// Closes the gaps of a card, or says why not. `fits`: what else is lent, a summary, has its length. The rounds begin at block
// 0.
pub fn close(
    role: u32,
    n: u32,
    free: u32,
    fits: bool,
    map: &mut [u64],
    catalogue: &mut [Entry],
    card: &mut [u8],
    scratch: &mut [u64],
) -> Result<(), Refusal>
    ensures { let turned = turned_away role names.close in
        (number_in result ≡ close_number turned n free fits map.old catalogue.old card.old
        scratch.old)
        × (map.new ≡ close_map turned n free fits map.old catalogue.old card.old
        scratch.old)
        × (catalogue.new ≡ close_entries turned n free fits map.old catalogue.old card.old
        scratch.old)
        × (card.new ≡ close_card turned n free fits map.old catalogue.old card.old
        scratch.old)
        × (scratch.new ≡ close_scratch turned n free fits map.old catalogue.old card.old
        scratch.old) }
{
    let ruled = verdict(role, n, free, fits, &*map, &*catalogue, &*card, scratch);
    scratch.fill(0);
    ruled?;
    let last = close_rounds(catalogue, card);
    close_map(map, n, last);
    Ok(())
}
