// The rows that every call on a sheet begins with: 21, 1, 2 and 4 for the entry.
ghost use Rattle.std.specs.Prelude.{◌≡◌, true, false, MatchResult, cond, ◌&&◌, ◌*◌, ◌≤◌, eqb, length};
ghost use Rattle.map_blocks.specs.Blocks;
ghost use Rattle.map_blocks.specs.Blocks.{free};
ghost use Rattle.catalogue_standings.specs.Standings.{extent_holds, standing_of};
ghost use Rattle.catalogue_standings.specs.Limits.{shape_fits, sheets_fit, card_fits, lent_fits};
ghost use Rattle.catalogue_standings.specs.Openings;
ghost use Rattle.catalogue_standings.specs.Openings.{opened_of, opened_for, refusal_of};
ghost use Rattle.roles.specs.Roles.{turned_away};

use crate::{Refusal, Standing};
use block_seals::BLOCK;
use catalogue::{ABSENT, COMPLETE, Entry, OPEN, PAUSED};
pub use map_blocks::BLOCKS;
use map_blocks::run::{TAKEN, all_marked};
use roles::turned_away;

// The most sheets of a card.
pub const SHEETS: usize = 1024;

// Row 1 for the shape and the map's length.
#[tactic(auto, unfolding(crate::specs::Limits::shape_fits))]
pub fn shape_fits(n: u32, free: u32, maplen: usize) -> bool
    ensures { result ≡ shape_fits n free maplen }
{
    if n < 1 {
        return false;
    }
    if BLOCKS < n {
        return false;
    }
    if n < free {
        return false;
    }
    maplen == ((n + 63) / 64) as usize
}

// Row 1 for the number of sheets.
#[tactic(auto, unfolding(crate::specs::Limits::sheets_fit))]
pub fn sheets_fit(c: usize) -> bool
    ensures { result ≡ sheets_fit c }
{
    if c < 1 {
        return false;
    }
    c <= SHEETS
}

// An extent is not empty, lies inside n, and none of its blocks is free. Its loop stands once, apart from
// the calls, which have the rows before it inline (`open`).
#[inline(never)]
fn extent_holds(n: u32, map: &[u64], start: u32, blocks: u32) -> bool
    requires { (n ≤ 262144) × (n ≤ 64 * length map.now) }
    ensures { result ≡ extent_holds n (free map.now) start blocks }
{
    if blocks < 1 {
        return false;
    }
    if n < blocks {
        return false;
    }
    if n - blocks < start {
        return false;
    }
    all_marked(map, start, blocks, TAKEN)
}

// What an entry says. It is inline as `open` is.
#[inline(always)]
pub fn decode(n: u32, map: &[u64], entry: Entry) -> Standing
    requires { (n ≤ 262144) × (n ≤ 64 * length map.now) }
    ensures { result ≡ standing_of n (free map.now) entry }
{
    let mark = entry.mark;
    let start = entry.start;
    let blocks = entry.length;
    if mark == ABSENT {
        return without_extent(start, blocks, Standing::Absent);
    }
    if mark == PAUSED {
        return either_pause(n, map, start, blocks);
    }
    if mark == OPEN {
        return with_extent(n, map, start, blocks, Standing::Open(start, blocks));
    }
    if mark == COMPLETE {
        return with_extent(n, map, start, blocks, Standing::Complete(start, blocks));
    }
    Standing::Damaged
}

// A standing without an extent has start 0 and length 0.
fn without_extent(start: u32, blocks: u32, stands: Standing) -> Standing
    ensures { result ≡ cond (eqb start 0 && eqb blocks 0) stands Standing.Damaged }
{
    if start == 0 {
        if blocks == 0 {
            return stands;
        }
    }
    Standing::Damaged
}

// A pause without blocks has start 0; one with blocks an extent, which must hold.
fn either_pause(n: u32, map: &[u64], start: u32, blocks: u32) -> Standing
    requires { (n ≤ 262144) × (n ≤ 64 * length map.now) }
    ensures { result ≡ cond (eqb start 0 && eqb blocks 0) Standing.Paused
        (cond (extent_holds n (free map.now) start blocks) (Standing.PausedWith start blocks) Standing.Damaged) }
{
    if blocks == 0 {
        return without_extent(start, blocks, Standing::Paused);
    }
    with_extent(n, map, start, blocks, Standing::PausedWith(start, blocks))
}

// A standing with an extent, which must hold.
fn with_extent(n: u32, map: &[u64], start: u32, blocks: u32, stands: Standing) -> Standing
    requires { (n ≤ 262144) × (n ≤ 64 * length map.now) }
    ensures { result ≡ cond (extent_holds n (free map.now) start blocks) stands Standing.Damaged }
{
    if extent_holds(n, map, start, blocks) {
        return stands;
    }
    Standing::Damaged
}

// A sheet's standing, unless it is damaged.
fn unless_damaged(stands: Standing) -> Result<Standing, Refusal>
    ensures { result ≡ Openings.unless_damaged stands }
{
    match stands {
        Standing::Damaged => Err(Refusal::Damaged),
        other => Ok(other),
    }
}

// The row of a standing that a call does not admit.
pub fn row_of(stands: Standing) -> Refusal
    ensures { result ≡ refusal_of stands }
{
    match stands {
        Standing::Absent => Refusal::IsAbsent,
        Standing::Paused | Standing::PausedWith(_, _) => Refusal::IsPaused,
        Standing::Open(_, _) => Refusal::IsOpen,
        Standing::Complete(_, _) => Refusal::IsComplete,
        Standing::Damaged => Refusal::Damaged,
    }
}

// Who makes a call on a sheet, and of what card: the role's number; the card's blocks, and how many of them are free; the
// number of sheets, and the sheet's own number and entry.
#[derive(Clone, Copy)]
pub struct Asked {
    pub role: u32,
    pub n: u32,
    pub free: u32,
    pub sheets: usize,
    pub sheet: u32,
    pub entry: Entry,
}

impl Asked {
    // Row 1 for the card's length, of a call that is lent the card.
    fn card_fits(self, cardlen: Option<usize>) -> bool
        ensures { result ≡ card_fits self.n cardlen }
    {
        match cardlen {
            Some(bytes) => bytes == BLOCK * (self.n as usize),
            None => true,
        }
    }

    // Rows 1, 2 and 4 for the entry. It is inline, since each call then has the standing in registers, and tests of it only
    // what it asks.
    #[inline(always)]
    pub fn open(self, map: &[u64], cardlen: Option<usize>) -> Result<Standing, Refusal>
        ensures { result ≡ opened_of (lent_fits self.n self.free (length map.now) self.sheets cardlen) self.sheets
            self.sheet (standing_of self.n (Blocks.free map.now) self.entry) }
    {
        if !self.card_fits(cardlen) {
            return Err(Refusal::Misfit);
        }
        if !shape_fits(self.n, self.free, map.len()) {
            return Err(Refusal::Misfit);
        }
        if !sheets_fit(self.sheets) {
            return Err(Refusal::Misfit);
        }
        if self.sheets <= self.sheet as usize {
            return Err(Refusal::NoSuchSheet);
        }
        unless_damaged(decode(self.n, map, self.entry))
    }

    // The same rows behind 21, for the call's number (document 02 (n)), inline as they are.
    #[inline(always)]
    pub fn enter(self, call: u32, map: &[u64], cardlen: Option<usize>) -> Result<Standing, Refusal>
        ensures { result ≡ opened_for (turned_away self.role call)
            (lent_fits self.n self.free (length map.now) self.sheets cardlen) self.sheets self.sheet
            (standing_of self.n (Blocks.free map.now) self.entry) }
    {
        permit(self.role, call)?;
        self.open(map, cardlen)
    }
}

// Row 21, of one who may not make the call, whose number may be any.
pub fn permit(role: u32, call: u32) -> Result<(), Refusal>
    ensures { MatchResult result (λ u. turned_away role call ≡ false)
        (λ why. (turned_away role call ≡ true) × (why ≡ Refusal.TurnedAway)) }
{
    if turned_away(role, call) {
        return Err(Refusal::TurnedAway);
    }
    Ok(())
}
