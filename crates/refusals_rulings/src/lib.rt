// The rulings on the calls that take blocks, reserve, accept and grow: where the blocks start, or the refusal of the call.
#![tactic(auto)]

ghost use Rattle.std.specs.Prelude.{◌≡◌, ◌+◌, ◌*◌, ◌≤◌, length, IfOk};
ghost use Rattle.map_blocks.specs.Blocks;
ghost use Rattle.refusals.specs.Lent.{lent_for, within};
ghost use Rattle.roles.specs.Roles as names;
ghost use Rattle.refusals.specs.Placement.{placed};
ghost use Rattle.catalogue_standings.specs.Refusals.{number, Follows};
ghost use Rattle.refusals.specs.Effects.{giving_verdict, adding_verdict, run_verdict, unsearched_verdict, reserve_verdict};
ghost use Rattle.refusals.specs.Effects.{reserve_start, accept_verdict, grow_verdict};

use catalogue_standings::opening::{Asked, row_of};
use catalogue_standings::{Refusal, Standing};
use refusals::{Figures, begin};
use refusals_runs::{figures_wrong, find_run, over_limit, run_is_free};
use roles::Call;

// The rows that a call which gives k blocks to an Absent sheet begins with: 21, 1, 2, 4 for the entry, 6 to 8 and 3.
fn give(
    asked: Asked,
    call: u32,
    map: &[u64],
    guided: bool,
    summary: &[u32],
    card: &[u8],
    k: u32,
) -> Result<(), Refusal>
    ensures { let q = lent_for asked call guided summary.now map.now card.now in
        Follows (giving_verdict q k) result }
{
    let stands = begin(asked, call, map, guided, summary.len(), Some(card.len()))?;
    let Standing::Absent = stands else {
        return Err(row_of(stands));
    };
    if k == 0 {
        return Err(Refusal::WrongLength);
    }
    Ok(())
}

// The same of a call that adds m blocks to an Open sheet: 21, 1, 2, 4 for the entry, 5, 6, 8 and 3. It stands beside `give`,
// since the two differ in the standing that they admit and in the verdict that each ensures.
fn add(
    asked: Asked,
    call: u32,
    map: &[u64],
    guided: bool,
    summary: &[u32],
    card: &[u8],
    m: u32,
) -> Result<(), Refusal>
    ensures { let q = lent_for asked call guided summary.now map.now card.now in
        Follows (adding_verdict q m) result }
{
    let stands = begin(asked, call, map, guided, summary.len(), Some(card.len()))?;
    let Standing::Open(_, _) = stands else {
        return Err(row_of(stands));
    };
    if m == 0 {
        return Err(Refusal::WrongLength);
    }
    Ok(())
}

// The rows of a reserve before its search: those that giving begins with, 15 and 18.
fn before_search(
    asked: Asked,
    call: u32,
    map: &[u64],
    guided: bool,
    summary: &[u32],
    card: &[u8],
    held: u64,
    limits: &[u32; 8],
    k: u32,
    figures: Figures,
) -> Result<(), Refusal>
    ensures { let q = within held limits.now (lent_for asked call guided summary.now map.now card.now) in
        Follows (unsearched_verdict q k (placed figures)) result }
{
    give(asked, call, map, guided, summary, card, k)?;
    if figures_wrong(asked.n, figures) {
        return Err(Refusal::WrongFigures);
    }
    if over_limit(limits, held, asked.sheet, k) {
        return Err(Refusal::OverShare);
    }
    Ok(())
}

// The least fit within the figures, or the refusal.
pub fn reserve_ruling(
    asked: Asked,
    call: u32,
    map: &[u64],
    guided: bool,
    summary: &[u32],
    card: &[u8],
    held: u64,
    limits: &[u32; 8],
    k: u32,
    figures: Figures,
) -> Result<u32, Refusal>
    ensures { let q = within held limits.now (lent_for asked call guided summary.now map.now card.now) in
        Follows (reserve_verdict q k (placed figures)) result
        × IfOk result (λ start. start ≡ reserve_start q k (placed figures)) }
{
    before_search(
        asked, call, map, guided, summary, card, held, limits, k, figures,
    )?;
    let Some(least) = find_run(guided, map, summary, figures, k) else {
        return Err(Refusal::NoFit);
    };
    if asked.free < k {
        return Err(Refusal::Damaged);
    }
    Ok(least)
}

// The start of a run that is asked for. It is refused with 18 if the limit is passed, as `taken` says unless all of it is free
// and inside n, and with 4 if the free count has fewer.
fn run_ruling(
    n: u32,
    free: u32,
    map: &[u64],
    start: u32,
    k: u32,
    over: bool,
    taken: Refusal,
) -> Result<u32, Refusal>
    requires { (n ≤ 262144) × (n ≤ 64 * length map.now) }
    ensures { Follows (run_verdict (number taken) over (Blocks.free map.now) n free start k) result
        × IfOk result (λ s. s ≡ start) }
{
    if over {
        return Err(Refusal::OverShare);
    }
    if !run_is_free(n, map, start, k) {
        return Err(taken);
    }
    if free < k {
        return Err(Refusal::Damaged);
    }
    Ok(start)
}

// The start that is asked for, or the refusal.
pub fn accept_ruling(
    asked: Asked,
    map: &[u64],
    guided: bool,
    summary: &[u32],
    card: &[u8],
    held: u64,
    limits: &[u32; 8],
    start: u32,
    k: u32,
) -> Result<u32, Refusal>
    ensures { let q = within held limits.now (lent_for asked names.accept guided summary.now map.now card.now) in
        Follows (accept_verdict q start k) result × IfOk result (λ s. s ≡ start) }
{
    give(asked, Call::Accept as u32, map, guided, summary, card, k)?;
    let over = over_limit(limits, held, asked.sheet, k);
    run_ruling(asked.n, asked.free, map, start, k, over, Refusal::RunTaken)
}

// The end of the extent, or the refusal.
pub fn grow_ruling(
    asked: Asked,
    map: &[u64],
    guided: bool,
    summary: &[u32],
    card: &[u8],
    held: u64,
    limits: &[u32; 8],
    m: u32,
) -> Result<u32, Refusal>
    ensures { let q = within held limits.now (lent_for asked names.grow guided summary.now map.now card.now) in
        Follows (grow_verdict q m) result × IfOk result (λ end. end ≡ asked.entry.start + asked.entry.length) }
{
    add(asked, Call::Grow as u32, map, guided, summary, card, m)?;
    let over = over_limit(limits, held, asked.sheet, m);
    let end = asked.entry.start + asked.entry.length;
    run_ruling(
        asked.n,
        asked.free,
        map,
        end,
        m,
        over,
        Refusal::NotFreeBehind,
    )
}
