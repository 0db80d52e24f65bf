// The calls on the whole card, which are lent no entry: search, survey and fresh.
#![tactic(auto)]

ghost use Rattle.std.specs.Prelude.{◌≡◌, length};
ghost use Rattle.catalogue_standings.specs.Answers.{answer_in};
ghost use Rattle.catalogue_standings.specs.Refusals.{Follows};
ghost use Rattle.roles.specs.Roles as names;
ghost use Rattle.roles.specs.Roles.{turned_away};
ghost use Rattle.call_search.specs.Answers.{search_answer, survey_answer, fresh_verdict, fresh_map};

use catalogue_standings::opening::{permit, shape_fits, sheets_fit};
use catalogue_standings::{Answer, Refusal};
use map_search::search_card;
use map_space::space;
use roles::Call;

// The least fit for k, and the space behind it.
fn least_fit(role: u32, n: u32, free: u32, map: &[u64], k: u32) -> Result<Answer, Refusal>
    ensures { answer_in result ≡ search_answer (turned_away role names.search) n free map.now k }
{
    permit(role, Call::Search as u32)?;
    if !shape_fits(n, free, map.len()) {
        return Err(Refusal::Misfit);
    }
    if k == 0 {
        return Err(Refusal::WrongLength);
    }
    let Some(start) = search_card(map, n, k) else {
        return Err(Refusal::NoFit);
    };
    Ok(Answer::Start(start, space(map, start, n)))
}

pub fn search(role: u32, n: u32, free: u32, map: &[u64], k: u32) -> Answer
    ensures { result ≡ search_answer (turned_away role names.search) n free map.now k }
{
    match least_fit(role, n, free, map, k) {
        Ok(answer) => answer,
        Err(why) => why.answer(),
    }
}

fn counted(role: u32, n: u32, free: u32, map: &[u64]) -> Result<Answer, Refusal>
    ensures { answer_in result ≡ survey_answer (turned_away role names.survey) n free map.now }
{
    permit(role, Call::Survey as u32)?;
    if !shape_fits(n, free, map.len()) {
        return Err(Refusal::Misfit);
    }
    let counts = survey::survey(map, n);
    Ok(Answer::Counted(counts.free, counts.runs, counts.longest))
}

pub fn survey(role: u32, n: u32, free: u32, map: &[u64]) -> Answer
    ensures { result ≡ survey_answer (turned_away role names.survey) n free map.now }
{
    match counted(role, n, free, map) {
        Ok(answer) => answer,
        Err(why) => why.answer(),
    }
}

// The map of a fresh card of n blocks, all free.
pub fn fresh(role: u32, n: u32, map: &mut [u64], c: usize) -> Result<(), Refusal>
    ensures { let turned = turned_away role names.fresh in
        Follows (fresh_verdict turned n (length map.old) c) result × (map.new ≡ fresh_map turned n map.old c) }
{
    permit(role, Call::Fresh as u32)?;
    if !shape_fits(n, n, map.len()) {
        return Err(Refusal::Misfit);
    }
    if !sheets_fit(c) {
        return Err(Refusal::Misfit);
    }
    map_blocks::run::fresh(map, n);
    Ok(())
}
