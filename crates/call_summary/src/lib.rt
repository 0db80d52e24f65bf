// The calls that are lent a map and a summary alone: a summary is built, or held against the map (document 02, request j).
#![tactic(auto)]

ghost use Rattle.std.specs.Prelude.{false, ◌≡◌};
ghost use Rattle.roles.specs.Roles as names;
ghost use Rattle.roles.specs.Roles.{turned_away};
ghost use Rattle.call_summary.specs.Answers.{summary_fits, build_answer, built_summary, check_answer};

use catalogue_standings::opening::shape_fits;
use catalogue_standings::{Answer, Refusal};
use roles::Call;
use summary::{check, summary_len};
use summary_write::build;

// Row 1 for the shape, the map's length and the summary's.
fn summary_fits(n: u32, free: u32, maplen: usize, summarylen: usize) -> bool
    ensures { result ≡ summary_fits n free maplen summarylen }
{
    if !shape_fits(n, free, maplen) {
        return false;
    }
    summarylen == summary_len(maplen)
}

// The summary of the map, built anew. It asks nobody's role: a closing ends with it, for whoever may close.
pub fn rebuild_summary(n: u32, free: u32, map: &[u64], summary: &mut [u32]) -> Answer
    ensures { (result ≡ build_answer false n free map.now summary.old)
        × (summary.new ≡ built_summary false n free map.now summary.old) }
{
    if !summary_fits(n, free, map.len(), summary.len()) {
        return Refusal::Misfit.answer();
    }
    build(map, n, summary);
    Answer::Done
}

// The call of that.
pub fn build_summary(role: u32, n: u32, free: u32, map: &[u64], summary: &mut [u32]) -> Answer
    ensures { let turned = turned_away role names.build_summary in
        (result ≡ build_answer turned n free map.now summary.old)
        × (summary.new ≡ built_summary turned n free map.now summary.old) }
{
    if Call::BuildSummary.turned_away(role) {
        return Refusal::TurnedAway.answer();
    }
    rebuild_summary(n, free, map, summary)
}

// Whether the summary is the map's own.
pub fn check_summary(role: u32, n: u32, free: u32, map: &[u64], summary: &[u32]) -> Answer
    ensures { let turned = turned_away role names.check_summary in
        result ≡ check_answer turned n free map.now summary.now }
{
    if Call::CheckSummary.turned_away(role) {
        return Refusal::TurnedAway.answer();
    }
    if !summary_fits(n, free, map.len(), summary.len()) {
        return Refusal::Misfit.answer();
    }
    if check(map, n, summary) {
        return Answer::Own(1);
    }
    Answer::Own(0)
}
