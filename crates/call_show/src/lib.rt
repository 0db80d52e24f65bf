// The calls that change nothing of a card's state, for an entry by value: show, the dated show and standing.
#![tactic(auto)]

pub mod dated;
pub mod place;
pub mod show;
pub mod standing;
