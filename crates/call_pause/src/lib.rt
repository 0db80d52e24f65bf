// The calls that change the mark of an entry and are not lent the card, for an entry by value: pause and resume.
#![tactic(auto)]

pub mod marks;
pub mod pause;
pub mod resume;
