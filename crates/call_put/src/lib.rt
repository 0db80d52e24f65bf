// The calls that fill an Open sheet, for an entry by value: put and complete.
#![tactic(auto)]

pub mod complete;
pub mod places;
pub mod put;
