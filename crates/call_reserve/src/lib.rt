// The calls that take blocks, for an entry by value: reserve, accept and grow, and the offer, which takes none. Each does what
// its ruling says.
#![tactic(auto)]

pub mod accept;
pub mod grow;
pub mod offer;
pub mod reserve;
