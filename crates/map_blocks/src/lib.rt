// The map of a card, one bit to a block: marked and tested a word at a time (document 01, "Map and search"). The crate
// `map_search` searches it. That a map has the words of n blocks each function asks for in a clause, and no type has it as its
// invariant: the map is lent apart from n, to some calls to be read and to others to be changed, so that two types would be
// made of the two and taken apart again at each call, and the bounds are two comparisons.
#![tactic(auto)]

pub mod run;
pub mod word;

// The most blocks of a card. It is `Shape`'s constant (crate card), and stands here because the search needs it too.
pub const BLOCKS: u32 = 262144;
