// The ledger and the claim of demand 3: what every list of calls from a fresh card answers and leaves. There is no code
// here: the definitions are in specs/, and the theorem `every_list` in proofs/Demand.antt speaks of the public calls of
// the crate card.
#![tactic(auto)]
