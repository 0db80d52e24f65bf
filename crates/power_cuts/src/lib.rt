// What an older image still tells: which blocks a call may write, what the last image shows when it is loaded after the power
// has gone, and the rule by which a program saves so that this holds. There is no code here: the definitions are in specs/, and
// the theorems in proofs/ speak of the public calls of the crate card.
#![tactic(auto)]
