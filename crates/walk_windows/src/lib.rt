// No code. Here stood the proofs that the test of soundness, chains of calls over a lent run of entries, meet their
// contracts. Today's Rattle lays out such functions by itself, and each is proved in its own crate (docs/PORT.md).
#![tactic(auto)]
