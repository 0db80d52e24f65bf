// No code: general laws of tests and of order, which are about no card.
#![tactic(auto)]
