// No code: what is claimed and proved of what the roles guarantee (document 02, request (n)), for every list of public calls.
#![tactic(auto)]
