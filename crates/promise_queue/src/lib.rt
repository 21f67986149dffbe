// No code: a channel's messages and packets by number, how many can be about at one time, and which is next. The definitions are
// in specs/, the theorems in proofs/.
#![tactic(auto)]
