// No code: the checks of a call as a list, of which the first that fails answers. The definitions are in specs/, the laws in
// proofs/.
#![tactic(auto)]
