// No code: what set-up and an accepted open do to the plan and the traffic that crate `promise_view` sees in a store. The
// theorems are in proofs/.
#![tactic(auto)]
