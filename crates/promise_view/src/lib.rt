// No code: a store as crate `schedule` sees it, a plan and the traffic on it. The definitions are in specs/, the theorems in
// proofs/.
#![tactic(auto)]
