// No code: going through the numbers below n, as definitions (specs/) and as what loops need of them (proofs/).
#![tactic(auto)]
