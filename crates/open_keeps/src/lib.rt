// No code: an accepted open leaves what was there as it was, and the store sound. The theorems are in proofs/.
#![tactic(auto)]
