// No code: what a slot leaves as it was, and when the store that it leaves is sound. The theorems are in proofs/.
#![tactic(auto)]
