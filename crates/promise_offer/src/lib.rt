// No code: an accepted offer keeps what is promised to every channel, there is always room for it, and 17 is never given. The
// theorems are in proofs/.
#![tactic(auto)]
