// No code: libraries that break the promise, and the proofs that they do.
#![tactic(auto)]
