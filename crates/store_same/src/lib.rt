// No code: two stores that are the same in part, and what is then the same, or still sound, in both. The laws are in proofs/.
#![tactic(auto)]
