// No code: any two answers that a contract permits, each with what is then in the lent buffers, are equal. The theorems are in
// proofs/, one for each public call of each crate, in a file for each group of crates; proofs/Shapes.antt has the law.
#![tactic(auto)]
