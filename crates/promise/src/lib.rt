// No code: demand 3, and that 17 is never given. specs/Promise.antt says what is promised, in document 01's words and over the
// definitions of the calls themselves; the proof is in proofs/.
#![tactic(auto)]
