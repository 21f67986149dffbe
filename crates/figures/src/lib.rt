// No code: document 01's figures. The table is in specs/, the proof that it holds in proofs/.
#![tactic(auto)]
