// No code: what a slot and a wait answer. Document 01, "A slot": specs/ says which slot sends what and leaves which store and
// output, and how long nothing can be sent; the crates above work it out.
#![tactic(auto)]
