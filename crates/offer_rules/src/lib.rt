// What an accepted offer answers: document 01, "Offering". specs/ says which offer gives which answer and leaves which store;
// crate `offer` works it out.
#![tactic(auto)]

// The message's number, from 0, and its logical time.
#[derive(Clone, Copy, Debug, PartialEq, Eq)]
pub struct Accepted {
    pub message: u64,
    pub time: u64,
}
