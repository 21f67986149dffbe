// What an open answers: document 01, "Opening". specs/ says which open gives which answer and leaves which store; the crates
// above work it out.
#![tactic(auto)]

use kinds::{Refusal, Route};

// The channel's number or the refusal, and beside it the numbers of each link, along the route: all 0 on a refusal and past the
// end of the route.
#[derive(Clone, Copy)]
pub struct Opening {
    pub outcome: Result<u64, Refusal>,
    pub responses: [u64; Route::MOST_HOPS],
    pub delays: [u64; Route::MOST_HOPS],
    pub reserved: [u64; Route::MOST_HOPS],
}
