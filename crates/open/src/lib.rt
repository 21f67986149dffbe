// Opening a channel: document 01, "Opening". First the answer is worked out, and nothing is written; then, if it is yes, the
// channel and its rows are.
#![tactic(auto)]

ghost use Rattle.std.specs.Prelude.{◌≡◌};
ghost use Rattle.open_rules.specs.Asked.{asking};
ghost use Rattle.open_rules.specs.Open.{refusal, open_answer, open_store};
ghost use Rattle.open.specs.Passed.{Passed};

use kinds::{Channel, Refusal, Route};
use open_rules::Opening;
use store::lent::{Lent, Sound};

// A refusal: 0 beside it. Inlined, each refusal would have numbers of its own on the stack of an open.
#[inline(never)]
fn refused(why: Refusal) -> Opening
    ensures { result ≡ refusal why }
{
    Opening {
        outcome: Err(why),
        responses: [0u64; Route::MOST_HOPS],
        delays: [0u64; Route::MOST_HOPS],
        reserved: [0u64; Route::MOST_HOPS],
    }
}

// The answer to an open that has passed the checks before the search: checks 8 to 10, and the numbers of each link. Behind a
// `Result`, for `?`, an opening is on the stack twice: an open then needs 2,056 bytes, more than the header names.
fn late(store: &[u64], passed: open_checks::Passed, route: &[u64]) -> Opening
    requires { Passed store.now passed route.now }
    ensures { result ≡ open_answer store.now (asking passed.asked route.now) }
{
    let asked = passed.asked;
    let way = passed.way;
    let sound = Sound::new(store);
    let mut responses = [0u64; Route::MOST_HOPS];
    if let Some(j) = open_search::responses(&sound, asked, route, &mut responses) {
        return refused(Refusal::NoResponse(j as u64));
    }
    let sum = open_shares::total(&responses, way);
    if sum > asked.d {
        return refused(Refusal::OverD);
    }
    let delays = open_shares::delays(asked, way, sum, &responses);
    let reserved = open_shares::reserved(&Lent::new(store), asked, route, &delays);
    if let Some(j) = open_shares::full_link(&sound, route, &reserved) {
        return refused(Refusal::BufferFull(j as u64));
    }
    Opening {
        outcome: Ok(passed.channel as u64),
        responses,
        delays,
        reserved,
    }
}

// The answer to an open. Nothing is written.
pub fn answer(store: &[u64], c: u64, p: u64, d: u64, b: u64, route: &[u64]) -> Opening
    ensures { result ≡ open_answer store.now (record { c = c; p = p; d = d; b = b; route = route.now }) }
{
    match open_checks::early(store, c, p, d, b, route) {
        Ok(passed) => late(store, passed, route),
        Err(why) => refused(why),
    }
}

// The public call: opens a channel, or refuses and leaves the store alone.
pub fn open(store: &mut [u64], c: u64, p: u64, d: u64, b: u64, route: &[u64]) -> Opening
    ensures value { result ≡ open_answer store.old (record { c = c; p = p; d = d; b = b; route = route.now }) }
    ensures store_after { store.new ≡ open_store store.old
        (record { c = c; p = p; d = d; b = b; route = route.now }) }
{
    let opening = answer(store, c, p, d, b, route);
    if let Ok(channel) = opening.outcome {
        let asked = Channel { c, p, d, b };
        open_write::enter(store, channel as usize, asked, route, &opening.delays);
    }
    opening
}
