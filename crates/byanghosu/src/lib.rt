// What the router's control board calls, from C: numbers and lent buffers only. Crate byanghosu_c exports it.
// A call that can be refused returns the refusal number of document 01, or 0 where it ran, and a refused call writes no output
// but `place` and, of an open, the numbers per link, which are then 0; a slot gives back its sends, and its number is lent, as
// document 01 has it.
#![tactic(auto)]

ghost use Rattle.std.specs.Prelude.{◌≡◌, length};
ghost use Rattle.kinds.specs.Refusals.{number_of, place_of};
ghost use Rattle.open_rules.specs.Open.{open_answer, open_store, values_of as open_values};
ghost use Rattle.store.specs.Sound.{sound_of};
ghost use Rattle.setup.specs.SetUp.{set_up_answer, set_up_store, values_of as set_up_values};
ghost use Rattle.response.specs.Alone.{values_of, alone_on};
ghost use Rattle.offer_rules.specs.Offer.{offer_answer, offer_store, values_of as offer_values};
ghost use Rattle.slot_rules.specs.Slot.{slot_number, slot_place, slot_sent, slot_store, slot_out};
ghost use Rattle.slot_rules.specs.Idle.{idle_answer, skip_answer, skip_store, values_of as waited_values};

use kinds::{Refusal, Route};

// The place of a refusal goes where it is lent, and its number back.
fn refused(refusal: Refusal, place: &mut u64) -> u64
    ensures value { result ≡ number_of refusal }
    ensures place_after { place.new ≡ place_of refusal }
{
    *place = refusal.place();
    refusal.number()
}

// The response-time calculation by itself. `table` has C, p and delay of each row in turn, highest priority first.
pub fn byanghosu_response(
    table: &[u64],
    own: u64,
    limit: u64,
    response: &mut u64,
    trials: &mut u64,
    place: &mut u64,
) -> u64
    ensures { record {
      number = result;
      place = place.new;
      response = response.new;
      trials = trials.new;
    }
        ≡ values_of (alone_on table.now own limit) response.old trials.old }
{
    match response::response_alone(table, own, limit) {
        Ok(answer) => {
            *response = answer.response.unwrap_or(0);
            *trials = answer.trials;
            *place = 0;
            0
        }
        Err(refusal) => refused(refusal, place),
    }
}

// Network set-up in the lent store. `links` has from, to, horizon and buffer of each link in turn.
pub fn byanghosu_set_up(store: &mut [u64], links: &[u64], place: &mut u64) -> u64
    ensures place_after { record { number = result; place = place.new }
        ≡ set_up_values (set_up_answer store.old links.now) }
    ensures store_after { store.new ≡ set_up_store store.old links.now }
{
    match setup::set_up(store, links) {
        Ok(()) => {
            *place = 0;
            0
        }
        Err(refusal) => refused(refusal, place),
    }
}

// Opens a channel. `responses`, `delays` and `reserved` take the numbers of each link along the route, 0 past its end and all 0
// on a refusal; `channel` takes the channel's number where it was opened.
pub fn byanghosu_open(
    store: &mut [u64],
    c: u64,
    p: u64,
    d: u64,
    b: u64,
    route: &[u64],
    channel: &mut u64,
    responses: &mut [u64; Route::MOST_HOPS],
    delays: &mut [u64; Route::MOST_HOPS],
    reserved: &mut [u64; Route::MOST_HOPS],
    place: &mut u64,
) -> u64
    ensures reserved_after { record {
      number = result;
      place = place.new;
      channel = channel.new;
      responses = responses.new;
      delays = delays.new;
      reserved = reserved.new;
    }
        ≡ open_values (open_answer store.old (record { c = c; p = p; d = d; b = b; route = route.now }))
        channel.old }
    ensures store_after { store.new ≡ open_store store.old
        (record { c = c; p = p; d = d; b = b; route = route.now }) }
{
    let opening = open::open(store, c, p, d, b, route);
    responses.copy_from_slice(&opening.responses);
    delays.copy_from_slice(&opening.delays);
    reserved.copy_from_slice(&opening.reserved);
    match opening.outcome {
        Ok(number) => {
            *channel = number;
            *place = 0;
            0
        }
        Err(why) => refused(why, place),
    }
}

// Offers a message of so many packets. `message` takes its number, from 0, and `logical` its logical time, where it was accepted.
pub fn byanghosu_offer(
    store: &mut [u64],
    channel: u64,
    packets: u64,
    message: &mut u64,
    logical: &mut u64,
    place: &mut u64,
) -> u64
    ensures logical_after { record {
      number = result;
      place = place.new;
      message = message.new;
      logical = logical.new;
    }
        ≡ offer_values (offer_answer store.old channel packets) message.old logical.old }
    ensures store_after { store.new ≡ offer_store store.old channel packets }
{
    match offer::offer(store, channel, packets) {
        Ok(accepted) => {
            *message = accepted.message;
            *logical = accepted.time;
            *place = 0;
            0
        }
        Err(refusal) => refused(refusal, place),
    }
}

// Runs a slot and returns the number of its sends, which stand at the front of `out`, five numbers each; `number` and `place`
// take those of the refusal, or 0 and 0.
pub fn byanghosu_slot(
    store: &mut [u64],
    out: &mut [u64],
    number: &mut u64,
    place: &mut u64,
) -> usize
    ensures value { result ≡ length (slot_sent store.old (length out.old)) }
    ensures store_after { store.new ≡ slot_store store.old (length out.old) }
    ensures out_after { out.new ≡ slot_out store.old out.old }
    ensures number_after { number.new ≡ slot_number store.old (length out.old) }
    ensures place_after { place.new ≡ slot_place store.old (length out.old) }
{
    slot::run(store, out, number, place)
}

// What a wait answers, as numbers: `slots` takes how many slots where it is not refused.
fn told(waited: Result<u64, Refusal>, slots: &mut u64, place: &mut u64) -> u64
    ensures { record { number = result; place = place.new; slots = slots.new }
        ≡ waited_values waited slots.old }
{
    match waited {
        Ok(count) => {
            *slots = count;
            *place = 0;
            0
        }
        Err(refusal) => refused(refusal, place),
    }
}

// How many slots from now no link can send in, if nothing is offered.
pub fn byanghosu_idle(store: &[u64], slots: &mut u64, place: &mut u64) -> u64
    ensures { record { number = result; place = place.new; slots = slots.new }
        ≡ waited_values (idle_answer store.now) slots.old }
{
    told(slot_wait::idle(store), slots, place)
}

// Moves the clock on over such slots, `n` of them or as many as there are; `slots` takes how many.
pub fn byanghosu_skip(store: &mut [u64], n: u64, slots: &mut u64, place: &mut u64) -> u64
    ensures slots_after { record { number = result; place = place.new; slots = slots.new }
        ≡ waited_values (skip_answer store.old n) slots.old }
    ensures store_after { store.new ≡ skip_store store.old n }
{
    told(slot_wait::skip(store, n), slots, place)
}

// Whether a store is sound. Every other call asks this by itself.
pub fn byanghosu_sound(store: &[u64]) -> bool
    ensures { result ≡ sound_of store.now }
{
    sound::is_sound(store)
}
