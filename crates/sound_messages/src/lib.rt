// Whether a channel's messages are in order: those that are not delivered, from the last one back.
#![tactic(auto)]

ghost use Rattle.std.specs.Prelude.{◌≡◌, ◌+◌, ◌%◌, ◌≤◌, ◌<◌, leb};
ghost use Rattle.kinds.specs.Ranges.{most_hops, most_c, most_number};
ghost use Rattle.store.specs.Layout.{ring, c_of, p_of, hops_of, messages_of, time_of};
ghost use Rattle.store.specs.Amounts.{delivered_of};
ghost use Rattle.store.specs.Ranged.{SmallDelays};
ghost use Rattle.store.specs.Sound.{follows as follows_in, in_order, time_fits, messages_fit};

use kinds::{Channel, Route, Slot};
use store::channel::{self, Record};

// The latest time at the source that is not too large on the last link of any route.
const EARLY: u64 = Slot::MOST - (Route::MOST_HOPS as u64 - 1) * Channel::MOST_P;

// Whether the message at place `at` of the ring is at least p after the one at place `before`.
fn is_apart(channel: &Record, before: usize, at: usize) -> bool
    requires before_lt_ring { before < ring }
    requires at_lt_ring { at < ring }
    ensures { result
        ≡ leb (time_of channel.now.store channel.now.x before + p_of channel.now.store channel.now.x) (time_of channel.now.store channel.now.x at) }
{
    let p = channel.p();
    let later = channel.time_in(at);
    later >= p && channel.time_in(before) <= later - p
}

// Whether the message at place `at` of the ring has 1 to C packets, and is p after the one before it, at place `before`, if that
// is not delivered. `sent` is what is delivered.
fn follows(channel: &Record, before: usize, at: usize, sent: u64) -> bool
    requires before_lt_ring { before < ring }
    requires at_value { at ≡ (before + 1) % ring }
    requires sent_value { sent ≡ delivered_of channel.now.store channel.now.x }
    ensures { result ≡ follows_in channel.now.store channel.now.x before }
{
    let start = channel.end_in(before);
    let end = channel.end_in(at);
    start < end && end - start <= channel.c() && (start <= sent || is_apart(channel, before, at))
}

// Whether messages are in order, from message `last` back to one that is delivered: those that are not are among the `most`
// last ones.
pub fn in_order(channel: &Record, last: u64, most: u64) -> bool
    requires last_le_most_number { last ≤ most_number }
    requires bound { 1 ≤ hops_of channel.now.store channel.now.x }
    requires x_bound { hops_of channel.now.store channel.now.x ≤ most_hops }
    ensures { result ≡ in_order channel.now.store channel.now.x last most }
{
    let sent = channel.sent(channel.hops() - 1);
    // the place of message `last - back` in the ring
    let mut at = channel::ring_place(last);
    for back in 0..most {
        if channel.end_in(at) <= sent {
            return true;
        }
        let before = channel::place_before(at);
        if back == last || !follows(channel, before, at, sent) {
            return false;
        }
        at = before;
    }
    channel.end_in(at) <= sent
}

// Whether the logical time of the last message is not too large on the last link of its route. `n` are the messages. In a store
// that calls lead to it is no later than `EARLY`, and the delays are not added up.
fn time_fits(channel: &Record, n: u64) -> bool
    requires n_value { n ≡ messages_of channel.now.store channel.now.x }
    requires bound { 1 ≤ hops_of channel.now.store channel.now.x }
    requires x_bound { hops_of channel.now.store channel.now.x ≤ most_hops }
    requires small_delays { SmallDelays channel.now.store channel.now.x (hops_of channel.now.store channel.now.x) }
    ensures { result ≡ time_fits channel.now.store channel.now.x }
{
    let time = channel.time(n);
    if time <= EARLY || n == 0 {
        return true;
    }
    if !Slot::is_number(time) {
        return false;
    }
    let last = time + store_route::offset(channel, channel.hops() - 1);
    Slot::is_number(last)
}

// Whether a channel's messages are in order, and their numbers not too large.
pub fn messages_fit(channel: &Record) -> bool
    requires x_bound { c_of channel.now.store channel.now.x ≤ most_c }
    requires bound { 1 ≤ hops_of channel.now.store channel.now.x }
    requires x_bound_2 { hops_of channel.now.store channel.now.x ≤ most_hops }
    requires small_delays { SmallDelays channel.now.store channel.now.x (hops_of channel.now.store channel.now.x) }
    ensures { result ≡ messages_fit channel.now.store channel.now.x }
{
    let n = channel.messages();
    Slot::is_number(n)
        && time_fits(channel, n)
        && channel.end(n) <= channel.c() * n
        && in_order(channel, n, store::UNDELIVERED)
}
