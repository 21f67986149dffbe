// The packet of a channel that goes next at a place of its route: its message and its logical time. Document 01, "A slot".
#![tactic(auto)]

ghost use Rattle.std.specs.Prelude.{◌≡◌, true, ◌%◌, ◌<◌};
ghost use Rattle.kinds.specs.Ranges.{most_hops};
ghost use Rattle.store.specs.Layout.{ring, hops_of, IsChannel};
ghost use Rattle.store.specs.Sound.{sound_of};
ghost use Rattle.slot_rules.specs.Head.{message_of, logical_of, is_held};

use store::channel::{self, Record};

// A message that was looked for: its number, counted from 1, and its place in the ring.
#[derive(Drop)]
struct Found {
    number: u64,
    place: usize,
}

// The message that goes next at place `j` of a channel's route.
fn next(channel: &Record, j: usize) -> Found
    requires j_lt_most_hops { j < most_hops }
    ensures { result
        ≡ record { number = message_of channel.now.store channel.now.x j; place = message_of channel.now.store channel.now.x j % ring } }
{
    let sent = channel.sent(j);
    let mut n = channel.messages();
    let mut at = channel::ring_place(n);
    for _ in 0..store::UNDELIVERED {
        if n == 0 {
            break;
        }
        let before = channel::place_before(at);
        if channel.end_in(before) <= sent {
            break;
        }
        n -= 1;
        at = before;
    }
    Found {
        number: n,
        place: at,
    }
}

// Its number, counted from 1.
pub fn message(channel: &Record, j: usize) -> u64
    requires j_lt_most_hops { j < most_hops }
    ensures { result ≡ message_of channel.now.store channel.now.x j }
{
    next(channel, j).number
}

// The logical time of the packet that goes next at place `j` of a channel's route, where one is held.
#[tactic(auto, using(slot_rules::proofs::Laws::Ready::ready, crate::proofs::Laws::delays_small))]
pub fn logical(channel: &Record, j: usize) -> u64
    requires sound { sound_of channel.now.store ≡ true }
    requires known { IsChannel channel.now.store channel.now.x }
    requires on_route { j < hops_of channel.now.store channel.now.x }
    requires held { is_held channel.now.store channel.now.x j ≡ true }
    ensures { result ≡ logical_of channel.now.store channel.now.x j }
{
    let found = next(channel, j);
    channel.time_in(found.place) + store_route::offset(channel, j)
}
