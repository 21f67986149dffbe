// Offering a message: document 01, "Offering". First the answer is worked out, and nothing is written; then, if it is yes, the
// message is.
#![tactic(auto)]

ghost use Rattle.std.specs.Prelude.{◌≡◌, true, ◌≤◌};
ghost use Rattle.kinds.specs.Ranges.{within};
ghost use Rattle.store.specs.Layout.{c_of, messages_of, IsChannel};
ghost use Rattle.store.specs.Sound.{sound_of};
ghost use Rattle.offer_rules.specs.Offer.{offer_time, in_burst, offered, offer_answer, offer_store};
ghost use Rattle.offer_keeps.specs.Room.{takes_message};

use kinds::{Refusal, Slot};
use offer_rules::Accepted;
use store::channel;
use store::channel::Record;
use store::lent::Sound;

// 12: whether a message has 1 to C packets.
fn is_message(channel: &Record, packets: u64) -> bool
    ensures { result ≡ within 1 (c_of channel.now.store channel.now.x) packets }
{
    (1..=channel.c()).contains(&packets)
}

// The logical time of the next message: the present slot, or p after the last message if that is later.
#[tactic(auto, using(crate::proofs::Facts::offer_ready))]
fn next_time(store: &Sound, x: usize) -> u64
    requires { IsChannel store.now x }
    ensures { result ≡ offer_time store.now x }
{
    let clock = store.clock();
    let channel = store.channel(x);
    let n = channel.messages();
    if n == 0 {
        return clock;
    }
    let after = channel.time(n) + channel.p();
    clock.max(after)
}

// 13: whether a message at that time is within the burst.
#[tactic(auto, using(crate::proofs::Facts::offer_ready))]
fn in_burst(store: &Sound, x: usize, time: u64) -> bool
    requires known { IsChannel store.now x }
    requires time { time ≡ offer_time store.now x }
    ensures { result ≡ in_burst store.now x }
{
    let channel = store.channel(x);
    let ahead = time - store.clock();
    ahead <= (channel.b() - 1) * channel.p()
}

// 17, looked at last: whether one message more may be counted and kept, and its packets held.
#[tactic(auto, using(crate::proofs::Facts::offer_ready))]
fn takes_message(store: &Sound, x: usize, packets: u64) -> bool
    requires known { IsChannel store.now x }
    requires most { packets ≤ c_of store.now x }
    ensures { result ≡ takes_message store.now x packets }
{
    let channel = store.channel(x);
    let n = channel.messages();
    Slot::is_number(n + 1)
        && (sound_messages::in_order(&channel, n, store::UNDELIVERED - 1)
            && store_route::held(&channel, 0) + packets <= store_route::reserved(&channel, 0))
}

// The answer to an offer. Nothing is written.
#[tactic(auto, using(slot_rules::proofs::Laws::Ready::ready, crate::proofs::Outcome::room_is), unfolding(offer_rules::specs::Offer::offer_answer, checks::specs::Checks::first_failed))]
fn answer(store: &[u64], number: u64, packets: u64) -> Result<Accepted, Refusal>
    ensures { result ≡ offer_answer store.now number packets }
{
    let sound = sound::check(store).ok_or(Refusal::NotSound)?;
    let clock = sound.clock();
    let channels = sound.channels() as u64;
    let ended = clock >= Slot::END;
    if ended {
        return Err(Refusal::EndSlot);
    }
    let unknown = number >= channels;
    if unknown {
        return Err(Refusal::NoChannel);
    }
    let x = number as usize;
    let channel = sound.channel(x);
    if !is_message(&channel, packets) {
        return Err(Refusal::MessageLength);
    }
    let time = next_time(&sound, x);
    if !in_burst(&sound, x, time) {
        return Err(Refusal::Burst);
    }
    if !takes_message(&sound, x, packets) {
        return Err(Refusal::NotSound);
    }
    Ok(Accepted {
        message: channel.messages(),
        time,
    })
}

// What an accepted message writes: its logical time, its end, and that there is one message more.
#[tactic(auto, using(crate::proofs::Facts::offer_ready), unfolding(offer_rules::specs::Offer::offered))]
fn put_message(store: &mut [u64], x: usize, accepted: Accepted, packets: u64)
    requires sound { sound_of store.old ≡ true }
    requires known { IsChannel store.old x }
    requires most { packets ≤ c_of store.old x }
    requires message { accepted.message ≡ messages_of store.old x }
    requires time { accepted.time ≡ offer_time store.old x }
    ensures { store.new ≡ offered store.old x packets }
{
    let end = Record::new(store, x).end(accepted.message) + packets;
    let new = accepted.message + 1;
    channel::put_time(store, x, new, accepted.time);
    channel::put_end(store, x, new, end);
    channel::put_messages(store, x, new);
}

// The public call: accepts a message, or refuses it and leaves the store alone.
pub fn offer(store: &mut [u64], number: u64, packets: u64) -> Result<Accepted, Refusal>
    ensures value { result ≡ offer_answer store.old number packets }
    ensures store_after { store.new ≡ offer_store store.old number packets }
{
    let answer = answer(store, number, packets);
    if let Ok(accepted) = answer {
        put_message(store, number as usize, accepted, packets);
    }
    answer
}
