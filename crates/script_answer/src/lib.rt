// What a line of a running room does, and what it writes into the listing.
#![tactic(auto)]

ghost use Rattle.std.specs.Prelude.{◌≡◌, ◌+◌, ◌≤◌, length};
ghost use Rattle.text_decimal.specs.Put.{put_at};
ghost use Rattle.open_rules.specs.Open.{open_answer, open_store};
ghost use Rattle.offer_rules.specs.Offer.{offer_answer, offer_store};
ghost use Rattle.script_listing.specs.Buffer.{last_for_line};
ghost use Rattle.script_listing.specs.Listing.{refused_line, bad_line};
ghost use Rattle.script_line.specs.Line.{most_numbers};
ghost use Rattle.script_answer.specs.Answer.{request_in, open_out, offer_out, asked_store, asked_out, asks_of};

use script_line::{Line, MOST_NUMBERS};
use script_listing::BUFFER;

pub fn put_refused(out: &mut [u8], at: usize, number: u64, place: u64) -> usize
    requires { at + 50 ≤ length out.old }
    ensures value { result ≡ at + length (refused_line number place) }
    ensures out_after { out.new ≡ put_at out.old at (refused_line number place) }
{
    script_listing::line(out, at, b"refused", &[number, place])
}

pub fn put_bad(out: &mut [u8; BUFFER], at: usize, count: u64) -> usize
    requires { at ≤ last_for_line }
    ensures value { result ≡ at + length (bad_line count) }
    ensures out_after { out.new ≡ put_at out.old at (bad_line count) }
{
    script_listing::line(out, at, b"bad", &[count])
}

fn open(
    store: &mut [u64; store::LENGTH],
    numbers: &[u64],
    hops: usize,
    out: &mut [u8; BUFFER],
    at: usize,
) -> usize
    requires route { 4 + hops ≤ length numbers.now }
    requires room { at ≤ last_for_line }
    ensures value { result ≡ at + length (open_out (open_answer store.old (request_in numbers.now hops)) hops) }
    ensures store_after { store.new ≡ open_store store.old (request_in numbers.now hops) }
    ensures out_after { out.new
        ≡ put_at out.old at (open_out (open_answer store.old (request_in numbers.now hops)) hops) }
{
    let opening = open::open(
        store,
        numbers[0],
        numbers[1],
        numbers[2],
        numbers[3],
        &numbers[4..4 + hops],
    );
    match opening.outcome {
        Ok(channel) => script_listing::channel(
            out,
            at,
            channel,
            &opening.responses,
            &opening.delays,
            &opening.reserved,
            hops,
        ),
        Err(why) => put_refused(out, at, why.number(), why.place()),
    }
}

fn offer(
    store: &mut [u64; store::LENGTH],
    channel: u64,
    packets: u64,
    out: &mut [u8; BUFFER],
    at: usize,
) -> usize
    requires { at ≤ last_for_line }
    ensures value { result ≡ at + length (offer_out (offer_answer store.old channel packets) channel) }
    ensures store_after { store.new ≡ offer_store store.old channel packets }
    ensures out_after { out.new
        ≡ put_at out.old at (offer_out (offer_answer store.old channel packets) channel) }
{
    match offer::offer(store, channel, packets) {
        Ok(accepted) => {
            let numbers = [channel, accepted.message, accepted.time];
            script_listing::line(out, at, b"accept", &numbers)
        }
        Err(refusal) => put_refused(out, at, refusal.number(), refusal.place()),
    }
}

// Does what a line asks, but for the slots of a `tick`: where the listing goes on.
#[tactic(auto, using(text_decimal::proofs::Laws::Put::put_none))]
pub fn answer(
    store: &mut [u64; store::LENGTH],
    asked: Line,
    numbers: &[u64; MOST_NUMBERS],
    count: u64,
    out: &mut [u8; BUFFER],
    at: usize,
) -> usize
    requires few { asks_of asked ≤ most_numbers }
    requires room { at ≤ last_for_line }
    ensures value { result ≡ at + length (asked_out store.old asked numbers.now count) }
    ensures store_after { store.new ≡ asked_store store.old asked numbers.now }
    ensures out_after { out.new
        ≡ put_at out.old at (asked_out store.old asked numbers.now count) }
{
    match asked {
        Line::Open(hops) => open(store, numbers, hops, out, at),
        Line::Offer => offer(store, numbers[0], numbers[1], out, at),
        Line::Tick => at,
        Line::Link | Line::Bad => put_bad(out, at, count),
    }
}
