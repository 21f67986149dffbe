// The record of a channel: its numbers, its route, and how far its messages are. Message `n` is counted from 1.
ghost use Rattle.std.specs.Prelude.{◌≡◌, ◌%◌, ◌<◌, take, drop};
ghost use Rattle.kinds.specs.Ranges.{most_channels, most_hops};
ghost use Rattle.store.specs.Layout.{Long, route_start, c_of, with_c, p_of, with_p, d_of, with_d, b_of, with_b, hops_of, with_hops};
ghost use Rattle.store.specs.Layout.{messages_of, with_messages, route_of, with_route, delay_of, with_delay, sent_of, with_sent};
ghost use Rattle.store.specs.Layout.{time_of, with_time, end_of, with_end, ring, place_before, cleared, record_length};

use super::lent::Lent;
use super::{CHANNELS, RECORD, RING};
use kinds::Route;
use std::marker::Model;

// The record as it is read.
#[derive(Drop)]
pub struct Record<'a> {
    numbers: &'a [u64],
    x: usize,
}

impl<'a> Model for Record<'a> {
    ghost use Rattle.std.specs.Prelude.{◌<◌};
    ghost use Rattle.kinds.specs.Ranges.{most_channels};
    ghost use Rattle.store.specs.Layout.{ChannelAt, Long};

    ghost Value = { ChannelAt };

    ghost view = { λ r. record { store = r.numbers.now; x = r.x } };

    ghost invariant = { λ r. Long r.numbers.now × (r.x < most_channels) };
}

impl Record<'_> {
    pub fn new(numbers: &[u64], x: usize) -> Record<'_>
        requires long { Long numbers.now }
        requires in_range { x < most_channels }
        ensures { result ≡ record { store = numbers.now; x = x } }
    {
        Record { numbers, x }
    }

    pub fn store(&self) -> Lent<'_>
        ensures { result ≡ self.now.store }
    {
        Lent::new(self.numbers)
    }

    // The links of its route, and what stands past its end.
    pub fn route(&self) -> [u64; Route::MOST_HOPS]
        ensures { result ≡ take most_hops (drop (route_start self.now.x) self.now.store) }
    {
        let start = CHANNELS + RECORD * self.x + 8;
        let mut links = [0; Route::MOST_HOPS];
        links.copy_from_slice(&self.numbers[start..start + Route::MOST_HOPS]);
        links
    }

    pub fn c(&self) -> u64
        ensures { result ≡ c_of self.now.store self.now.x }
    {
        self.numbers[CHANNELS + RECORD * self.x]
    }

    pub fn p(&self) -> u64
        ensures { result ≡ p_of self.now.store self.now.x }
    {
        self.numbers[CHANNELS + RECORD * self.x + 1]
    }

    pub fn d(&self) -> u64
        ensures { result ≡ d_of self.now.store self.now.x }
    {
        self.numbers[CHANNELS + RECORD * self.x + 2]
    }

    pub fn b(&self) -> u64
        ensures { result ≡ b_of self.now.store self.now.x }
    {
        self.numbers[CHANNELS + RECORD * self.x + 3]
    }

    pub fn hops(&self) -> usize
        ensures { result ≡ hops_of self.now.store self.now.x }
    {
        self.numbers[CHANNELS + RECORD * self.x + 4] as usize
    }

    pub fn messages(&self) -> u64
        ensures { result ≡ messages_of self.now.store self.now.x }
    {
        self.numbers[CHANNELS + RECORD * self.x + 5]
    }

    pub fn link(&self, j: usize) -> usize
        requires { j < most_hops }
        ensures { result ≡ route_of self.now.store self.now.x j }
    {
        self.numbers[CHANNELS + RECORD * self.x + 8 + j] as usize
    }

    pub fn delay(&self, j: usize) -> u64
        requires { j < most_hops }
        ensures { result ≡ delay_of self.now.store self.now.x j }
    {
        self.numbers[CHANNELS + RECORD * self.x + 16 + j]
    }

    pub fn sent(&self, j: usize) -> u64
        requires { j < most_hops }
        ensures { result ≡ sent_of self.now.store self.now.x j }
    {
        self.numbers[CHANNELS + RECORD * self.x + 24 + j]
    }

    pub fn time(&self, n: u64) -> u64
        ensures { result ≡ time_of self.now.store self.now.x n }
    {
        self.numbers[CHANNELS + RECORD * self.x + 32 + (n % RING) as usize]
    }

    pub fn end(&self, n: u64) -> u64
        ensures { result ≡ end_of self.now.store self.now.x n }
    {
        self.numbers[CHANNELS + RECORD * self.x + 56 + (n % RING) as usize]
    }

    pub fn time_in(&self, at: usize) -> u64
        requires { at < ring }
        ensures { result ≡ time_of self.now.store self.now.x at }
    {
        self.numbers[CHANNELS + RECORD * self.x + at + 32]
    }

    pub fn end_in(&self, at: usize) -> u64
        requires { at < ring }
        ensures { result ≡ end_of self.now.store self.now.x at }
    {
        self.numbers[CHANNELS + RECORD * self.x + at + 56]
    }
}

// Every number of its record is 0.
pub fn clear(store: &mut [u64], x: usize)
    requires long { Long store.old }
    requires x_lt_most_channels { x < most_channels }
    ensures { store.new ≡ cleared store.old x record_length }
{
    let start = CHANNELS + RECORD * x;
    store[start..start + RECORD].fill(0);
}

pub fn put_c(store: &mut [u64], x: usize, v: u64)
    requires long { Long store.old }
    requires x_lt_most_channels { x < most_channels }
    ensures { store.new ≡ with_c store.old x v }
{
    store[CHANNELS + RECORD * x] = v;
}

pub fn put_p(store: &mut [u64], x: usize, v: u64)
    requires long { Long store.old }
    requires x_lt_most_channels { x < most_channels }
    ensures { store.new ≡ with_p store.old x v }
{
    store[CHANNELS + RECORD * x + 1] = v;
}

pub fn put_d(store: &mut [u64], x: usize, v: u64)
    requires long { Long store.old }
    requires x_lt_most_channels { x < most_channels }
    ensures { store.new ≡ with_d store.old x v }
{
    store[CHANNELS + RECORD * x + 2] = v;
}

pub fn put_b(store: &mut [u64], x: usize, v: u64)
    requires long { Long store.old }
    requires x_lt_most_channels { x < most_channels }
    ensures { store.new ≡ with_b store.old x v }
{
    store[CHANNELS + RECORD * x + 3] = v;
}

pub fn put_hops(store: &mut [u64], x: usize, v: usize)
    requires long { Long store.old }
    requires x_lt_most_channels { x < most_channels }
    ensures { store.new ≡ with_hops store.old x v }
{
    store[CHANNELS + RECORD * x + 4] = v as u64;
}

pub fn put_messages(store: &mut [u64], x: usize, v: u64)
    requires long { Long store.old }
    requires x_lt_most_channels { x < most_channels }
    ensures { store.new ≡ with_messages store.old x v }
{
    store[CHANNELS + RECORD * x + 5] = v;
}

pub fn put_route(store: &mut [u64], x: usize, j: usize, v: usize)
    requires long { Long store.old }
    requires x_lt_most_channels { x < most_channels }
    requires j_lt_most_hops { j < most_hops }
    ensures { store.new ≡ with_route store.old x j v }
{
    store[CHANNELS + RECORD * x + 8 + j] = v as u64;
}

pub fn put_delay(store: &mut [u64], x: usize, j: usize, v: u64)
    requires long { Long store.old }
    requires x_lt_most_channels { x < most_channels }
    requires j_lt_most_hops { j < most_hops }
    ensures { store.new ≡ with_delay store.old x j v }
{
    store[CHANNELS + RECORD * x + 16 + j] = v;
}

pub fn put_sent(store: &mut [u64], x: usize, j: usize, v: u64)
    requires long { Long store.old }
    requires x_lt_most_channels { x < most_channels }
    requires j_lt_most_hops { j < most_hops }
    ensures { store.new ≡ with_sent store.old x j v }
{
    store[CHANNELS + RECORD * x + 24 + j] = v;
}

pub fn put_time(store: &mut [u64], x: usize, n: u64, v: u64)
    requires long { Long store.old }
    requires x_lt_most_channels { x < most_channels }
    ensures { store.new ≡ with_time store.old x n v }
{
    store[CHANNELS + RECORD * x + 32 + (n % RING) as usize] = v;
}

pub fn put_end(store: &mut [u64], x: usize, n: u64, v: u64)
    requires long { Long store.old }
    requires x_lt_most_channels { x < most_channels }
    ensures { store.new ≡ with_end store.old x n v }
{
    store[CHANNELS + RECORD * x + 56 + (n % RING) as usize] = v;
}

// The ring of a channel's last messages, for a walk back from message to message without a division at each: the place of
// message `n`, the place before another, and what stands at a place.
pub fn ring_place(n: u64) -> usize
    ensures { result ≡ n % ring }
{
    (n % RING) as usize
}

#[tactic(auto, using(crate::proofs::Laws::Ring::before_first, crate::proofs::Laws::Ring::before_later))]
pub fn place_before(at: usize) -> usize
    requires { at < ring }
    ensures value { result ≡ place_before at }
    ensures upper_bound { result < ring }
{
    if at == 0 { (RING - 1) as usize } else { at - 1 }
}
