// The record of a link: its numbers, and its rows, highest first.
ghost use Rattle.std.specs.Prelude.{◌≡◌, ◌<◌};
ghost use Rattle.kinds.specs.Ranges.{most_links, most_rows};
ghost use Rattle.store.specs.Layout.{Long, from_of, with_from, to_of, with_to, horizon_of, with_horizon, buffer_of, with_buffer};
ghost use Rattle.store.specs.Layout.{rows_of, with_rows, row_channel_of, with_row_channel, row_place_of, with_row_place};

use super::{LINKS, RECORD};
use std::marker::Model;

// The record as it is read.
#[derive(Drop)]
pub struct Record<'a> {
    numbers: &'a [u64],
    l: usize,
}

impl<'a> Model for Record<'a> {
    ghost use Rattle.std.specs.Prelude.{◌<◌};
    ghost use Rattle.kinds.specs.Ranges.{most_links};
    ghost use Rattle.store.specs.Layout.{LinkAt, Long};

    ghost Value = { LinkAt };

    ghost view = { λ r. record { store = r.numbers.now; l = r.l } };

    ghost invariant = { λ r. Long r.numbers.now × (r.l < most_links) };
}

impl Record<'_> {
    pub fn new(numbers: &[u64], l: usize) -> Record<'_>
        requires long { Long numbers.now }
        requires in_range { l < most_links }
        ensures { result ≡ record { store = numbers.now; l = l } }
    {
        Record { numbers, l }
    }

    pub fn from(&self) -> u64
        ensures { result ≡ from_of self.now.store self.now.l }
    {
        self.numbers[LINKS + RECORD * self.l]
    }

    pub fn to(&self) -> u64
        ensures { result ≡ to_of self.now.store self.now.l }
    {
        self.numbers[LINKS + RECORD * self.l + 1]
    }

    pub fn horizon(&self) -> u64
        ensures { result ≡ horizon_of self.now.store self.now.l }
    {
        self.numbers[LINKS + RECORD * self.l + 2]
    }

    pub fn buffer(&self) -> u64
        ensures { result ≡ buffer_of self.now.store self.now.l }
    {
        self.numbers[LINKS + RECORD * self.l + 3]
    }

    pub fn rows(&self) -> usize
        ensures { result ≡ rows_of self.now.store self.now.l }
    {
        self.numbers[LINKS + RECORD * self.l + 4] as usize
    }

    pub fn row_channel(&self, k: usize) -> usize
        requires { k < most_rows }
        ensures { result ≡ row_channel_of self.now.store self.now.l k }
    {
        self.numbers[LINKS + RECORD * self.l + 16 + 2 * k] as usize
    }

    pub fn row_place(&self, k: usize) -> usize
        requires { k < most_rows }
        ensures { result ≡ row_place_of self.now.store self.now.l k }
    {
        self.numbers[LINKS + RECORD * self.l + 17 + 2 * k] as usize
    }
}

pub fn put_from(store: &mut [u64], l: usize, v: u64)
    requires long { Long store.old }
    requires l_lt_most_links { l < most_links }
    ensures { store.new ≡ with_from store.old l v }
{
    store[LINKS + RECORD * l] = v;
}

pub fn put_to(store: &mut [u64], l: usize, v: u64)
    requires long { Long store.old }
    requires l_lt_most_links { l < most_links }
    ensures { store.new ≡ with_to store.old l v }
{
    store[LINKS + RECORD * l + 1] = v;
}

pub fn put_horizon(store: &mut [u64], l: usize, v: u64)
    requires long { Long store.old }
    requires l_lt_most_links { l < most_links }
    ensures { store.new ≡ with_horizon store.old l v }
{
    store[LINKS + RECORD * l + 2] = v;
}

pub fn put_buffer(store: &mut [u64], l: usize, v: u64)
    requires long { Long store.old }
    requires l_lt_most_links { l < most_links }
    ensures { store.new ≡ with_buffer store.old l v }
{
    store[LINKS + RECORD * l + 3] = v;
}

pub fn put_rows(store: &mut [u64], l: usize, v: usize)
    requires long { Long store.old }
    requires l_lt_most_links { l < most_links }
    ensures { store.new ≡ with_rows store.old l v }
{
    store[LINKS + RECORD * l + 4] = v as u64;
}

pub fn put_row_channel(store: &mut [u64], l: usize, k: usize, v: usize)
    requires long { Long store.old }
    requires l_lt_most_links { l < most_links }
    requires k_lt_most_rows { k < most_rows }
    ensures { store.new ≡ with_row_channel store.old l k v }
{
    store[LINKS + RECORD * l + 16 + 2 * k] = v as u64;
}

pub fn put_row_place(store: &mut [u64], l: usize, k: usize, v: usize)
    requires long { Long store.old }
    requires l_lt_most_links { l < most_links }
    requires k_lt_most_rows { k < most_rows }
    ensures { store.new ≡ with_row_place store.old l k v }
{
    store[LINKS + RECORD * l + 17 + 2 * k] = v as u64;
}
