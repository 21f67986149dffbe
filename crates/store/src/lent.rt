// A lent store as it is read: one that is long enough, one whose records are in range, one that is sound. In a clause each is
// its numbers.
ghost use Rattle.std.specs.Prelude.{◌≡◌, true, ◌<◌};
ghost use Rattle.kinds.specs.Ranges.{most_links, most_channels};
ghost use Rattle.store.specs.Layout.{Long, links_of, channels_of, clock_of, IsChannel};
ghost use Rattle.store.specs.Sound.{sound_of};
ghost use Rattle.store.specs.Ranged.{Fit};

use super::{channel, link};
use std::marker::Model;

// It is long enough.
#[derive(Drop)]
pub struct Lent<'a> {
    numbers: &'a [u64],
}

impl<'a> Model for Lent<'a> {
    ghost use Rattle.std.specs.Prelude.{List, ℕ};
    ghost use Rattle.store.specs.Layout.{Long};

    ghost Value = { List ℕ };

    ghost view = { λ s. s.numbers.now };

    ghost invariant = { λ s. Long s.numbers.now };
}

impl Lent<'_> {
    pub fn new(numbers: &[u64]) -> Lent<'_>
        requires { Long numbers.now }
        ensures { result ≡ numbers.now }
    {
        Lent { numbers }
    }

    pub fn links(&self) -> usize
        ensures { result ≡ links_of self.now }
    {
        self.numbers[0] as usize
    }

    pub fn channels(&self) -> usize
        ensures { result ≡ channels_of self.now }
    {
        self.numbers[1] as usize
    }

    pub fn clock(&self) -> u64
        ensures { result ≡ clock_of self.now }
    {
        self.numbers[2]
    }

    pub fn link(&self, l: usize) -> link::Record<'_>
        requires { l < most_links }
        ensures { result ≡ record { store = self.now; l = l } }
    {
        link::Record::new(self.numbers, l)
    }

    pub fn channel(&self, x: usize) -> channel::Record<'_>
        requires { x < most_channels }
        ensures { result ≡ record { store = self.now; x = x } }
    {
        channel::Record::new(self.numbers, x)
    }
}

// Its counts, its links and its channels are sound: what its rows may rely on.
#[derive(Drop)]
pub struct Fitting<'a> {
    store: Lent<'a>,
}

impl<'a> Model for Fitting<'a> {
    ghost use Rattle.std.specs.Prelude.{List, ℕ};
    ghost use Rattle.store.specs.Ranged.{Fit};

    ghost Value = { List ℕ };

    ghost view = { λ s. s.store };

    ghost invariant = { λ s. Fit s.store };
}

impl Fitting<'_> {
    // For the crates above, which know it.
    pub fn new(numbers: &[u64]) -> Fitting<'_>
        requires { Fit numbers.now }
        ensures { result ≡ numbers.now }
    {
        Fitting {
            store: Lent::new(numbers),
        }
    }

    pub fn links(&self) -> usize
        ensures value { result ≡ links_of self.now }
        ensures fits { Fit self.now }
    {
        self.store.links()
    }

    pub fn channels(&self) -> usize
        ensures value { result ≡ channels_of self.now }
        ensures fits { Fit self.now }
    {
        self.store.channels()
    }

    pub fn link(&self, l: usize) -> link::Record<'_>
        requires { l < links_of self.now }
        ensures value { result ≡ record { store = self.now; l = l } }
        ensures fits { Fit self.now }
    {
        self.store.link(l)
    }

    pub fn channel(&self, x: usize) -> channel::Record<'_>
        requires { IsChannel self.now x }
        ensures value { result ≡ record { store = self.now; x = x } }
        ensures fits { Fit self.now }
    {
        self.store.channel(x)
    }
}

// It is sound.
#[derive(Drop)]
pub struct Sound<'a> {
    store: Lent<'a>,
}

impl<'a> Model for Sound<'a> {
    ghost use Rattle.std.specs.Prelude.{List, ℕ, ◌≡◌, true};
    ghost use Rattle.store.specs.Sound.{sound_of};

    ghost Value = { List ℕ };

    ghost view = { λ s. s.store };

    ghost invariant = { λ s. sound_of s.store ≡ true };
}

impl Sound<'_> {
    // For the crates above, which know it.
    pub fn new(numbers: &[u64]) -> Sound<'_>
        requires { sound_of numbers.now ≡ true }
        ensures { result ≡ numbers.now }
    {
        Sound {
            store: Lent::new(numbers),
        }
    }

    pub fn links(&self) -> usize
        ensures value { result ≡ links_of self.now }
        ensures sound { sound_of self.now ≡ true }
    {
        self.store.links()
    }

    pub fn channels(&self) -> usize
        ensures value { result ≡ channels_of self.now }
        ensures sound { sound_of self.now ≡ true }
    {
        self.store.channels()
    }

    pub fn link(&self, l: usize) -> link::Record<'_>
        requires { l < links_of self.now }
        ensures value { result ≡ record { store = self.now; l = l } }
        ensures sound { sound_of self.now ≡ true }
    {
        self.store.link(l)
    }

    pub fn channel(&self, x: usize) -> channel::Record<'_>
        requires { IsChannel self.now x }
        ensures value { result ≡ record { store = self.now; x = x } }
        ensures sound { sound_of self.now ≡ true }
    {
        self.store.channel(x)
    }

    pub fn clock(&self) -> u64
        ensures value { result ≡ clock_of self.now }
        ensures sound { sound_of self.now ≡ true }
    {
        self.store.clock()
    }
}
