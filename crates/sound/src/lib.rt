// Whether a store is sound: document 01, "A store is sound when: ..". Every call but set-up asks this first, so each part
// is one pass over plain numbers. A part reads only what the parts before it have found in range.
#![tactic(auto)]

ghost use Rattle.std.specs.Prelude.{◌≡◌, true, ◌<◌, if◌then◌else◌};
ghost use Rattle.std.specs.declared.option.Option.TheVariants.{None, Some};
ghost use Rattle.kinds.specs.Ranges.{most_links};
ghost use Rattle.store.specs.Layout.{links_of, channels_of, rows_of, hops_of};
ghost use Rattle.folds.specs.Folds.{every, sum_to};
ghost use Rattle.store.specs.Sound.{counts_fit, link_fits, channel_sound, rows_sound, all_listed, sound_of};
ghost use Rattle.store.specs.Ranged.{Fit};

use kinds::{Link, Network, Slot};
use store::lent::{Fitting, Lent, Sound};
use store::link::Record;

// Whether the counts of the head and the clock are in range.
fn counts_fit(store: &Lent) -> bool
    ensures { result ≡ counts_fit store.now }
{
    Network::links_fit(store.links())
        && Network::channels_fit(store.channels())
        && Slot::is_slot(store.clock())
}

// Whether a link passes 16 and has no more rows than there is room for.
#[tactic(auto, using(kinds::proofs::Laws::link_is_ok))]
fn link_fits(link: &Record) -> bool
    ensures { result ≡ link_fits link.now.store link.now.l }
{
    let good = Link::new(link.from(), link.to(), link.horizon(), link.buffer()).is_ok();
    good && Link::rows_fit(link.rows())
}

// Whether every link does.
fn links_fit(store: &Lent) -> bool
    requires { counts_fit store.now ≡ true }
    ensures { result ≡ every (link_fits store.now) (links_of store.now) }
{
    (0..store.links()).all(|l| link_fits(&store.link(l)))
}

// Whether every channel passes 1 to 5 and its messages are in order.
fn channels_sound(store: &Lent) -> bool
    requires { counts_fit store.now ≡ true }
    ensures { result ≡ every (channel_sound store.now) (channels_of store.now) }
{
    (0..store.channels()).all(|x| sound_channel::channel_is_sound(&store.channel(x)))
}

// How many rows the links have in all.
#[tactic(auto, using(store::proofs::Laws::Sound::fit_rows, folds::proofs::Folds::sum_none, folds::proofs::Folds::sum_more))]
fn all_rows(store: &Fitting) -> usize
    ensures fits { Fit store.now }
    ensures value { result ≡ sum_to (rows_of store.now) (links_of store.now) }
{
    let mut sum: usize = 0;
    for l in 0..store.links() {
        sum += store.link(l).rows();
    }
    sum
}

// How many places the routes have in all.
#[tactic(auto, using(sound_rows::proofs::Laws::There::hops_most, folds::proofs::Folds::sum_none, folds::proofs::Folds::sum_more))]
fn all_places(store: &Fitting) -> usize
    ensures { result ≡ sum_to (hops_of store.now) (channels_of store.now) }
{
    let mut sum: usize = 0;
    for x in 0..store.channels() {
        sum += store.channel(x).hops();
    }
    sum
}

// Whether every place of every route is a row of its link. Rows that stand are places of routes, and rows in order are no
// place twice: so every place is a row exactly if there are as many rows as places.
#[tactic(auto, using(crate::proofs::Laws::Listed::counted))]
fn all_listed(store: &Fitting) -> bool
    requires { every (rows_sound store.now) (links_of store.now) ≡ true }
    ensures { result ≡ every (all_listed store.now) (channels_of store.now) }
{
    all_rows(store) == all_places(store)
}

// Whether the store is sound: any numbers, and any length. Inlined into `check`, each of its tests would also set what that
// answers.
#[inline(never)]
#[tactic(auto, unfolding(store::specs::Sound::sound_of))]
pub fn is_sound(store: &[u64]) -> bool
    ensures { result ≡ sound_of store.now }
{
    if store.len() < store::LENGTH {
        return false;
    }
    let lent = Lent::new(store);
    if !(counts_fit(&lent) && links_fit(&lent) && channels_sound(&lent)) {
        return false;
    }
    let fitting = Fitting::new(store);
    sound_rows::rows_sound(&fitting) && all_listed(&fitting)
}

// The store as one that is sound, where it is.
pub fn check(store: &[u64]) -> Option<Sound<'_>>
    ensures { result ≡ (if sound_of store.now then Some store.now else None) }
{
    if is_sound(store) {
        Some(Sound::new(store))
    } else {
        None
    }
}
