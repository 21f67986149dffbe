// Whether a channel's record is sound: its own numbers, its route, how far it is, and its messages.
#![tactic(auto)]

ghost use Rattle.std.specs.Prelude.{◌≡◌, ◌≤◌};
ghost use Rattle.kinds.specs.Ranges.{most_links, most_hops};
ghost use Rattle.store.specs.Layout.{links_of, hops_of, route_of};
ghost use Rattle.folds.specs.Folds.{every};
ghost use Rattle.store.specs.Route.{route_passes};
ghost use Rattle.store.specs.Sound.{channel_fits, place_fits, channel_sound};

use kinds::{Channel, Route};
use store::channel::Record;

// Checks 3, 4 and 5 of the first `n` links of a channel's route.
fn route_passes(channel: &Record, n: usize) -> bool
    requires few_links { links_of channel.now.store ≤ most_links }
    requires n_le_most_hops { n ≤ most_hops }
    ensures { result ≡ route_passes channel.now.store (route_of channel.now.store channel.now.x) n }
{
    store_route::passes(&channel.store(), &channel.route()[..n])
}

// Checks 1 to 5.
#[tactic(auto, using(kinds::proofs::Laws::channel_is_ok, kinds::proofs::Laws::route_is_ok, kinds::proofs::Laws::within_true))]
fn channel_fits(channel: &Record) -> bool
    requires few_links { links_of channel.now.store ≤ most_links }
    ensures { result ≡ channel_fits channel.now.store channel.now.x }
{
    let good = Channel::new(channel.c(), channel.p(), channel.d(), channel.b()).is_ok();
    let hops = channel.hops();
    good && Route::new(hops).is_ok() && route_passes(channel, hops)
}

// Whether at each place of the route the delay is 1 to p, and no more has been sent than has come.
#[tactic(auto, using(folds::proofs::Folds::every_none, folds::proofs::Folds::every_more, store::proofs::Laws::Amounts::entered_later))]
fn places_fit(channel: &Record) -> bool
    requires x_bound { hops_of channel.now.store channel.now.x ≤ most_hops }
    ensures { result ≡ every (place_fits channel.now.store channel.now.x) (hops_of channel.now.store channel.now.x) }
{
    let p = channel.p();
    let mut entered = store_route::entered(channel, 0);
    for j in 0..channel.hops() {
        let delay = channel.delay(j);
        let sent = channel.sent(j);
        if delay < 1 || delay > p || sent > entered {
            return false;
        }
        entered = sent;
    }
    true
}

// Whether a channel is sound.
#[tactic(auto, using(crate::proofs::Laws::small_delay))]
pub fn channel_is_sound(channel: &Record) -> bool
    requires few_links { links_of channel.now.store ≤ most_links }
    ensures { result ≡ channel_sound channel.now.store channel.now.x }
{
    channel_fits(channel) && places_fit(channel) && sound_messages::messages_fit(channel)
}
