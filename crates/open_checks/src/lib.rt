// The checks of an open that come before the search: 17, 14 and 1 to 7.
#![tactic(auto)]

ghost use Rattle.std.specs.Prelude.{◌≡◌, true, length};
ghost use Rattle.store.specs.Layout.{channels_of};
ghost use Rattle.folds.specs.Folds.{every, failing};
ghost use Rattle.store.specs.Route.{along, exists};
ghost use Rattle.checks.specs.Checks.{first_failed};
ghost use Rattle.std.specs.declared.result.Result.TheVariants.{Ok, Err};
ghost use Rattle.open_rules.specs.Refusal.{takes_row, early_checks};

use kinds::{Channel, Link, Network, Refusal, Route, Slot};
use store::lent::{Lent, Sound};

// What the checks leave of a request: the number that its channel will have, what it asks for, and how many links its route has.
#[derive(Clone, Copy)]
pub struct Passed {
    pub channel: usize,
    pub asked: Channel,
    pub way: Route,
}

// 7: the first place of the route whose link has no room for a row.
fn crowded_link(store: &Sound, route: &[u64]) -> Option<usize>
    requires { every (exists store.now (along route.now)) (length route.now) ≡ true }
    ensures { result ≡ failing (takes_row store.now (along route.now)) (length route.now) }
{
    (0..route.len()).find(|&j| store.link(route[j] as usize).rows() >= Link::MOST_ROWS)
}

// Checks 17, 14 and 1 to 7, in this order. What they need of the stack is free again when the search begins.
#[inline(never)]
#[tactic(auto, using(crate::proofs::Sound::sound_long, crate::proofs::Sound::sound_few), unfolding(checks::specs::Checks::first_failed, kinds::specs::Checks::new_channel, kinds::specs::Checks::new_route))]
pub fn early(
    store: &[u64],
    c: u64,
    p: u64,
    d: u64,
    b: u64,
    route: &[u64],
) -> Result<Passed, Refusal>
    ensures { result ≡ first_failed Err
        (early_checks store.now (record { c = c; p = p; d = d; b = b; route = route.now }))
        (Ok (record {
          channel = channels_of store.now;
          asked = record { c = c; p = p; d = d; b = b };
          way = record { hops = length route.now };
        })) }
{
    let Some(sound) = sound::check(store) else {
        return Err(Refusal::NotSound);
    };
    if sound.clock() >= Slot::END {
        return Err(Refusal::EndSlot);
    }
    let asked = Channel::new(c, p, d, b)?;
    let way = Route::new(route.len())?;
    let lent = Lent::new(store);
    if let Some(j) = store_route::unknown_link(&lent, route) {
        return Err(Refusal::NoLink(j as u64));
    }
    if let Some(j) = store_route::repeated_link(route) {
        return Err(Refusal::LinkTwice(j as u64));
    }
    if let Some(j) = store_route::parted_link(&lent, route) {
        return Err(Refusal::LinksApart(j as u64));
    }
    let channel = sound.channels();
    if channel >= Network::MOST_CHANNELS {
        return Err(Refusal::ChannelsFull);
    }
    if let Some(j) = crowded_link(&sound, route) {
        return Err(Refusal::RowsFull(j as u64));
    }
    Ok(Passed {
        channel,
        asked,
        way,
    })
}
