// A route over the network: document 01's checks 3, 4 and 5, and what a channel has on a link of its route.
#![tactic(auto)]

ghost use Rattle.std.specs.Prelude.{◌≡◌, true, ◌+◌, ◌≤◌, ◌<◌, length};
ghost use Rattle.kinds.specs.Ranges.{most_links, most_hops, most_c};
ghost use Rattle.store.specs.Layout.{links_of, hops_of, delay_of, sent_of};
ghost use Rattle.folds.specs.Folds.{every, failing, sum_to};
ghost use Rattle.store.specs.Route.{along, exists, is_new, joins, Known, route_passes};
ghost use Rattle.store.specs.Amounts.{later_reserved, reserved_of, entered_of, held_of};
ghost use Rattle.store.specs.Ranged.{Ranged, SmallDelays, Near};

use kinds::Network;
use store::channel::Record;
use store::lent::Lent;

// 3: the first place with a link number that does not exist.
pub fn unknown_link(store: &Lent, route: &[u64]) -> Option<usize>
    ensures { result ≡ failing (exists store.now (along route.now)) (length route.now) }
{
    let links = store.links();
    route.iter().position(|&l| l as usize >= links)
}

// 4: the first place with a link that stands before. The links are known to exist.
#[tactic(auto, using(crate::proofs::Seen::marks_none, folds::proofs::Folds::every_none))]
pub fn repeated_link(route: &[u64]) -> Option<usize>
    requires { Known (along route.now) (length route.now) }
    ensures { result ≡ failing (is_new (along route.now)) (length route.now) }
{
    // whether a link stands at a place before
    let mut seen = [false; Network::MOST_LINKS];
    for j in 0..route.len() {
        let l = route[j] as usize;
        if seen[l] {
            return Some(j);
        }
        seen[l] = true;
    }
    None
}

// Whether the link at place `j` starts where the one before ends.
#[tactic(auto, using(store::proofs::Laws::Amounts::joins_first, store::proofs::Laws::Amounts::joins_later))]
fn is_joined(store: &Lent, route: &[u64], j: usize) -> bool
    requires j_in_bounds { j < length route.now }
    requires few_links { links_of store.now ≤ most_links }
    requires known { every (exists store.now (along route.now)) (j + 1) ≡ true }
    ensures { result ≡ joins store.now (along route.now) j }
{
    if j == 0 {
        return true;
    }
    let here = route[j] as usize;
    let before = route[j - 1] as usize;
    store.link(here).from() == store.link(before).to()
}

// 5: the first place with a link that does not start where the one before ends.
pub fn parted_link(store: &Lent, route: &[u64]) -> Option<usize>
    requires few_links { links_of store.now ≤ most_links }
    requires known { every (exists store.now (along route.now)) (length route.now) ≡ true }
    ensures { result ≡ failing (joins store.now (along route.now)) (length route.now) }
{
    (0..route.len()).find(|&j| !is_joined(store, route, j))
}

// Whether a route passes 3, 4 and 5, where it does not matter which one fails: in one pass.
#[tactic(auto, using(crate::proofs::Seen::marks_none, folds::proofs::Folds::every_none))]
pub fn passes(store: &Lent, route: &[u64]) -> bool
    requires { links_of store.now ≤ most_links }
    ensures { result ≡ route_passes store.now (along route.now) (length route.now) }
{
    let links = store.links();
    // whether a link stands at a place before
    let mut met = [false; Network::MOST_LINKS];
    for j in 0..route.len() {
        let l = route[j] as usize;
        if l >= links || met[l] {
            return false;
        }
        met[l] = true;
        if !is_joined(store, route, j) {
            return false;
        }
    }
    true
}

// The packets to be reserved on a link that is not the first of a route: `horizon` and `before` are the horizon and the delay of
// the link before it, `here` is the delay on it.
pub fn later_reserved(c: u64, p: u64, horizon: u64, before: u64, here: u64) -> u64
    requires c_le_most_c { c ≤ most_c }
    requires near { Near p horizon before here }
    ensures { result ≡ later_reserved c p horizon before here }
{
    let ahead = horizon + before + here - 2;
    // both fit 32 bits, where a division is cheaper
    let times = ahead as u32 / p as u32;
    c * (1 + times as u64)
}

// The packets reserved for a channel at place `j` of its route.
#[tactic(auto, using(store::proofs::Laws::Amounts::reserved_first, store::proofs::Laws::Amounts::reserved_later))]
pub fn reserved(channel: &Record, j: usize) -> u64
    requires ranged { Ranged channel.now.store channel.now.x }
    requires on_route { j < hops_of channel.now.store channel.now.x }
    ensures { result ≡ reserved_of channel.now.store channel.now.x j }
{
    let c = channel.c();
    if j == 0 {
        return channel.b() * c;
    }
    let horizon = channel.store().link(channel.link(j - 1)).horizon();
    later_reserved(
        c,
        channel.p(),
        horizon,
        channel.delay(j - 1),
        channel.delay(j),
    )
}

// The delays of a channel before place `j` of its route.
#[tactic(auto, using(folds::proofs::Folds::sum_none, folds::proofs::Folds::sum_more))]
pub fn offset(channel: &Record, j: usize) -> u64
    requires j_lt_most_hops { j < most_hops }
    requires small_delays { SmallDelays channel.now.store channel.now.x j }
    ensures { result ≡ sum_to (delay_of channel.now.store channel.now.x) j }
{
    let mut sum: u64 = 0;
    for i in 0..j {
        sum += channel.delay(i);
    }
    sum
}

// The packets that have come to place `j` of a channel's route.
#[tactic(auto, using(store::proofs::Laws::Amounts::entered_first, store::proofs::Laws::Amounts::entered_later))]
pub fn entered(channel: &Record, j: usize) -> u64
    requires { j < most_hops }
    ensures { result ≡ entered_of channel.now.store channel.now.x j }
{
    if j == 0 {
        channel.end(channel.messages())
    } else {
        channel.sent(j - 1)
    }
}

// The packets held there.
pub fn held(channel: &Record, j: usize) -> u64
    requires j_lt_most_hops { j < most_hops }
    requires sent_le_entered { sent_of channel.now.store channel.now.x j ≤ entered_of channel.now.store channel.now.x j }
    ensures { result ≡ held_of channel.now.store channel.now.x j }
{
    entered(channel, j) - channel.sent(j)
}
