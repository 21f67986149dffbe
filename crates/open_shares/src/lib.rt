// How the asked delay is shared out along a route, and the packets reserved for it: document 01, "Opening". Arrays have a
// number for each place of the route. What works them out is not inlined: its own arrays are then no part of the stack of the
// search before it.
#![tactic(auto)]

ghost use Rattle.std.specs.Prelude.{◌≡◌, true, ◌+◌, ◌≤◌, ◌<◌, length, leb};
ghost use Rattle.store.specs.Ranged.{most_reserved};
ghost use Rattle.kinds.specs.Ranges.{most_buffer, most_hops, most_c, most_p, most_d, most_b};
ghost use Rattle.store.specs.Layout.{number_at, links_of, buffer_of, rows_of};
ghost use Rattle.folds.specs.Folds.{every, failing, sum_to};
ghost use Rattle.store.specs.Route.{along, exists};
ghost use Rattle.store.specs.Amounts.{reserved_along};
ghost use Rattle.store.specs.Sound.{row_reserved_of};
ghost use Rattle.open_rules.specs.Shares.{delays as delays_of, taken_of, fits_buffer, eight};
ghost use Rattle.open_shares.specs.Ranges.{AllUpTo, Places};

use kinds::{Channel, Route};
use store::lent::{Lent, Sound};

// S, the sum of the responses along a route.
#[tactic(auto, using(folds::proofs::Folds::sum_none, folds::proofs::Folds::sum_more))]
pub fn total(responses: &[u64; Route::MOST_HOPS], way: Route) -> u64
    requires hops_le_most_hops { way.hops ≤ most_hops }
    requires all_up_to { AllUpTo responses.now way.hops most_p }
    ensures { result ≡ sum_to (number_at responses.now) way.hops }
{
    let mut sum = 0;
    for j in 0..way.hops {
        sum += responses[j];
    }
    sum
}

// The delay at each place of it: its share of D, or p if that is smaller. `sum` is S.
#[inline(never)]
#[tactic(auto, using(open_rules::proofs::Laws::Eight::eight_none, open_rules::proofs::Laws::Eight::eight_more))]
pub fn delays(
    asked: Channel,
    way: Route,
    sum: u64,
    responses: &[u64; Route::MOST_HOPS],
) -> [u64; Route::MOST_HOPS]
    requires hops_le_most_hops { way.hops ≤ most_hops }
    requires d_le_most_d { asked.d ≤ most_d }
    requires all_up_to { AllUpTo responses.now way.hops most_p }
    requires sum_value { sum ≡ sum_to (number_at responses.now) way.hops }
    requires le_sum { 1 ≤ sum }
    requires sum_le_d { sum ≤ asked.d }
    ensures { result ≡ eight (delays_of asked.p asked.d way.hops (number_at responses.now)) way.hops }
{
    let mut given = [0u64; Route::MOST_HOPS];
    for j in 0..way.hops {
        let r = responses[j];
        let share = r + (asked.d - sum) * r / sum;
        given[j] = share.min(asked.p);
    }
    given
}

// The packets to be reserved at place `j` of the route.
#[tactic(auto, using(store::proofs::Laws::Amounts::along_first, store::proofs::Laws::Amounts::along_later))]
fn reserved_at(
    store: &Lent,
    asked: Channel,
    route: &[u64],
    delays: &[u64; Route::MOST_HOPS],
    j: usize,
) -> u64
    requires places { Places store.now asked.p route.now delays.now }
    requires j_in_bounds { j < length route.now }
    requires c_le_most_c { asked.c ≤ most_c }
    requires b_le_most_b { asked.b ≤ most_b }
    ensures { result ≡ reserved_along store.now asked.c asked.p asked.b (along route.now)
        (number_at delays.now) j }
{
    if j == 0 {
        return asked.b * asked.c;
    }
    let horizon = store.link(route[j - 1] as usize).horizon();
    store_route::later_reserved(asked.c, asked.p, horizon, delays[j - 1], delays[j])
}

// The packets to be reserved at each place of the route.
#[inline(never)]
#[tactic(auto, using(open_rules::proofs::Laws::Eight::eight_none, open_rules::proofs::Laws::Eight::eight_more))]
pub fn reserved(
    store: &Lent,
    asked: Channel,
    route: &[u64],
    delays: &[u64; Route::MOST_HOPS],
) -> [u64; Route::MOST_HOPS]
    requires places { Places store.now asked.p route.now delays.now }
    requires c_le_most_c { asked.c ≤ most_c }
    requires b_le_most_b { asked.b ≤ most_b }
    ensures { result ≡ eight (reserved_along store.now asked.c asked.p asked.b (along route.now)
        (number_at delays.now)) (length route.now) }
{
    let mut packets = [0u64; Route::MOST_HOPS];
    for j in 0..route.len() {
        packets[j] = reserved_at(store, asked, route, delays, j);
    }
    packets
}

// The packets reserved on link `l` for its row `k`.
#[tactic(auto, using(crate::proofs::Rows::on_a_link))]
fn row_packets(store: &Sound, l: usize, k: usize) -> u64
    requires on_link { l < links_of store.now }
    requires in_rows { k < rows_of store.now l }
    ensures value { result ≡ row_reserved_of store.now l k }
    ensures small { result ≤ most_buffer }
{
    let link = store.link(l);
    let x = link.row_channel(k);
    let j = link.row_place(k);
    store_route::reserved(&store.channel(x), j)
}

// The packets reserved on link `l` already.
#[tactic(auto, using(crate::proofs::Rows::on_a_link, folds::proofs::Folds::sum_none, folds::proofs::Folds::sum_more))]
fn taken(store: &Sound, l: usize) -> u64
    requires { l < links_of store.now }
    ensures { result ≡ taken_of store.now l }
{
    let mut sum = 0;
    for k in 0..store.link(l).rows() {
        sum += row_packets(store, l, k);
    }
    sum
}

// Whether link `l`'s buffer holds `packets` more than are reserved on it.
#[tactic(auto, using(crate::proofs::Rows::on_a_link))]
fn fits(store: &Sound, l: usize, packets: u64) -> bool
    requires on_link { l < links_of store.now }
    requires packets_most { packets ≤ most_reserved }
    ensures { result ≡ leb (taken_of store.now l + packets) (buffer_of store.now l) }
{
    let buffer = store.link(l).buffer();
    taken(store, l) + packets <= buffer
}

// 10: the first place whose link's buffer would be exceeded.
#[inline(never)]
pub fn full_link(store: &Sound, route: &[u64], reserved: &[u64; Route::MOST_HOPS]) -> Option<usize>
    requires few_hops { length route.now ≤ most_hops }
    requires known { every (exists store.now (along route.now)) (length route.now) ≡ true }
    requires all_up_to { AllUpTo reserved.now (length route.now) most_reserved }
    ensures { result ≡ failing (fits_buffer store.now (along route.now)
        (number_at reserved.now)) (length route.now) }
{
    (0..route.len()).find(|&j| !fits(store, route[j] as usize, reserved[j]))
}
