// What an accepted open writes: document 01, "Opening". The new channel's record, and its row on each link of its route.
#![tactic(auto)]

ghost use Rattle.std.specs.Prelude.{◌≡◌, ◌+◌, ◌≤◌, ◌<◌, length};
ghost use Rattle.kinds.specs.Ranges.{most_channels, most_hops};
ghost use Rattle.store.specs.Layout.{Long, number_at, route_of, with_channels};
ghost use Rattle.store.specs.Route.{along};
ghost use Rattle.open_rules.specs.Asked.{asking};
ghost use Rattle.open_rules.specs.Join.{places_written, channel_written, rows_joined};
ghost use Rattle.open_write.specs.Ready.{Ready, Enterable};

use kinds::{Channel, Route};
use store::{channel, head};

// The first `route.len()` links of channel `x`'s route, and the delay on each.
#[tactic(auto, using(crate::proofs::Steps::places_none, crate::proofs::Steps::places_more))]
fn put_places(store: &mut [u64], x: usize, route: &[u64], delays: &[u64; Route::MOST_HOPS])
    requires long { Long store.old }
    requires x_lt_most_channels { x < most_channels }
    requires few_hops { length route.now ≤ most_hops }
    ensures { store.new ≡ places_written store.old x (along route.now)
        (number_at delays.now) (length route.now) }
{
    for (j, &l) in route.iter().enumerate() {
        channel::put_route(store, x, j, l as usize);
        channel::put_delay(store, x, j, delays[j]);
    }
}

// The record of channel `x`: what was asked for, and the delay on each link.
#[tactic(auto, unfolding(open_rules::specs::Join::channel_written))]
fn put_channel(
    store: &mut [u64],
    x: usize,
    asked: Channel,
    route: &[u64],
    delays: &[u64; Route::MOST_HOPS],
)
    requires long { Long store.old }
    requires x_lt_most_channels { x < most_channels }
    requires few_hops { length route.now ≤ most_hops }
    ensures { store.new ≡ channel_written store.old x (asking asked route.now)
        (number_at delays.now) }
{
    channel::clear(store, x);
    channel::put_c(store, x, asked.c);
    channel::put_p(store, x, asked.p);
    channel::put_d(store, x, asked.d);
    channel::put_b(store, x, asked.b);
    channel::put_hops(store, x, route.len());
    put_places(store, x, route, delays);
}

// The rows of channel `x` join the order of each of the `n` links of its route.
#[tactic(auto, using(crate::proofs::Steps::rows_none, crate::proofs::Steps::rows_more))]
fn join_rows(store: &mut [u64], x: usize, n: usize)
    requires { Ready store.old x (route_of store.old x) n }
    ensures { store.new ≡ rows_joined store.old x n }
{
    for j in 0..n {
        open_insert::join_row(store, x, j);
    }
}

// Channel `x` is opened: its record, its row on each link of its route, and one channel more.
#[inline(never)]
pub fn enter(
    store: &mut [u64],
    x: usize,
    asked: Channel,
    route: &[u64],
    delays: &[u64; Route::MOST_HOPS],
)
    requires { Enterable store.old (asking asked route.now) x }
    ensures { store.new ≡ with_channels (rows_joined (channel_written store.old x
        (asking asked route.now) (number_at delays.now)) x (length route.now)) (x + 1) }
{
    put_channel(store, x, asked, route, delays);
    join_rows(store, x, route.len());
    head::put_channels(store, x + 1);
}
