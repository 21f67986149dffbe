// Whether the rows of the links are sound: each is a channel routed over its link, they are in order, and they hold and take no
// more than there is room for.
#![tactic(auto)]

ghost use Rattle.std.specs.Prelude.{◌≡◌, ◌<◌};
ghost use Rattle.store.specs.Layout.{links_of};
ghost use Rattle.folds.specs.Folds.{every};
ghost use Rattle.store.specs.Sound.{rows_sound};
ghost use Rattle.sound_rows.specs.Rows.{stands, follows};

use store::lent::Fitting;

// Whether channel `x` is routed over link `l`, at place `j` of its route.
#[tactic(auto, using(crate::proofs::Laws::There::hops_most))]
fn row_stands(store: &Fitting, l: usize, x: usize, j: usize) -> bool
    ensures { result ≡ stands store.now l x j }
{
    x < store.channels() && j < store.channel(x).hops() && store.channel(x).link(j) == l
}

// Whether a row comes after the one above it, channel `higher` with the delay `above`: by delay, then by channel number.
fn row_follows(above: u64, higher: usize, delay: u64, x: usize) -> bool
    ensures { result ≡ follows above higher delay x }
{
    (above, higher) < (delay, x)
}

// Whether the rows of link `l` are channels routed over it, in order, hold no more than is reserved for them, and fit its
// buffer together.
#[tactic(auto, using(crate::proofs::Laws::Walk::row_steps))]
fn link_rows_sound(store: &Fitting, l: usize) -> bool
    requires { l < links_of store.now }
    ensures { result ≡ rows_sound store.now l }
{
    let link = store.link(l);
    // the delay and the channel of the row above; a delay is at least 1, so that the first row comes after these
    let mut above: u64 = 0;
    let mut higher: usize = 0;
    let mut sum: u64 = 0;
    for k in 0..link.rows() {
        let x = link.row_channel(k);
        let j = link.row_place(k);
        if !row_stands(store, l, x, j) {
            return false;
        }
        let channel = store.channel(x);
        let delay = channel.delay(j);
        if !row_follows(above, higher, delay, x) {
            return false;
        }
        let reserved = store_route::reserved(&channel, j);
        let over = store_route::held(&channel, j) > reserved;
        if over {
            return false;
        }
        sum += reserved;
        above = delay;
        higher = x;
    }
    sum <= link.buffer()
}

// Whether those of every link are.
pub fn rows_sound(store: &Fitting) -> bool
    ensures { result ≡ every (rows_sound store.now) (links_of store.now) }
{
    (0..store.links()).all(|l| link_rows_sound(store, l))
}
