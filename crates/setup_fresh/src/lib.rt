// The store of a network just set up. What the store held is not read; every number of it is written.
#![tactic(auto)]

ghost use Rattle.std.specs.Prelude.{◌≡◌, ◌+◌, ◌*◌, ◌≤◌, ◌<◌, length};
ghost use Rattle.kinds.specs.Ranges.{most_links};
ghost use Rattle.store.specs.Layout.{Long};
ghost use Rattle.setup_fresh.specs.Fresh.{zeroed, link_written, links_written};

use store::LENGTH;

// 0 everywhere. What lies beyond the store's length stays.
pub fn clear(store: &mut [u64])
    requires { Long store.old }
    ensures { store.new ≡ zeroed store.old }
{
    store[..LENGTH].fill(0);
}

// Link `l`'s four numbers, from the list into the store.
#[tactic(auto, unfolding(crate::specs::Fresh::link_written))]
fn put_link(store: &mut [u64], links: &[u64], l: usize)
    requires long { Long store.old }
    requires l_lt_most_links { l < most_links }
    requires l_in_bounds { 4 * l + 4 ≤ length links.now }
    ensures { store.new ≡ link_written store.old links.now l }
{
    let at = 4 * l;
    store::link::put_from(store, l, links[at]);
    store::link::put_to(store, l, links[at + 1]);
    store::link::put_horizon(store, l, links[at + 2]);
    store::link::put_buffer(store, l, links[at + 3]);
}

// The first `n` links.
#[tactic(auto, using(crate::proofs::Laws::Written::links_none, crate::proofs::Laws::Written::links_more))]
pub fn put_links(store: &mut [u64], links: &[u64], n: usize)
    requires long { Long store.old }
    requires n_le_most_links { n ≤ most_links }
    requires n_in_bounds { 4 * n ≤ length links.now }
    ensures { store.new ≡ links_written store.old links.now n }
{
    for l in 0..n {
        put_link(store, links, l);
    }
}
