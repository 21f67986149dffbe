// Network set-up: document 01, refusals 16 and 17.
#![tactic(auto)]

ghost use Rattle.std.specs.Prelude.{◌≡◌};
ghost use Rattle.setup.specs.SetUp.{set_up_answer, set_up_store};

use kinds::{Network, Refusal};
use store::LENGTH;

// The public call: sets a network up in the lent store, or refuses and leaves the store alone.
#[tactic(auto, using(crate::proofs::Laws::Answer::links_looked_at), unfolding(crate::specs::SetUp::set_up_answer, crate::specs::SetUp::set_up_store, setup_fresh::specs::Fresh::fresh_store))]
pub fn set_up(store: &mut [u64], links: &[u64]) -> Result<(), Refusal>
    ensures value { result ≡ set_up_answer store.old links.now }
    ensures store_after { store.new ≡ set_up_store store.old links.now }
{
    let n = setup_list::links_in(links);
    if !Network::links_fit(n) {
        return Err(Refusal::BadLinks(0));
    }
    if let Some(l) = setup_list::bad_link(links, n) {
        return Err(Refusal::BadLinks(l as u64));
    }
    if store.len() < LENGTH {
        return Err(Refusal::NotSound);
    }
    setup_fresh::clear(store);
    store::head::put_links(store, n);
    setup_fresh::put_links(store, links, n);
    Ok(())
}
