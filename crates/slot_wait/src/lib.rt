// Long waits: how many slots from now no link can send in, and the clock moved on over them.
#![tactic(auto)]

ghost use Rattle.std.specs.Prelude.{◌≡◌, ◌<◌};
ghost use Rattle.store.specs.Layout.{links_of};
ghost use Rattle.slot_rules.specs.Idle.{idle_answer, skip_answer, skip_store};
ghost use Rattle.slot_wait.specs.Least.{least_on};

use kinds::{Refusal, Slot};
use store::head;
use store::lent::{Lent, Sound};

// The smaller of `most` and how long link `l` has to wait.
#[tactic(auto, using(slot_rules::proofs::Laws::Ready::ready, crate::proofs::Least::least_none))]
fn wait_on(store: &Sound, l: usize, most: u64) -> u64
    requires { l < links_of store.now }
    ensures { result ≡ least_on store.now l most }
{
    let link = store.link(l);
    let reach = store.clock() + link.horizon();
    let mut least = most;
    for k in 0..link.rows() {
        let x = link.row_channel(k);
        let j = link.row_place(k);
        let channel = store.channel(x);
        if channel.sent(j) < store_route::entered(&channel, j) {
            // 0 if that is past
            let wait = slot_packet::logical(&channel, j).saturating_sub(reach);
            least = least.min(wait);
        }
    }
    least
}

// How many slots from now no link can send in, one after the other, if nothing is offered; or why no slot runs: 17 and 14, in
// this order. Any numbers, and any length.
#[tactic(auto, using(slot_rules::proofs::Laws::Ready::ready, crate::proofs::Least::least_links, crate::proofs::Least::least_more, crate::proofs::Least::idle_least), unfolding(slot_rules::specs::Idle::idle_answer, checks::specs::Checks::first_failed))]
pub fn idle(store: &[u64]) -> Result<u64, Refusal>
    ensures { result ≡ idle_answer store.now }
{
    let sound = sound::check(store).ok_or(Refusal::NotSound)?;
    let clock = sound.clock();
    let ended = clock >= Slot::END;
    if ended {
        return Err(Refusal::EndSlot);
    }
    let mut least = Slot::END - clock;
    for l in 0..sound.links() {
        least = wait_on(&sound, l, least);
    }
    Ok(least)
}

// The clock moves on over `n` of them, or as many as there are: how many. The refusals are the same, and leave the store alone.
pub fn skip(store: &mut [u64], n: u64) -> Result<u64, Refusal>
    ensures value { result ≡ skip_answer store.old n }
    ensures store_after { store.new ≡ skip_store store.old n }
{
    let most = idle(store)?;
    let slots = n.min(most);
    let clock = Lent::new(store).clock();
    head::put_clock(store, clock + slots);
    Ok(slots)
}
