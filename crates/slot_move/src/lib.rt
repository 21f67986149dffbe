// What a slot does once every link has picked: the sends go into the lent output, and the picked packets move on. Document 01,
// "A slot".
#![tactic(auto)]

ghost use Rattle.std.specs.Prelude.{◌≡◌, suc, ◌+◌, ◌*◌, ◌≤◌, ◌<◌, length};
ghost use Rattle.kinds.specs.Ranges.{most_links, most_rows, most_channels, most_hops, end_slot};
ghost use Rattle.store.specs.Layout.{Long, links_of, clock_of, row_channel_of, row_place_of, sent_of};
ghost use Rattle.slot_rules.specs.Pick.{pick_of};
ghost use Rattle.slot_rules.specs.Slot.{send_at, slot_sends, move_from, moved, written};
ghost use Rattle.slot_pick.specs.Picks.{Picks};
ghost use Rattle.slot_move.specs.Sends.{send_put, most_packets};

use kinds::Network;
use slot_pick::Picked;
use store::lent::{Lent, Sound};
use store::{channel, head, link};

// Send number `n` of the output, counted from 0: link `l` sends the packet of its row `k`.
#[tactic(auto, using(crate::proofs::Rows::row_ready))]
fn put_send(store: &Sound, out: &mut [u64], n: usize, slot: u64, l: usize, k: usize)
    requires clock { slot ≡ clock_of store.now }
    requires on_link { l < links_of store.now }
    requires picked { pick_of store.now l ≡ suc k }
    requires room { 5 * n + 5 ≤ length out.old }
    ensures { out.new ≡ send_put out.old (5 * n) (send_at store.now l
        (row_channel_of store.now l k) (row_place_of store.now l k)) }
{
    let link = store.link(l);
    let x = link.row_channel(k);
    let j = link.row_place(k);
    let channel = store.channel(x);
    let message = slot_packet::message(&channel, j) - 1;
    let packet = channel.sent(j) - channel.end(message);
    let at = 5 * n;
    out[at] = slot;
    out[at + 1] = l as u64;
    out[at + 2] = x as u64;
    out[at + 3] = message;
    out[at + 4] = packet;
}

// The sends, in link order, at the front of the output; how many there are.
#[tactic(auto, using(slot_rules::proofs::Laws::Ready::ready))]
pub fn report(picked: &Picked, out: &mut [u64]) -> usize
    requires { 5 * links_of picked.now ≤ length out.old }
    ensures value { result ≡ length (slot_sends picked.now) }
    ensures out_after { out.new ≡ written (slot_sends picked.now) out.old }
{
    let store = picked.store();
    let slot = store.clock();
    let mut n: usize = 0;
    for l in 0..store.links() {
        if let Some(k) = picked.pick(l) {
            put_send(&store, out, n, slot, l, k);
            n += 1;
        }
    }
    n
}

// The packet of row `k` of link `l` has moved on.
fn advance(store: &mut [u64], l: usize, k: usize)
    requires long { Long store.old }
    requires on_link { l < most_links }
    requires row { k < most_rows }
    requires channel { row_channel_of store.old l k < most_channels }
    requires place { row_place_of store.old l k < most_hops }
    requires packets { sent_of store.old (row_channel_of store.old l k) (row_place_of store.old l k) ≤ most_packets }
    ensures { store.new ≡ move_from store.old l (suc k) store.old }
{
    let link = link::Record::new(store, l);
    let x = link.row_channel(k);
    let j = link.row_place(k);
    let sent = channel::Record::new(store, x).sent(j);
    channel::put_sent(store, x, j, sent + 1);
}

// The picked packets have moved on, and the clock has risen by one. The picks stand beside the store, since it is written.
#[tactic(auto, using(slot_rules::proofs::Laws::Ready::ready))]
pub fn move_on(store: &mut [u64], picks: &[Option<usize>; Network::MOST_LINKS])
    requires picks { Picks store.old picks.now }
    requires before_end { clock_of store.old < end_slot }
    ensures { store.new ≡ moved store.old }
{
    let lent = Lent::new(store);
    let slot = lent.clock();
    let links = lent.links();
    for l in 0..links {
        if let Some(k) = picks[l] {
            advance(store, l, k);
        }
    }
    head::put_clock(store, slot + 1);
}
