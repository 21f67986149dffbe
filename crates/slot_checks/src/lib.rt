// Whether a slot runs: document 01, "A slot", and refusals 17, 14 and 15. Nothing is written but the picks.
#![tactic(auto)]

ghost use Rattle.std.specs.Prelude.{◌≡◌, ◌<◌};
ghost use Rattle.store.specs.Layout.{links_of, hops_of, IsChannel};
ghost use Rattle.folds.specs.Folds.{every};
ghost use Rattle.slot_keeps.specs.Room.{leaves as leaves_at, takes_packet, room_after};
ghost use Rattle.slot_rules.specs.Slot.{slot_turn};
ghost use Rattle.slot_checks.specs.Left.{picks_left};

use kinds::{Network, Refusal, Slot};
use slot_pick::Picked;

// Whether a packet of channel `x` leaves place `j` of its route in this slot.
#[tactic(auto, using(slot_move::proofs::Rows::row_ready, slot_move::proofs::Rows::a_row))]
fn leaves(picked: &Picked, x: usize, j: usize) -> bool
    requires channel { IsChannel picked.now x }
    requires on_route { j < hops_of picked.now x }
    ensures { result ≡ leaves_at picked.now x j }
{
    let store = picked.store();
    let l = store.channel(x).link(j);
    let Some(k) = picked.pick(l) else {
        return false;
    };
    store.link(l).row_channel(k) == x
}

// Whether one more may come there: fewer are held than are reserved, or one leaves.
#[tactic(auto, using(slot_rules::proofs::Laws::Ready::ready))]
fn takes_packet(picked: &Picked, x: usize, j: usize) -> bool
    requires channel { IsChannel picked.now x }
    requires on_route { j < hops_of picked.now x }
    ensures { result ≡ takes_packet picked.now x j }
{
    let store = picked.store();
    let channel = store.channel(x);
    store_route::held(&channel, j) < store_route::reserved(&channel, j) || leaves(picked, x, j)
}

// Whether the packet that link `l` picked is on its last link, or has room on the next one.
#[tactic(auto, using(slot_move::proofs::Rows::row_ready, slot_move::proofs::Rows::a_row))]
fn room_after(picked: &Picked, l: usize) -> bool
    requires { l < links_of picked.now }
    ensures { result ≡ room_after picked.now l }
{
    let Some(k) = picked.pick(l) else {
        return true;
    };
    let store = picked.store();
    let link = store.link(l);
    let x = link.row_channel(k);
    let next = link.row_place(k) + 1;
    next >= store.channel(x).hops() || takes_packet(picked, x, next)
}

// 17, looked at last: whether every picked packet has room where it goes.
#[tactic(auto, using(slot_rules::proofs::Laws::Ready::ready))]
fn fits(picked: &Picked) -> bool
    ensures { result ≡ every (room_after picked.now) (links_of picked.now) }
{
    (0..picked.store().links()).all(|l| room_after(picked, l))
}

// How a slot ends, where the output has `size` numbers: checks 17, 14, 15 and 17, in this order. Once the first three are passed,
// `picks` are what the links have picked. They are lent, since in the answer they would be copied twice.
#[tactic(auto, using(slot_rules::proofs::Laws::Ready::ready, slot_keeps::proofs::Sound::moved_sound), unfolding(slot_rules::specs::Slot::slot_turn, checks::specs::Checks::first_failed))]
pub fn turn(
    store: &[u64],
    size: usize,
    picks: &mut [Option<usize>; Network::MOST_LINKS],
) -> Result<(), Refusal>
    ensures value { result ≡ slot_turn store.now size }
    ensures picks_after { picks.new ≡ picks_left store.now size picks.old }
{
    let sound = sound::check(store).ok_or(Refusal::NotSound)?;
    if sound.clock() >= Slot::END {
        return Err(Refusal::EndSlot);
    }
    if size < 5 * sound.links() {
        return Err(Refusal::OutShort);
    }
    *picks = slot_pick::picks(&sound);
    if !fits(&Picked::new(store, picks)) {
        return Err(Refusal::NotSound);
    }
    Ok(())
}
