// Running a slot: document 01, "A slot". First it is found out whether the slot runs; then the sends go into the lent output, and
// the picked packets move on.
#![tactic(auto)]

ghost use Rattle.std.specs.Prelude.{◌≡◌, length};
ghost use Rattle.slot_rules.specs.Slot.{numbers, slot_number, slot_place, slot_sent, slot_store, slot_out};

use kinds::Network;
use slot_pick::Picked;

// Runs a slot, or refuses and leaves the store and the output alone: how many packets were sent. The sends stand at the front of
// `out`, five numbers each; `number` and `place` are those of the refusal, 0 and 0 if the slot ran.
pub fn run(store: &mut [u64], out: &mut [u64], number: &mut u64, place: &mut u64) -> usize
    ensures value { result ≡ length (slot_sent store.old (length out.old)) }
    ensures store_after { store.new ≡ slot_store store.old (length out.old) }
    ensures out_after { out.new ≡ slot_out store.old out.old }
    ensures number_after { number.new ≡ slot_number store.old (length out.old) }
    ensures place_after { place.new ≡ slot_place store.old (length out.old) }
{
    let mut picks = [None; Network::MOST_LINKS];
    match slot_checks::turn(store, out.len(), &mut picks) {
        Ok(()) => {
            *number = 0;
            *place = 0;
            let sends = slot_move::report(&Picked::new(store, &picks), out);
            slot_move::move_on(store, &picks);
            sends
        }
        Err(refusal) => {
            *number = refusal.number();
            *place = refusal.place();
            0
        }
    }
}

// The public call: the same, and the sends come back as the front part of `out`. What the call above says of the rest of `out`
// cannot be said here: the part that is given back keeps all of `out` lent.
pub fn slot<'a>(
    store: &mut [u64],
    out: &'a mut [u64],
    number: &mut u64,
    place: &mut u64,
) -> &'a mut [u64]
    ensures result_value { result.now ≡ numbers (slot_sent store.old (length out.old)) }
    ensures store_after { store.new ≡ slot_store store.old (length out.old) }
    ensures number_after { number.new ≡ slot_number store.old (length out.old) }
    ensures place_after { place.new ≡ slot_place store.old (length out.old) }
{
    let sends = run(store, out, number, place);
    &mut out[..5 * sends]
}
