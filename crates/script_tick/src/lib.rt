// A `tick` line: slots are run, one after the other, and their sends written. A tick may write more than the buffer holds, so it
// is run piece by piece. Slots in which nothing can be sent are skipped, however many there are.
#![tactic(auto)]

ghost use Rattle.std.specs.Prelude.{◌≡◌, ◌++◌, ◌≤◌, ◌<◌, take, IfSome};
ghost use Rattle.text_decimal.specs.Put.{part_of};
ghost use Rattle.script_listing.specs.Buffer.{buffer_length, last_for_slot};
ghost use Rattle.script_tick.specs.Tick.{Goes, tick_out, tick_store, rest_out, rest_store};

use kinds::Network;
use script_listing::{BUFFER, LAST_FOR_SLOT};
use store::lent::Lent;

// Where the listing goes on in the buffer, and how many slots are left.
#[derive(Drop)]
struct Stepped {
    at: usize,
    left: u64,
}

// The same of a piece of a tick. Where the tick is over, with its `slot` line, no slots are left: `None`.
#[derive(Clone, Copy)]
pub struct Ticked {
    pub at: usize,
    pub left: Option<u64>,
}

// One slot, and after one that sent nothing those in which nothing can be sent; a slot that is refused is the last.
fn step(store: &mut [u64; store::LENGTH], left: u64, out: &mut [u8; BUFFER], at: usize) -> Stepped
    requires some { 0 < left }
    requires room { at ≤ last_for_slot }
    ensures { Goes store.old left out.old at store.new result.left out.new result.at }
{
    let mut numbers = [0u64; 5 * Network::MOST_LINKS];
    let mut number: u64 = 0;
    let mut place: u64 = 0;
    let sends = slot::slot(store, &mut numbers, &mut number, &mut place);
    if number != 0 {
        let end = script_listing::line(out, at, b"refused", &[number, place]);
        return Stepped { at: end, left: 0 };
    }
    let rest = left - 1;
    let count = sends.len() / 5;
    if count == 0 {
        let Ok(skipped) = slot_wait::skip(store, rest) else {
            return Stepped { at, left: rest }; // nothing is moved on; the next slot is refused too, and says why
        };
        let later = rest - skipped;
        return Stepped { at, left: later };
    }
    let end = script_listing::sends(out, at, sends, count);
    Stepped {
        at: end,
        left: rest,
    }
}

// Runs slots until the tick is over or the buffer is full. What this writes, and then what the rest of the tick writes, is what
// the tick writes.
pub fn tick(
    store: &mut [u64; store::LENGTH],
    slots: u64,
    out: &mut [u8; BUFFER],
    at: usize,
) -> Ticked
    requires { at ≤ last_for_slot }
    ensures listed { tick_out store.old slots
        ≡ part_of out.new at result.at ++ rest_out result.left store.new }
    ensures stored { tick_store store.old slots ≡ rest_store result.left store.new }
    ensures front { take at out.new ≡ take at out.old }
    ensures within { (at ≤ result.at) × (result.at ≤ buffer_length) }
    ensures fewer { IfSome result.left (λ left. left < slots) }
{
    let mut end = at;
    let mut left = slots;
    while end <= LAST_FOR_SLOT {
        let over = left == 0;
        if over {
            let last = script_listing::line(out, end, b"slot", &[Lent::new(store).clock()]);
            return Ticked {
                at: last,
                left: None,
            };
        }
        let stepped = step(store, left, out, end);
        end = stepped.at;
        left = stepped.left;
    }
    Ticked {
        at: end,
        left: Some(left),
    }
}
