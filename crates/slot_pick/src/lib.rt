// Which packet each link picks in a slot: document 01, "A slot". Nothing is written.
#![tactic(auto)]

ghost use Rattle.std.specs.Prelude.{◌≡◌, ◌<◌};
ghost use Rattle.store.specs.Layout.{links_of};
ghost use Rattle.slot_rules.specs.Pick.{pick_from, pick_of, row_of};
ghost use Rattle.slot_pick.specs.Picks.{picks_to, Picks};
ghost use Rattle.slot_pick.specs.Rows.{goes_first, position_of, Timed};

use kinds::Network;
use std::marker::Model;
use store::lent::Sound;

// A row that may be picked, with its key (a deadline or a logical time) and its channel.
#[derive(Clone, Copy)]
struct Candidate {
    row: usize,
    key: u64,
    channel: usize,
}

impl Candidate {
    // Whether it goes before the best one so far: by the key, "ties to the lower channel number".
    fn goes_before(self, best: Option<Candidate>) -> bool
        ensures { result ≡ goes_first self best }
    {
        let Some(best) = best else {
            return true;
        };
        self.key < best.key || (self.key == best.key && self.channel < best.channel)
    }
}

// The current packet with the earliest deadline, `due`; with none, the early one with the least logical time, `soon`, if that is
// within the horizon.
#[tactic(auto, using(slot_rules::proofs::Laws::Ready::ready))]
fn chosen(store: &Sound, l: usize, due: Option<Candidate>, soon: Option<Candidate>) -> Option<usize>
    requires on_link { l < links_of store.now }
    requires timed { Timed store.now l soon }
    ensures { result ≡ row_of (pick_from store.now l (position_of due) (position_of soon)) }
{
    if let Some(first) = due {
        return Some(first.row);
    }
    let first = soon?;
    let last = store.clock() + store.link(l).horizon();
    let near = first.key <= last;
    if near { Some(first.row) } else { None }
}

// The row of link `l` whose packet is picked, if any is.
#[tactic(auto, using(slot_rules::proofs::Laws::Ready::ready))]
pub fn pick(store: &Sound, l: usize) -> Option<usize>
    requires { l < links_of store.now }
    ensures { result ≡ row_of (pick_of store.now l) }
{
    let now = store.clock();
    let link = store.link(l);
    // so far, the current packet with the earliest deadline, and the early one with the least logical time
    let mut due: Option<Candidate> = None;
    let mut soon: Option<Candidate> = None;
    for k in 0..link.rows() {
        let x = link.row_channel(k);
        let j = link.row_place(k);
        let channel = store.channel(x);
        if channel.sent(j) < store_route::entered(&channel, j) {
            let logical = slot_packet::logical(&channel, j);
            if logical > now {
                let next = Candidate {
                    row: k,
                    key: logical,
                    channel: x,
                };
                if next.goes_before(soon) {
                    soon = Some(next);
                }
            } else {
                let deadline = logical + channel.delay(j);
                let next = Candidate {
                    row: k,
                    key: deadline,
                    channel: x,
                };
                if next.goes_before(due) {
                    due = Some(next);
                }
            }
        }
    }
    chosen(store, l, due, soon)
}

// What each link picks; none where there is no link.
#[tactic(auto, using(slot_rules::proofs::Laws::Ready::ready, crate::proofs::Laws::picks_none, crate::proofs::Laws::picks_more))]
pub fn picks(store: &Sound) -> [Option<usize>; Network::MOST_LINKS]
    ensures { result ≡ picks_to store.now (links_of store.now) }
{
    let mut picked = [None; Network::MOST_LINKS];
    for l in 0..store.links() {
        picked[l] = pick(store, l);
    }
    picked
}

// A sound store and what its links pick. In a clause it is the numbers of the store.
#[derive(Drop)]
pub struct Picked<'a> {
    numbers: &'a [u64],
    picks: &'a [Option<usize>; Network::MOST_LINKS],
}

impl<'a> Model for Picked<'a> {
    ghost use Rattle.std.specs.Prelude.{List, ℕ};
    ghost use Rattle.slot_pick.specs.Picks.{Picks};

    ghost Value = { List ℕ };

    ghost view = { λ s. s.numbers.now };

    ghost invariant = { λ s. Picks s.numbers.now s.picks.now };
}

impl<'a> Picked<'a> {
    pub fn new(numbers: &'a [u64], picks: &'a [Option<usize>; Network::MOST_LINKS]) -> Picked<'a>
        requires { Picks numbers.now picks.now }
        ensures { result ≡ numbers.now }
    {
        Picked { numbers, picks }
    }

    pub fn store(&self) -> Sound<'_>
        ensures { result ≡ self.now }
    {
        Sound::new(self.numbers)
    }

    // The row of link `l` whose packet it picked, if any is.
    pub fn pick(&self, l: usize) -> Option<usize>
        requires { l < links_of self.now }
        ensures { result ≡ row_of (pick_of self.now l) }
    {
        // by a name, since with it what the type says is known, and that bounds `l`
        let picks = self.picks;
        picks[l]
    }
}
