// What a line of a script does, and what it writes into the listing.
#![tactic(auto)]

ghost use Rattle.std.specs.Prelude.{◌≡◌, [], ◌+◌, ◌≤◌, length};
ghost use Rattle.text_decimal.specs.Put.{put_at};
ghost use Rattle.script_listing.specs.Buffer.{last_for_line, last_for_slot};
ghost use Rattle.script_line.specs.Line.{most_numbers};
ghost use Rattle.script_answer.specs.Answer.{asks_of};
ghost use Rattle.script_play.specs.Play.{answered, started, links_length, kept, counted, link_heard};
ghost use Rattle.script_play.specs.Play.{links_heard, played, played_links, ended};
ghost use Rattle.script_play.specs.At.{played_at};

use kinds::Network;
use script_line::{Line, MOST_NUMBERS};
use script_listing::BUFFER;

// How far a run has come: so many good `link` lines before set-up; running; or over, its set-up refused.
#[derive(Clone, Copy)]
pub enum Phase {
    Before(usize),
    Running,
    Over,
}

// After a line: the phase, what comes next, and where the listing goes on in the buffer.
#[derive(Clone, Copy)]
pub struct Played {
    pub phase: Phase,
    pub next: Option<u64>, // so many slots of a `tick` come before the next line
    pub at: usize,
}

// More links than a network may have are refused, whichever they are: one more is kept. A link is four numbers.
const KEPT: usize = Network::MOST_LINKS + 1;

pub const LINKS: usize = 4 * KEPT;

// A line of a running room, but for the slots of a `tick`.
fn answer_line(
    store: &mut [u64; store::LENGTH],
    asked: Line,
    numbers: &[u64; MOST_NUMBERS],
    count: u64,
    out: &mut [u8; BUFFER],
    at: usize,
) -> Played
    requires few { asks_of asked ≤ most_numbers }
    requires room { at ≤ last_for_line }
    ensures value { result ≡ played_at at (answered store.old asked numbers.now count) }
    ensures store_after { store.new ≡ (answered store.old asked numbers.now count).store }
    ensures out_after { out.new
        ≡ put_at out.old at (answered store.old asked numbers.now count).out }
{
    let end = script_answer::answer(store, asked, numbers, count, out, at);
    let next = match asked {
        Line::Tick => Some(numbers[0]),
        _ => None,
    };
    Played {
        phase: Phase::Running,
        next,
        at: end,
    }
}

// Sets up the network of the `link` lines so far.
#[tactic(auto, using(crate::proofs::Links::looked), unfolding(crate::specs::Play::started))]
fn set_up(
    store: &mut [u64; store::LENGTH],
    links: &[u64],
    n: usize,
    out: &mut [u8],
    at: usize,
) -> Played
    requires whole { length links.now ≡ links_length }
    requires room { at + 50 ≤ length out.old }
    ensures value { result ≡ played_at at (started store.old links.now n) }
    ensures store_after { store.new ≡ (started store.old links.now n).store }
    ensures out_after { out.new ≡ put_at out.old at (started store.old links.now n).out }
{
    match setup::set_up(store, &links[..4 * n.min(KEPT)]) {
        Ok(()) => {
            let end = script_listing::line(out, at, b"links", &[n as u64]);
            Played {
                phase: Phase::Running,
                next: None,
                at: end,
            }
        }
        Err(refusal) => {
            let end = script_answer::put_refused(out, at, refusal.number(), refusal.place());
            Played {
                phase: Phase::Over,
                next: None,
                at: end,
            }
        }
    }
}

// Keeps a good `link` line's numbers: how many links there are now.
fn keep(links: &mut [u64], n: usize, numbers: &[u64]) -> usize
    requires whole { length links.old ≡ links_length }
    requires four { 4 ≤ length numbers.now }
    ensures value { result ≡ counted n }
    ensures links_after { links.new ≡ kept links.old n numbers.now }
{
    if n >= KEPT {
        return n;
    }
    links[4 * n..4 * n + 4].copy_from_slice(&numbers[..4]);
    n + 1
}

// A `link` line before set-up.
#[tactic(auto, using(text_decimal::proofs::Laws::Put::put_none))]
fn hear_link(
    links: &mut [u64; LINKS],
    n: usize,
    asked: Line,
    numbers: &[u64; MOST_NUMBERS],
    count: u64,
    out: &mut [u8; BUFFER],
    at: usize,
) -> Played
    requires { at ≤ last_for_line }
    ensures value { result ≡ played_at at (link_heard [] n asked count) }
    ensures links_after { links.new ≡ links_heard links.old n asked numbers.now }
    ensures out_after { out.new ≡ put_at out.old at (link_heard [] n asked count).out }
{
    if let Line::Link = asked {
        let now = keep(links, n, numbers);
        return Played {
            phase: Phase::Before(now),
            next: None,
            at,
        };
    }
    let end = script_answer::put_bad(out, at, count);
    Played {
        phase: Phase::Before(n),
        next: None,
        at: end,
    }
}

// Plays a line, the `count`th of the script, but for the slots of a `tick`.
#[tactic(auto, using(crate::proofs::Front::as_read), unfolding(crate::specs::Play::played, crate::specs::Play::played_links))]
pub fn line(
    store: &mut [u64; store::LENGTH],
    links: &mut [u64; LINKS],
    phase: Phase,
    text: &[u8],
    count: u64,
    out: &mut [u8; BUFFER],
    at: usize,
) -> Played
    requires { at ≤ last_for_slot }
    ensures value { result ≡ played_at at (played phase store.old links.old text.now count) }
    ensures store_after { store.new
        ≡ (played phase store.old links.old text.now count).store }
    ensures links_after { links.new ≡ played_links phase links.old text.now }
    ensures out_after { out.new ≡ put_at out.old at
        (played phase store.old links.old text.now count).out }
{
    let mut numbers = [0u64; MOST_NUMBERS];
    let asked = script_line::read(text, &mut numbers);
    match phase {
        Phase::Over => Played {
            phase,
            next: None,
            at,
        },
        Phase::Running => answer_line(store, asked, &numbers, count, out, at),
        Phase::Before(n) => {
            if script_line::is_link(text) {
                return hear_link(links, n, asked, &numbers, count, out, at);
            }
            let started = set_up(store, links, n, out, at);
            let Phase::Running = started.phase else {
                return started;
            };
            answer_line(store, asked, &numbers, count, out, started.at)
        }
    }
}

// The end of the script: the network is set up if no line has done so. Where the listing ends.
#[tactic(auto, using(text_decimal::proofs::Laws::Put::put_none), unfolding(crate::specs::Play::ended))]
pub fn finish(
    store: &mut [u64; store::LENGTH],
    links: &[u64; LINKS],
    phase: Phase,
    out: &mut [u8; BUFFER],
    at: usize,
) -> usize
    requires { at ≤ last_for_slot }
    ensures value { result ≡ at + length (ended phase store.old links.now).out }
    ensures store_after { store.new ≡ (ended phase store.old links.now).store }
    ensures out_after { out.new
        ≡ put_at out.old at (ended phase store.old links.now).out }
{
    match phase {
        Phase::Before(n) => set_up(store, links, n, out, at).at,
        Phase::Running | Phase::Over => at,
    }
}
