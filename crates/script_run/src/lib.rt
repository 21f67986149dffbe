// A run of the program, step by step: a script comes in chunks, the listing goes out through a buffer, which is written out after
// each step. What a step puts into the buffer, and then what is still to be written, is what was to be written before it; so what
// all steps put there, one after the other, is the listing.
#![tactic(auto)]

ghost use Rattle.std.specs.Prelude.{◌≡◌, List, [], ◌∷◌, ◌++◌, ℕ, ◌≤◌, ◌<◌, None, length, take, drop};
ghost use Rattle.text_decimal.specs.Decimal.{Text};
ghost use Rattle.text_decimal.specs.Word.{line_feed};
ghost use Rattle.script_listing.specs.Buffer.{buffer_length, last_for_slot};
ghost use Rattle.text_lines.specs.Lines.{most_kept};
ghost use Rattle.script_run.specs.declared.Wants.TheVariants.{Room, Chunk, Nothing};
ghost use Rattle.script_run.specs.Run.{run_out, owed, start_run, Goes};

use script_listing::{BUFFER, LAST_FOR_SLOT};
use script_play::{LINKS, Phase};
use text_lines::KEPT;

// What is kept from step to step, beside the buffers: the phase, and the slots of a `tick` that come next; how many lines there
// have been, and how many bytes of the present one are kept; where the chunk goes on, and where the listing goes on in its buffer.
#[derive(Clone, Copy)]
pub struct Run {
    pub phase: Phase,
    pub next: Option<u64>,
    pub lines: u64,
    pub length: usize,
    pub from: usize,
    pub at: usize,
}

// What a run wants when the buffer has been written out: room for more of the same chunk; the next chunk, which is empty at the
// end of the script; or nothing, as it is over.
#[derive(Clone, Copy)]
pub enum Wants {
    Room,
    Chunk,
    Nothing,
}

// After a step: where the run stands, and what it wants.
#[derive(Clone, Copy)]
pub struct After {
    pub run: Run,
    pub wants: Wants,
}

// The slots of a `tick`, if they come next, piece by piece while the buffer has room.
fn slots(store: &mut [u64; store::LENGTH], run: Run, out: &mut [u8; BUFFER]) -> Run
    requires { run.at ≤ buffer_length }
    ensures same { (links text : List ℕ) → (rest : Text)
        → owed out.old run store.old links text rest
        ≡ owed out.new result store.new links text rest }
    ensures fits { result.at ≤ buffer_length }
    ensures line { (result.length ≡ run.length) × (result.from ≡ run.from) }
    ensures no_tick { result.at ≤ last_for_slot → result.next ≡ None }
{
    let mut after = run;
    while after.at <= LAST_FOR_SLOT {
        let Some(left) = after.next else {
            return after;
        };
        let ticked = script_tick::tick(store, left, out, after.at);
        after = Run {
            next: ticked.left,
            at: ticked.at,
            ..after
        };
    }
    after
}

// Plays the line that is kept: its line feed has come.
fn kept_line(
    store: &mut [u64; store::LENGTH],
    links: &mut [u64; LINKS],
    text: &[u8],
    run: Run,
    out: &mut [u8; BUFFER],
) -> Run
    requires no_tick { run.next ≡ None }
    requires kept { run.length ≤ length text.now }
    requires room { run.at ≤ last_for_slot }
    ensures same { (rest : Text)
        → owed out.old run store.old links.old text.now (line_feed ∷ rest)
        ≡ owed out.new result store.new links.new text.now rest }
    ensures fits { result.at ≤ buffer_length }
    ensures line { (result.length ≡ 0) × (result.from ≡ run.from) }
{
    let lines = run.lines.saturating_add(1);
    let played = script_play::line(
        store,
        links,
        run.phase,
        &text[..run.length],
        lines,
        out,
        run.at,
    );
    Run {
        phase: played.phase,
        next: played.next,
        lines,
        length: 0,
        at: played.at,
        ..run
    }
}

// The chunk's next line, or what the chunk has of it.
fn line(
    store: &mut [u64; store::LENGTH],
    links: &mut [u64; LINKS],
    text: &mut [u8; KEPT],
    chunk: &[u8],
    run: Run,
    out: &mut [u8; BUFFER],
) -> Run
    requires no_tick { run.next ≡ None }
    requires kept { run.length ≤ most_kept }
    requires inside { run.from < length chunk.now }
    requires room { run.at ≤ last_for_slot }
    ensures same { (more : Text)
        → owed out.old run store.old links.old text.old
        (drop run.from chunk.now ++ more)
        ≡ owed out.new result store.new links.new text.new
        (drop result.from chunk.now ++ more) }
    ensures fits { result.at ≤ buffer_length }
    ensures kept { result.length ≤ most_kept }
    ensures goes_on { (run.from < result.from) × (result.from ≤ length chunk.now) }
{
    let gathered = text_lines::gather(chunk, run.from, text, run.length);
    let kept = Run {
        length: gathered.length,
        from: gathered.at,
        ..run
    };
    if gathered.whole {
        return kept_line(store, links, text, kept, out);
    }
    kept
}

// The chunk's lines from where it goes on, until it is used up or the buffer is full.
fn lines(
    store: &mut [u64; store::LENGTH],
    links: &mut [u64; LINKS],
    text: &mut [u8; KEPT],
    chunk: &[u8],
    run: Run,
    out: &mut [u8; BUFFER],
) -> Run
    requires no_tick { run.at ≤ last_for_slot → run.next ≡ None }
    requires kept { run.length ≤ most_kept }
    requires fits { run.at ≤ buffer_length }
    ensures same { (more : Text)
        → owed out.old run store.old links.old text.old
        (drop run.from chunk.now ++ more)
        ≡ owed out.new result store.new links.new text.new
        (drop result.from chunk.now ++ more) }
    ensures fits { result.at ≤ buffer_length }
    ensures used { result.at ≤ last_for_slot → length chunk.now ≤ result.from }
{
    let mut after = run;
    while after.at <= LAST_FOR_SLOT && after.from < chunk.len() {
        after = line(store, links, text, chunk, after, out);
        after = slots(store, after, out);
    }
    after
}

// At the end of the input: a last line that lacks its line feed is played.
fn last_line(
    store: &mut [u64; store::LENGTH],
    links: &mut [u64; LINKS],
    text: &[u8; KEPT],
    run: Run,
    out: &mut [u8; BUFFER],
) -> Run
    requires no_tick { run.at ≤ last_for_slot → run.next ≡ None }
    requires kept { run.length ≤ most_kept }
    requires fits { run.at ≤ buffer_length }
    ensures same { owed out.old run store.old links.old text.now []
        ≡ owed out.new result store.new links.new text.now [] }
    ensures fits { result.at ≤ buffer_length }
    ensures no_line { result.at ≤ last_for_slot → (result.next ≡ None) × (result.length ≡ 0) }
{
    let nothing = run.length == 0;
    if nothing || run.at > LAST_FOR_SLOT {
        return run;
    }
    let after = kept_line(store, links, text, run, out);
    slots(store, after, out)
}

// At the end of the input: what is left of the script, and then its end.
fn end(
    store: &mut [u64; store::LENGTH],
    links: &mut [u64; LINKS],
    text: &[u8; KEPT],
    run: Run,
    out: &mut [u8; BUFFER],
) -> After
    requires no_tick { run.at ≤ last_for_slot → run.next ≡ None }
    requires kept { run.length ≤ most_kept }
    requires fits { run.at ≤ buffer_length }
    ensures same { owed out.old run store.old links.old text.now []
        ≡ owed out.new result.run store.new links.new text.now [] }
    ensures fits { result.run.at ≤ buffer_length }
    ensures full { result.wants ≡ Room → last_for_slot < length (take result.run.at out.new) }
    ensures no_chunk { result.wants ≡ Chunk → ⊥ }
    ensures over { result.wants ≡ Nothing → (rest : Text)
        → run_out result.run store.new links.new text.now rest ≡ [] }
{
    let after = last_line(store, links, text, run, out);
    if after.at > LAST_FOR_SLOT {
        return After {
            run: after,
            wants: Wants::Room,
        };
    }
    let phase = after.phase;
    let at = script_play::finish(store, links, phase, out, after.at);
    // nothing more is written, whatever steps follow, as after a refused set-up
    let over = Run {
        phase: Phase::Over,
        next: None,
        length: 0,
        from: 0,
        at,
        ..after
    };
    After {
        run: over,
        wants: Wants::Nothing,
    }
}

// The first of all steps begins here, with a store, links and a line of zeros.
pub fn start() -> Run
    ensures { result ≡ start_run }
{
    Run {
        phase: Phase::Before(0),
        next: None,
        lines: 0,
        length: 0,
        from: 0,
        at: 0,
    }
}

// A step begins with the rest of a tick, at the front of the buffer. No more bytes of a line are kept than there is room for.
fn begin(store: &mut [u64; store::LENGTH], text: &[u8], run: Run, out: &mut [u8; BUFFER]) -> Run
    ensures same { (links : List ℕ) → (rest : Text)
        → run_out run store.old links text.now rest
        ≡ owed out.new result store.new links text.now rest }
    ensures no_tick { result.at ≤ last_for_slot → result.next ≡ None }
    ensures kept { result.length ≤ length text.now }
    ensures fits { result.at ≤ buffer_length }
    ensures from { result.from ≡ run.from }
{
    let begun = Run {
        length: run.length.min(text.len()),
        at: 0,
        ..run
    };
    slots(store, begun, out)
}

// Plays on from the chunk's next byte, or from where the buffer was full, as far as the chunk goes or the buffer has room. An
// empty chunk is the end of the input.
pub fn step(
    store: &mut [u64; store::LENGTH],
    links: &mut [u64; LINKS],
    text: &mut [u8; KEPT],
    chunk: &[u8],
    run: Run,
    out: &mut [u8; BUFFER],
) -> After
    ensures goes { Goes chunk.now
        (record { run = run; store = store.old; links = links.old; text = text.old })
        (take result.run.at out.new)
        (record { run = result.run; store = store.new; links = links.new; text = text.new })
        result.wants }
    ensures fits { result.run.at ≤ buffer_length }
{
    let begun = begin(store, text, run, out);
    if chunk.is_empty() {
        return end(store, links, text, begun, out);
    }
    let after = lines(store, links, text, chunk, begun, out);
    if after.at > LAST_FOR_SLOT {
        return After {
            run: after,
            wants: Wants::Room,
        };
    }
    After {
        run: Run { from: 0, ..after },
        wants: Wants::Chunk,
    }
}
