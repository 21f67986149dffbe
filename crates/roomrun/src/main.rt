// roomrun: plays a script of requests and slots from standard input, and writes the listing of document 01 to standard output.
// Everything that is decided is decided by the steps of crate `script_run`, and said of them; here chunks are read, and what each
// step has put into the buffer is written out. docs/SCRIPT.md is the operator's reference.
#![tactic(auto)]

use script_listing::BUFFER;
use script_play::LINKS;
use script_run::{After, Run, Wants};
use std::io;
use std::io::Read;
use text_lines::KEPT;

// So many bytes are read at a time.
const CHUNK: usize = 65_536;

// Plays a chunk, step by step. An empty one is the end of the input.
fn play(
    rt: &impl Print,
    store: &mut [u64; store::LENGTH],
    links: &mut [u64; LINKS],
    text: &mut [u8; KEPT],
    chunk: &[u8],
    run: Run,
    out: &mut [u8; BUFFER],
) -> io::Result<After> {
    let mut before = run;
    loop {
        let after = script_run::step(store, links, text, chunk, before, out);
        before = after.run;
        rt.write_all(&out[..before.at])?;
        let Wants::Room = after.wants else {
            return Ok(after);
        };
    }
}

// A proved loop has to end, and nothing says that the input does: so the reads are counted, up to a number that no run uses
// up. A read that fails is not the end of the input.
fn main(rt: HostRuntime) -> io::Result<()> {
    let mut store = [0u64; store::LENGTH];
    let mut links = [0u64; LINKS];
    let mut text = [0u8; KEPT];
    let mut out = [0u8; BUFFER];
    let mut input = [0u8; CHUNK];
    let mut run = script_run::start();
    for _ in 0..u64::MAX {
        let Ok(n) = rt.stdin().read(&mut input) else {
            return eprintln!(rt; "roomrun: standard input cannot be read");
        };
        let after = play(
            &rt,
            &mut store,
            &mut links,
            &mut text,
            &input[..n],
            run,
            &mut out,
        )?;
        let Wants::Chunk = after.wants else {
            return Ok(());
        };
        run = after.run;
    }
    Ok(())
}
