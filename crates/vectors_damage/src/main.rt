// Sound stores, damaged one number at a time: that of document 01's listing just set up, and the same three slots on. For
// every number of the store whose value matters a line is printed: its place, its value, and whether the store is still
// sound (+) or not (-) with one more, with one less, with 0 and with the largest number there. tests/programs/store.rs works
// each line out again.
#![tactic(auto)]

ghost use Rattle.std.specs.Prelude.{◌<◌};
ghost use Rattle.kinds.specs.Ranges.{most_links, most_channels, most_hops, most_rows};
ghost use Rattle.store.specs.Layout.{Long};

use std::io;
use store::{channel, head, link};

// A channel's numbers.
fn put_numbers(store: &mut [u64], x: usize, packets: u64, p: u64, d: u64, b: u64)
    requires long { Long store.old }
    requires x_lt_most_channels { x < most_channels }
    ensures { Long store.new }
{
    channel::put_c(store, x, packets);
    channel::put_p(store, x, p);
    channel::put_d(store, x, d);
    channel::put_b(store, x, b);
}

// Place `j` of a channel's route: its link, the delay there, and how many packets were sent.
fn put_place(store: &mut [u64], x: usize, j: usize, l: usize, delay: u64, sent: u64)
    requires long { Long store.old }
    requires x_lt_most_channels { x < most_channels }
    requires j_lt_most_hops { j < most_hops }
    ensures { Long store.new }
{
    channel::put_hops(store, x, j + 1);
    channel::put_route(store, x, j, l);
    channel::put_delay(store, x, j, delay);
    channel::put_sent(store, x, j, sent);
}

fn put_row(store: &mut [u64], l: usize, k: usize, x: usize, j: usize)
    requires long { Long store.old }
    requires l_lt_most_links { l < most_links }
    requires k_lt_most_rows { k < most_rows }
    ensures { Long store.new }
{
    link::put_rows(store, l, k + 1);
    link::put_row_channel(store, l, k, x);
    link::put_row_place(store, l, k, j);
}

// Message `n` of a channel, the last one.
fn put_message(store: &mut [u64], x: usize, n: u64, time: u64, end: u64)
    requires long { Long store.old }
    requires x_lt_most_channels { x < most_channels }
    ensures { Long store.new }
{
    channel::put_messages(store, x, n);
    channel::put_time(store, x, n, time);
    channel::put_end(store, x, n, end);
}

fn put_first_channel(store: &mut [u64])
    requires { Long store.old }
    ensures { Long store.new }
{
    put_numbers(store, 0, 2, 10, 8, 2);
    put_place(store, 0, 0, 0, 4, 2);
    put_place(store, 0, 1, 1, 4, 0);
}

fn put_other_channels(store: &mut [u64])
    requires { Long store.old }
    ensures { Long store.new }
{
    put_numbers(store, 1, 3, 12, 6, 1);
    put_place(store, 1, 0, 0, 6, 1);
    put_numbers(store, 2, 1, 5, 4, 1);
    put_place(store, 2, 0, 1, 4, 0);
}

fn put_rows(store: &mut [u64])
    requires { Long store.old }
    ensures { Long store.new }
{
    put_row(store, 0, 0, 0, 0);
    put_row(store, 0, 1, 1, 0);
    put_row(store, 1, 0, 0, 1);
    put_row(store, 1, 1, 2, 0);
}

fn put_messages(store: &mut [u64])
    requires { Long store.old }
    ensures { Long store.new }
{
    head::put_clock(store, 3);
    put_message(store, 0, 1, 0, 2);
    put_message(store, 0, 2, 10, 4);
    put_message(store, 1, 1, 0, 3);
}

// From the links of the listing to its channels, four offers made, three slots on.
fn fill(store: &mut [u64]) {
    if store.len() < store::LENGTH {
        return;
    }
    head::put_channels(store, 3);
    put_first_channel(store);
    put_other_channels(store);
    put_rows(store);
    put_messages(store);
}

// Whether the store is sound with another value at one place; the store is then as before.
fn is_sound_with(store: &mut [u64], at: usize, value: u64) -> bool {
    if at >= store.len() {
        return false;
    }
    let old = store[at];
    store[at] = value;
    let sound = sound::is_sound(store);
    store[at] = old;
    sound
}

fn print_verdict(rt: &impl Print, sound: bool) -> io::Result<()> {
    if sound {
        rt.write_all(b" +")
    } else {
        rt.write_all(b" -")
    }
}

fn print_line(rt: &impl Print, at: usize, value: u64, verdicts: &[bool]) -> io::Result<()> {
    rt.print(at as u64)?;
    rt.write_all(b" ")?;
    rt.print(value)?;
    for sound in verdicts {
        print_verdict(rt, *sound)?;
    }
    rt.write_all(b"\n")
}

// Damages one number, and prints its line if that can be seen.
fn damage(rt: &impl Print, store: &mut [u64], at: usize) -> io::Result<bool> {
    if at >= store.len() {
        return Ok(false);
    }
    let value = store[at];
    let verdicts = [
        is_sound_with(store, at, value.saturating_add(1)),
        is_sound_with(store, at, value.saturating_sub(1)),
        is_sound_with(store, at, 0),
        is_sound_with(store, at, u64::MAX),
    ];
    if verdicts.iter().all(|sound| *sound) {
        return Ok(false);
    }
    print_line(rt, at, value, &verdicts)?;
    Ok(true)
}

// Damages every number, and returns how many of them matter.
fn damage_all(rt: &impl Print, store: &mut [u64]) -> io::Result<u64> {
    let mut matter = 0;
    for at in 0..store.len() {
        if damage(rt, store, at)? {
            matter += 1;
        }
    }
    Ok(matter)
}

fn show(rt: &impl Print, store: &mut [u64]) -> io::Result<()> {
    rt.write_all(b"sound")?;
    print_verdict(rt, sound::is_sound(store))?;
    rt.write_all(b"\n")?;
    let matter = damage_all(rt, store)?;
    rt.write_all(b"numbers that matter ")?;
    rt.print(matter)?;
    rt.write_all(b"\n")
}

fn main(rt: HostRuntime) -> io::Result<()> {
    let mut store = [0u64; store::LENGTH];
    let _answer = setup::set_up(&mut store, &[0, 1, 0, 64, 1, 2, 0, 64]);
    show(&rt, &mut store)?;
    fill(&mut store);
    show(&rt, &mut store)
}
