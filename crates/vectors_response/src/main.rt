// Worked responses: each line is a question to the response-time calculation and the library's answer.
// tests/programs/response.rs works out every answer again from the question that stands on its line.
#![tactic(auto)]

ghost use Rattle.std.specs.Prelude.{◌≤◌};

use kinds::{Link, Refusal};
use response::{Answer, Row};
use std::io;

fn print_number(rt: &impl Print, label: &[u8], n: u64) -> io::Result<()> {
    rt.write_all(label)?;
    rt.print(n)
}

fn print_next(rt: &impl Print, n: u64) -> io::Result<()> {
    print_number(rt, b" ", n)
}

fn print_all(rt: &impl Print, table: &[u64]) -> io::Result<()> {
    for n in table {
        print_next(rt, *n)?;
    }
    Ok(())
}

fn print_answer(rt: &impl Print, answer: Answer) -> io::Result<()> {
    match answer.response {
        Some(r) => {
            print_number(rt, b" : response ", r)?;
            print_number(rt, b" trials ", answer.trials)
        }
        None => print_number(rt, b" : none trials ", answer.trials),
    }
}

fn print_reply(rt: &impl Print, reply: Result<Answer, Refusal>) -> io::Result<()> {
    match reply {
        Ok(answer) => print_answer(rt, answer),
        Err(refusal) => {
            print_number(rt, b" : refused ", refusal.number())?;
            print_next(rt, refusal.place())
        }
    }
}

// One line: the question and its answer.
fn work(rt: &impl Print, table: &[u64], own: u64, limit: u64) -> io::Result<()> {
    print_number(rt, b"own ", own)?;
    print_number(rt, b" limit ", limit)?;
    rt.write_all(b" table")?;
    print_all(rt, table)?;
    print_reply(rt, response::response_alone(table, own, limit))?;
    rt.write_all(b"\n")
}

// Document 01's figures: 6, 7, 9, 10, 10 is the first, and no limit below 10 lets it through.
fn figures(rt: &impl Print) -> io::Result<()> {
    work(rt, &[1, 4, 2, 2, 6, 3], 3, 10)?;
    work(rt, &[1, 4, 2, 2, 6, 3], 3, 9)?;
    work(rt, &[1, 4, 2, 2, 6, 3], 3, 6)?;
    work(rt, &[1, 4, 2, 2, 6, 3], 3, 5)?;
    work(rt, &[1, 2, 2], 1, 2)?;
    work(rt, &[1, 2, 2], 1, 1)?;
    work(rt, &[1, 2, 2, 1, 2, 2], 1, 2)?;
    work(rt, &[1, 2, 2, 1, 2, 2], 1, 60_000)
}

fn print_row(rt: &impl Print, row: Row) -> io::Result<()> {
    print_next(rt, row.c)?;
    print_next(rt, row.p)?;
    print_next(rt, row.delay)
}

// The same figure asked for in the table form: an array of rows, two of them in use.
fn figure_in_rows(rt: &impl Print) -> io::Result<()> {
    let mut rows = [Row {
        c: 1,
        p: 4,
        delay: 2,
    }; 32];
    rows[1] = Row {
        c: 2,
        p: 6,
        delay: 3,
    };
    print_number(rt, b"own ", 3)?;
    print_number(rt, b" limit ", 10)?;
    rt.write_all(b" table")?;
    print_row(rt, rows[0])?;
    print_row(rt, rows[1])?;
    print_reply(rt, response_table::response_of_table(rows, 2, 3, 10))?;
    rt.write_all(b"\n")
}

// No row above, one row, a few rows.
fn small_links(rt: &impl Print) -> io::Result<()> {
    work(rt, &[], 1, 1)?;
    work(rt, &[], 200, 200)?;
    work(rt, &[], 200, 199)?;
    work(rt, &[200, 60_000, 60_000], 1, 60_000)?;
    work(rt, &[200, 200, 200], 200, 60_000)?;
    work(rt, &[200, 201, 201], 200, 60_000)?;
    work(rt, &[1, 3, 3, 1, 5, 5, 1, 7, 7], 5, 100)?;
    work(rt, &[1, 3, 3, 1, 5, 5, 2, 7, 7], 5, 100)?;
    work(rt, &[3, 20, 20, 5, 30, 30, 8, 50, 50, 2, 11, 11], 7, 500)?;
    work(
        rt,
        &[12, 100, 0, 34, 300, 18_446_744_073_709_551_615],
        17,
        777,
    )
}

// As many equal rows as asked for, at most 33, above a channel with one packet.
fn equal_rows(rt: &impl Print, rows: usize, c: u64, p: u64) -> io::Result<()>
    requires { rows ≤ 33 }
{
    let mut table = [0u64; 3 * Link::MOST_ROWS + 3];
    for row in table.chunks_exact_mut(3) {
        row[0] = c;
        row[1] = p;
        row[2] = p;
    }
    work(rt, &table[..3 * rows], 1, 60_000)
}

// Full tables: lightly loaded, nearly full, full, over full; and one row too many.
fn full_links(rt: &impl Print) -> io::Result<()> {
    equal_rows(rt, 32, 1, 64)?;
    equal_rows(rt, 32, 1, 33)?;
    equal_rows(rt, 32, 1, 32)?;
    equal_rows(rt, 32, 200, 60_000)?;
    equal_rows(rt, 32, 200, 6_600)?;
    equal_rows(rt, 32, 200, 6_400)?;
    equal_rows(rt, 33, 1, 60_000)
}

// One number out of range each, and tables that end within a row.
fn refusals(rt: &impl Print) -> io::Result<()> {
    work(rt, &[1, 4, 2, 2, 6, 3], 0, 10)?;
    work(rt, &[1, 4, 2, 2, 6, 3], 201, 10)?;
    work(rt, &[1, 4, 2, 2, 6, 3], 3, 0)?;
    work(rt, &[1, 4, 2, 2, 6, 3], 3, 60_001)?;
    work(rt, &[0, 4, 2, 2, 6, 3], 3, 10)?;
    work(rt, &[1, 4, 2, 201, 6, 3], 3, 10)?;
    work(rt, &[1, 0, 2, 2, 6, 3], 3, 10)?;
    work(rt, &[1, 4, 2, 2, 60_001, 3], 3, 10)?;
    work(rt, &[1, 4], 3, 10)?;
    work(rt, &[1, 4, 2, 2], 3, 10)?;
    work(
        rt,
        &[],
        18_446_744_073_709_551_615,
        18_446_744_073_709_551_615,
    )
}

fn main(rt: HostRuntime) -> io::Result<()> {
    figures(&rt)?;
    figure_in_rows(&rt)?;
    small_links(&rt)?;
    full_links(&rt)?;
    refusals(&rt)
}
