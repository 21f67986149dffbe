// The response-time calculation on a table of rows: the rows are written out as numbers, and `response::response_alone`
// does the work, on a slice of these.
#![tactic(auto)]

ghost use Rattle.std.specs.Prelude.{◌≡◌, ◌<◌, ◌≤◌, length};
ghost use Rattle.kinds.specs.Ranges.{most_rows};
ghost use Rattle.response_table.specs.Rows.{filled_of, with_row, alone_of_first};
ghost use Rattle.response.specs.Alone.{alone};

use kinds::{Link, Refusal};
use response::{Answer, Row, response_alone};

// C, p and delay of `row` in place i.
fn put_row(numbers: &mut [u64; 3 * Link::MOST_ROWS], i: usize, row: &Row)
    requires { i < most_rows }
    ensures { numbers.new ≡ with_row numbers.old i row.now }
{
    numbers[3 * i] = row.c;
    numbers[3 * i + 1] = row.p;
    numbers[3 * i + 2] = row.delay;
}

// C, p and delay of each row in turn, then zeros.
#[tactic(auto, using(crate::proofs::Numbers::filling))]
fn numbers_of(rows: &[Row]) -> [u64; 3 * Link::MOST_ROWS]
    requires { length rows.now ≤ most_rows }
    ensures { result ≡ filled_of rows.now }
{
    let mut numbers = [0; 3 * Link::MOST_ROWS];
    for (i, row) in rows.iter().enumerate() {
        put_row(&mut numbers, i, row);
    }
    numbers
}

// The public call on a lent slice of rows.
#[tactic(auto, using(crate::proofs::Replies::alone_over, crate::proofs::Numbers::alone_on_filled_of))]
pub fn response_of_rows(rows: &[Row], own: u64, limit: u64) -> Result<Answer, Refusal>
    ensures { result ≡ alone rows.now own limit }
{
    if !Link::rows_fit(rows.len()) {
        return Err(Refusal::BadTable);
    }
    response_alone(&numbers_of(rows)[..3 * rows.len()], own, limit)
}

// The public call on the first n rows of an array.
#[tactic(auto, using(crate::proofs::Replies::first_over, crate::proofs::Replies::first_within))]
pub fn response_of_table(rows: [Row; 32], n: usize, own: u64, limit: u64) -> Result<Answer, Refusal>
    ensures { result ≡ alone_of_first rows n own limit }
{
    match rows.get(..n) {
        Some(first) => response_of_rows(first, own, limit),
        None => Err(Refusal::BadTable),
    }
}
