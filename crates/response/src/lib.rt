// The response-time calculation: document 01, "Response time". A link's table is a slice of numbers here, three a row:
// C, p and delay.
#![tactic(auto)]

ghost use Rattle.std.specs.Prelude.{◌≡◌, true, ◌*◌, ◌≤◌};
ghost use Rattle.kinds.specs.Ranges.{most_c, most_p};
ghost use Rattle.response.specs.Need.{ceil, need as need_of, start as start_of};
ghost use Rattle.response.specs.Trials.{response as response_of};
ghost use Rattle.response.specs.Numbers.{rows_in, rows_in_range, Workable};
ghost use Rattle.response.specs.Alone.{askable_on, alone_on};

use kinds::{Channel, Link, Refusal};

// A row of a link's table: at most `c` packets every `p` slots, each message through within `delay` slots.
#[derive(Clone, Copy)]
pub struct Row {
    pub c: u64,
    pub p: u64,
    pub delay: u64,
}

// What the calculation finds: the response, where there is one within the limit, and the number of trials.
#[derive(Clone, Copy)]
pub struct Answer {
    pub response: Option<u64>,
    pub trials: u64,
}

// The length at which the trials start: `own` and every C of the table.
fn start(table: &[u64], own: u64) -> u64
    requires { Workable table.now own }
    ensures { result ≡ start_of own (rows_in table.now) }
{
    let mut length = own;
    for row in table.chunks_exact(3) {
        length += row[0];
    }
    length
}

// What a row asks for within length `r`: its C times r/p rounded up.
#[tactic(auto, unfolding(crate::specs::Need::ceil))]
fn asked(c: u64, p: u64, r: u64) -> u64
    requires c_le_most_c { c ≤ most_c }
    requires p_positive { 1 ≤ p }
    requires p_le_most_p { p ≤ most_p }
    requires r_le_most_p { r ≤ most_p }
    ensures { result ≡ c * ceil r p }
{
    // both fit 32 bits, where a division is cheaper
    let times = (r + p - 1) as u32 / p as u32;
    c * times as u64
}

// The need at length `r` of a channel with packets `own` below the rows of the table.
fn need(table: &[u64], own: u64, r: u64) -> u64
    requires workable { Workable table.now own }
    requires r_le_most_p { r ≤ most_p }
    ensures { result ≡ need_of own (rows_in table.now) r }
{
    let mut sum = own;
    for row in table.chunks_exact(3) {
        sum += asked(row[0], row[1], r);
    }
    sum
}

// The response of a channel with packets `own` below the rows of the table, within `limit`. For the crates above, which
// know that their rows are in range; the public call is `response_alone`.
pub fn response_under(table: &[u64], own: u64, limit: u64) -> Answer
    requires workable { Workable table.now own }
    requires limit_le_most_p { limit ≤ most_p }
    ensures { result ≡ response_of own (rows_in table.now) limit }
{
    let mut r = start(table, own);
    let mut trials: u64 = 0;
    while r <= limit {
        let n = need(table, own, r);
        trials += 1;
        if n == r {
            return Answer {
                response: Some(r),
                trials,
            };
        }
        r = n;
    }
    Answer {
        response: None,
        trials,
    }
}

// Whether every row's C and p are in range.
fn rows_in_range(table: &[u64]) -> bool
    ensures { result ≡ rows_in_range (rows_in table.now) }
{
    table.chunks_exact(3).all(|row| Channel::c_in_range(row[0]) && Channel::p_in_range(row[1]))
}

// Whether the calculation may be asked for: whole rows, not too many, every number in range.
#[tactic(auto, using(crate::proofs::Laws::Numbers::rows_count))]
fn is_askable(table: &[u64], own: u64, limit: u64) -> bool
    ensures { result ≡ askable_on table.now own limit }
{
    table.len() % 3 == 0
        && Link::rows_fit(table.len() / 3)
        && Channel::c_in_range(own)
        && Channel::p_in_range(limit)
        && rows_in_range(table)
}

// The public call: the response-time calculation by itself, on any numbers.
#[tactic(auto, using(crate::proofs::Laws::Alone::by_checks))]
pub fn response_alone(table: &[u64], own: u64, limit: u64) -> Result<Answer, Refusal>
    ensures { result ≡ alone_on table.now own limit }
{
    if is_askable(table, own, limit) {
        Ok(response_under(table, own, limit))
    } else {
        Err(Refusal::BadTable)
    }
}
