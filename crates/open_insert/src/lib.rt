// The row of a new channel put into the order of a link's rows, by delay.
#![tactic(auto)]

ghost use Rattle.std.specs.Prelude.{◌≡◌, ◌-◌, ◌≤◌, ◌<◌};
ghost use Rattle.kinds.specs.Ranges.{most_channels, most_hops};
ghost use Rattle.store.specs.Layout.{rows_of, route_of, delay_of};
ghost use Rattle.open_rules.specs.Join.{rows_before, row_put, row_joined};
ghost use Rattle.open_insert.specs.Rows.{Rows};

use store::lent::Lent;
use store::link;

// How many rows of link `l` stand above a new one with delay `d`.
fn rows_before(store: &Lent, l: usize, d: u64) -> usize
    requires { Rows store.now l }
    ensures { result ≡ rows_before store.now l d }
{
    let link = store.link(l);
    let rows = link.rows();
    (0..rows)
        .find(|&k| {
            let x = link.row_channel(k);
            let j = link.row_place(k);
            store.channel(x).delay(j) > d
        })
        .unwrap_or(rows)
}

// Row `at` of link `l` becomes channel `x` at place `j`; the rows from there on, to the last of `rows`, go one further down.
fn put_row(store: &mut [u64], l: usize, at: usize, rows: usize, x: usize, j: usize)
    requires rows { Rows store.old l }
    requires rows_value { rows ≡ rows_of store.old l }
    requires at_le_rows { at ≤ rows }
    ensures { store.new ≡ row_put store.old l at x j (rows_of store.old l - at) }
{
    let mut channel = x;
    let mut place = j;
    for k in at..rows {
        let link = link::Record::new(store, l);
        let next_channel = link.row_channel(k);
        let next_place = link.row_place(k);
        link::put_row_channel(store, l, k, channel);
        link::put_row_place(store, l, k, place);
        channel = next_channel;
        place = next_place;
    }
    link::put_row_channel(store, l, rows, channel);
    link::put_row_place(store, l, rows, place);
}

// The row of channel `x` at place `j` joins its link's order.
#[tactic(auto, using(folds::proofs::Folds::first_most), unfolding(open_rules::specs::Join::row_joined))]
pub fn join_row(store: &mut [u64], x: usize, j: usize)
    requires x_lt_most_channels { x < most_channels }
    requires j_lt_most_hops { j < most_hops }
    requires rows { Rows store.old (route_of store.old x j) }
    ensures { store.new ≡ row_joined store.old (route_of store.old x j)
        (delay_of store.old x j) x j }
{
    let lent = Lent::new(store);
    let channel = lent.channel(x);
    let l = channel.link(j);
    let rows = lent.link(l).rows();
    let at = rows_before(&lent, l, channel.delay(j));
    put_row(store, l, at, rows, x, j);
    link::put_rows(store, l, rows + 1);
}
