// The search of an open: document 01, "Opening", steps 1 to 3. On each link of the route, the place of the new channel and its
// response there.
#![tactic(auto)]

ghost use Rattle.std.specs.Prelude.{◌≡◌, true, ◌≤◌, ◌<◌, length, replicate};
ghost use Rattle.kinds.specs.Ranges.{most_hops, in_range_c, in_range_p};
ghost use Rattle.store.specs.Layout.{links_of, rows_of};
ghost use Rattle.folds.specs.Folds.{every, failing, first_not};
ghost use Rattle.store.specs.Route.{along, exists};
ghost use Rattle.open_rules.specs.Search.{responds, responses as responses_of};
ghost use Rattle.open_rules.specs.Shares.{eight};
ghost use Rattle.open_search.specs.Table.{table_written};

use kinds::{Channel, Link, Route};
use response::response_under;
use store::lent::Sound;

// Link `l`'s rows, C, p and delay of each, below the new channel, which is the table's first row.
#[tactic(auto, using(crate::proofs::Table::places_most))]
fn put_rows(store: &Sound, l: usize, table: &mut [u64; 3 * Link::MOST_ROWS + 3])
    requires { l < links_of store.now }
    ensures { table.new
        ≡ table_written store.now l table.old (rows_of store.now l) }
{
    let link = store.link(l);
    for k in 0..link.rows() {
        let x = link.row_channel(k);
        let j = link.row_place(k);
        let channel = store.channel(x);
        let at = 3 * k + 3;
        table[at] = channel.c();
        table[at + 1] = channel.p();
        table[at + 2] = channel.delay(j);
    }
}

// Writes the response at each place of the route, up to the first that has none, which is the answer. Its table is on the stack
// only while it runs.
#[inline(never)]
#[tactic(auto, using(crate::proofs::Steps::link_there, crate::proofs::Table::places_most))]
pub fn responses(
    store: &Sound,
    asked: Channel,
    route: &[u64],
    found: &mut [u64; Route::MOST_HOPS],
) -> Option<usize>
    requires c_in_range { in_range_c asked.c ≡ true }
    requires p_in_range { in_range_p asked.p ≡ true }
    requires few_hops { length route.now ≤ most_hops }
    requires known { every (exists store.now (along route.now)) (length route.now) ≡ true }
    requires empty { found.old ≡ replicate 8 0 }
    ensures value { result ≡ failing (responds store.now asked.c asked.p (along route.now)) (length route.now) }
    ensures found_after { found.new
        ≡ eight (responses_of store.now asked.c asked.p (along route.now))
        (first_not (responds store.now asked.c asked.p (along route.now)) (length route.now)) }
{
    let mut table = [0u64; 3 * Link::MOST_ROWS + 3];
    table[0] = asked.c;
    table[1] = asked.p;
    let mut silent = None;
    'search: for (j, &l) in route.iter().enumerate() {
        let l = l as usize;
        put_rows(store, l, &mut table);
        // every row after position q has a response below the new channel
        let mut q = store.link(l).rows();
        loop {
            if q > 0 {
                let own = table[3 * q];
                let delay = table[3 * q + 2];
                if let Some(_) = response_under(&table[..3 * q], own, delay).response {
                    q -= 1;
                    continue;
                }
            }
            let Some(r) = response_under(&table[3..3 * q + 3], asked.c, asked.p).response else {
                silent = Some(j);
                break 'search;
            };
            found[j] = r;
            break;
        }
    }
    silent
}
