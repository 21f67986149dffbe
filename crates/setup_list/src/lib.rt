// The lent list of links, numbers, four a link: from, to, horizon, buffer. How many there are, and the first that does not pass.
#![tactic(auto)]

ghost use Rattle.std.specs.Prelude.{◌≡◌, ◌≤◌, ◌<◌};
ghost use Rattle.kinds.specs.Ranges.{most_links};
ghost use Rattle.folds.specs.Folds.{failing};
ghost use Rattle.setup_list.specs.List.{links_in, link_passes_at};

use kinds::Link;

// How many links the numbers are. A part of a link at the end counts as one.
pub fn links_in(links: &[u64]) -> usize
    ensures { result ≡ links_in links.now }
{
    links.len().div_ceil(4)
}

// Whether link `l` stands whole in the numbers and passes.
#[tactic(auto, using(kinds::proofs::Laws::link_is_ok), unfolding(crate::specs::List::link_passes_at))]
fn passes(links: &[u64], l: usize) -> bool
    requires { l < most_links }
    ensures { result ≡ link_passes_at links.now l }
{
    let at = 4 * l;
    at + 4 <= links.len()
        && Link::new(links[at], links[at + 1], links[at + 2], links[at + 3]).is_ok()
}

// The first of `n` links that does not pass.
pub fn bad_link(links: &[u64], n: usize) -> Option<usize>
    requires { n ≤ most_links }
    ensures { result ≡ failing (link_passes_at links.now) n }
{
    (0..n).find(|&l| !passes(links, l))
}
