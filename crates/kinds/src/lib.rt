// The kinds of numbers that document 01 bounds, and why a call is refused. Each range stands once, here, beside its kind. A
// constructor (`new`) answers the value, or the refusal of the check that failed.
#![tactic(auto)]

ghost use Rattle.std.specs.Prelude.{◌≡◌};
ghost use Rattle.kinds.specs.Ranges.{within, in_range_links, in_range_rows, in_range_channels, in_range_c, in_range_p, in_range_d};
ghost use Rattle.kinds.specs.Ranges.{in_range_b, is_slot, is_number};
ghost use Rattle.kinds.specs.Checks.{link_passes, channel_passes, new_link, new_channel, new_route};
ghost use Rattle.kinds.specs.Refusals.{number_of, place_of};

// Why a call is refused, in the order of document 01's refusal numbers; with the place, of a route or of the links of a set-up,
// where one is named.
#[derive(Clone, Copy, Debug, PartialEq, Eq)]
pub enum Refusal {
    Range,
    RouteLength,
    NoLink(u64),
    LinkTwice(u64),
    LinksApart(u64),
    ChannelsFull,
    RowsFull(u64),
    NoResponse(u64),
    OverD,
    BufferFull(u64),
    NoChannel,
    MessageLength,
    Burst,
    EndSlot,
    OutShort,
    BadLinks(u64),
    NotSound,
    BadTable,
}

impl Refusal {
    pub fn number(self) -> u64
        ensures { result ≡ number_of self }
    {
        match self {
            Refusal::Range => 1,
            Refusal::RouteLength => 2,
            Refusal::NoLink(_) => 3,
            Refusal::LinkTwice(_) => 4,
            Refusal::LinksApart(_) => 5,
            Refusal::ChannelsFull => 6,
            Refusal::RowsFull(_) => 7,
            Refusal::NoResponse(_) => 8,
            Refusal::OverD => 9,
            Refusal::BufferFull(_) => 10,
            Refusal::NoChannel => 11,
            Refusal::MessageLength => 12,
            Refusal::Burst => 13,
            Refusal::EndSlot => 14,
            Refusal::OutShort => 15,
            Refusal::BadLinks(_) => 16,
            Refusal::NotSound => 17,
            Refusal::BadTable => 18,
        }
    }

    // 0 where none is named.
    pub fn place(self) -> u64
        ensures { result ≡ place_of self }
    {
        match self {
            Refusal::NoLink(place)
            | Refusal::LinkTwice(place)
            | Refusal::LinksApart(place)
            | Refusal::RowsFull(place)
            | Refusal::NoResponse(place)
            | Refusal::BufferFull(place)
            | Refusal::BadLinks(place) => place,
            _ => 0,
        }
    }
}

fn is_within(least: u64, most: u64, n: u64) -> bool
    ensures { result ≡ within least most n }
{
    least <= n && n <= most
}

// A one-way link between two nodes. It sends early packets up to `horizon` slots ahead and holds up to `buffer` packets.
#[derive(Clone, Copy)]
pub struct Link {
    pub from: u64,
    pub to: u64,
    pub horizon: u64,
    pub buffer: u64,
}

impl Link {
    pub const MOST_NODE: u64 = 255;

    pub const MOST_HORIZON: u64 = 4_096;

    pub const LEAST_BUFFER: u64 = 1;

    pub const MOST_BUFFER: u64 = 256;

    pub const MOST_ROWS: usize = 32;

    fn passes(from: u64, to: u64, horizon: u64, buffer: u64) -> bool
        ensures { result ≡ link_passes from to horizon buffer }
    {
        from <= Self::MOST_NODE
            && (to <= Self::MOST_NODE
                && (from != to
                    && (horizon <= Self::MOST_HORIZON
                        && (Self::LEAST_BUFFER <= buffer && buffer <= Self::MOST_BUFFER))))
    }

    #[tactic(auto, unfolding(crate::specs::Checks::new_link))]
    pub fn new(from: u64, to: u64, horizon: u64, buffer: u64) -> Result<Link, Refusal>
        ensures { result ≡ new_link from to horizon buffer }
    {
        if Self::passes(from, to, horizon, buffer) {
            Ok(Link {
                from,
                to,
                horizon,
                buffer,
            })
        } else {
            Err(Refusal::BadLinks(0))
        }
    }

    pub fn rows_fit(n: usize) -> bool
        ensures { result ≡ in_range_rows n }
    {
        n <= Self::MOST_ROWS
    }
}

// What a stream asks for: at most `c` packets a message, messages at least `p` slots apart, each through all links within `d`
// slots, in bursts of at most `b` messages.
#[derive(Clone, Copy)]
pub struct Channel {
    pub c: u64,
    pub p: u64,
    pub d: u64,
    pub b: u64,
}

impl Channel {
    pub const LEAST_C: u64 = 1;

    pub const MOST_C: u64 = 200;

    pub const LEAST_P: u64 = 1;

    pub const MOST_P: u64 = 60_000;

    pub const LEAST_D: u64 = 1;

    pub const MOST_D: u64 = 480_000;

    pub const LEAST_B: u64 = 1;

    pub const MOST_B: u64 = 16;

    pub fn c_in_range(c: u64) -> bool
        ensures { result ≡ in_range_c c }
    {
        is_within(Self::LEAST_C, Self::MOST_C, c)
    }

    pub fn p_in_range(p: u64) -> bool
        ensures { result ≡ in_range_p p }
    {
        is_within(Self::LEAST_P, Self::MOST_P, p)
    }

    fn d_in_range(d: u64) -> bool
        ensures { result ≡ in_range_d d }
    {
        is_within(Self::LEAST_D, Self::MOST_D, d)
    }

    fn b_in_range(b: u64) -> bool
        ensures { result ≡ in_range_b b }
    {
        is_within(Self::LEAST_B, Self::MOST_B, b)
    }

    fn passes(c: u64, p: u64, d: u64, b: u64) -> bool
        ensures { result ≡ channel_passes c p d b }
    {
        Self::c_in_range(c) && (Self::p_in_range(p) && (Self::d_in_range(d) && Self::b_in_range(b)))
    }

    #[tactic(auto, unfolding(crate::specs::Checks::new_channel))]
    pub fn new(c: u64, p: u64, d: u64, b: u64) -> Result<Channel, Refusal>
        ensures { result ≡ new_channel c p d b }
    {
        if Self::passes(c, p, d, b) {
            Ok(Channel { c, p, d, b })
        } else {
            Err(Refusal::Range)
        }
    }
}

// A route of `hops` links.
#[derive(Clone, Copy)]
pub struct Route {
    pub hops: usize,
}

impl Route {
    pub const LEAST_HOPS: usize = 1;

    pub const MOST_HOPS: usize = 8;

    #[tactic(auto, unfolding(crate::specs::Checks::new_route))]
    pub fn new(hops: usize) -> Result<Route, Refusal>
        ensures { result ≡ new_route hops }
    {
        if is_within(Self::LEAST_HOPS as u64, Self::MOST_HOPS as u64, hops as u64) {
            Ok(Route { hops })
        } else {
            Err(Refusal::RouteLength)
        }
    }
}

// A network: how many links and channels it has.
#[derive(Clone, Copy)]
pub struct Network {
    pub links: usize,
    pub channels: usize,
}

impl Network {
    pub const LEAST_LINKS: usize = 1;

    pub const MOST_LINKS: usize = 16;

    pub const MOST_CHANNELS: usize = 64;

    pub fn links_fit(n: usize) -> bool
        ensures { result ≡ in_range_links n }
    {
        is_within(Self::LEAST_LINKS as u64, Self::MOST_LINKS as u64, n as u64)
    }

    pub fn channels_fit(n: usize) -> bool
        ensures { result ≡ in_range_channels n }
    {
        n <= Self::MOST_CHANNELS
    }
}

// A slot of the clock, which stops at `END`. No other slot, and no message's number, is above `MOST`.
#[derive(Clone, Copy)]
pub struct Slot {
    pub number: u64,
}

impl Slot {
    pub const END: u64 = 1_000_000_000_000;

    pub const MOST: u64 = 1_000_002_000_000;

    pub fn is_slot(n: u64) -> bool
        ensures { result ≡ is_slot n }
    {
        n <= Self::END
    }

    pub fn is_number(n: u64) -> bool
        ensures { result ≡ is_number n }
    {
        n <= Self::MOST
    }
}
