// The lent store: one slice of numbers. Every field has one function that reads it and one that writes it; nothing else
// knows where it stands. docs/STORE.md has the layout as a table.
#![tactic(auto)]

pub mod lent; // lent.rt: a lent store as it is read
pub mod head; // head.rt: how many links and channels there are, and the clock
pub mod link; // link.rt: a link's record
pub mod channel; // channel.rt: a channel's record

// How many numbers the store has, the same for every network.
pub const LENGTH: usize = 65_536;

// The store is records of as many numbers: the head, 16 links, 64 channels; what follows is spare.
const RECORD: usize = 96;

const LINKS: usize = 96;

const CHANNELS: usize = 1_632;

// How many messages of a channel are kept, and how many of them may be undelivered: one fewer, since a message's packets
// are counted from the end of the one before it.
const RING: u64 = 24;

pub const UNDELIVERED: u64 = 23;
