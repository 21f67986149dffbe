// No code: what was sent on a link for a channel, slot by slot, is the channel's packets in their order, each in time. The
// definitions are in specs/, the theorems in proofs/.
#![tactic(auto)]
