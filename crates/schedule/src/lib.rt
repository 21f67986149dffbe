// No code: why a link whose table passes the response-time test sends every packet in time. The definitions are in specs/, the
// theorems in proofs/.
#![tactic(auto)]
