// The handshake on every channel, cycle by cycle, as the standard's section 5 has it: only definitions (specs/) and theorems (proofs/), no code.
#![tactic(auto)]
