// What the public calls `fresh` and `step` promise together: the claims in specs/, their proofs in proofs/. No code.
#![tactic(auto)]
