// The queue machine and the word guarantee: definitions and claims in specs/, their proofs in proofs/. No code.
#![tactic(auto)]
