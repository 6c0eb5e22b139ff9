// Buffers placed on a net's channels change no word: firings of the placed net, followed step by step in the base net. Only claims (specs/) and proofs (proofs/), no code.
#![tactic(auto)]
