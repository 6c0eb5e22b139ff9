// What traces of runs promise when they are gathered and compared: the claims in specs/, their proofs in proofs/. No code.
#![tactic(auto)]
