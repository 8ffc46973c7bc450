// The promises of a group of warps: statements in specs/, their proofs in proofs/. No code.

#![tactic(auto)]
