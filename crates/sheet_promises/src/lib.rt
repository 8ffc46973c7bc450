// The promises of marking: statements in specs/, their proofs in proofs/. No code.

#![tactic(auto)]
