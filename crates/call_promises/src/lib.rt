// What is promised of the calls of the machine and of those for C: statements in specs/, their proofs in proofs/. No code.

#![tactic(auto)]
