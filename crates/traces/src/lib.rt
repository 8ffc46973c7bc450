// Promises shown by computing: the trace cards, worked steps, the loop of 31 splits, and the five duds. Statements in specs/, their proofs in proofs/. No code.

#![tactic(auto)]
