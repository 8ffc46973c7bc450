// Promises of a group shown by computing: worked groups, and an example that meets what the promises ask for. Statements in specs/, their proofs in proofs/. No code.

#![tactic(auto)]
