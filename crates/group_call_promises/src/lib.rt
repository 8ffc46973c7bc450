// What a caller is promised of a group's calls: those for C, and those by value. Theorems about the definitions that the contracts name: no code.

#![tactic(auto)]
