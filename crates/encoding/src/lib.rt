// The word of an instruction: definitions and theorems only, in specs/.

#![tactic(auto)]
