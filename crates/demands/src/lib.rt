// The calls and the programs, the demands on them, and cases A to N: definitions and theorems, no code.
#![tactic(auto)]
