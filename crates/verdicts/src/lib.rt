// The verifier's questions, and the published conditions that they stand for: definitions and theorems, no code.
#![tactic(auto)]
