// What the calls that may change a note promise. Definitions (specs/) and laws (proofs/) alone; no code.
#![tactic(auto)]
