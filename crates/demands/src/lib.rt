// The three demands, over sequences of calls on lent memory. Definitions (specs/) and theorems (proofs/) alone; no code.
#![tactic(auto)]
