// The tree in the lent memory: its text, the slots that it uses, and when it is sound. Definitions (specs/) and laws (proofs/) alone; no code.
#![tactic(auto)]
