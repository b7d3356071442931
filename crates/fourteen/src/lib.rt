// Document 01's fourteen as one table, and the claim that it holds. Definitions (specs/) and one theorem (proofs/) alone; no code.
#![tactic(auto)]
