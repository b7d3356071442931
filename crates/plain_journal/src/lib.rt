// A journal of fields on paper: its fields, their replay on the plain note, and the listing. Definitions (specs/) and laws (proofs/) alone; no code.
#![tactic(auto)]
