// The order of refusals in the calls of breaks, leaves and child lists. Definitions (specs/) and laws (proofs/) alone; no code.
#![tactic(auto)]
