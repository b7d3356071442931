// No function: what an edit of the note promises, and the laws of its steps.
#![tactic(auto)]
