// No function: the laws of an edit of one leaf of the note.
#![tactic(auto)]
