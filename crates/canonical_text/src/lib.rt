// The canonical text of a tree. There is no code.
#![tactic(auto)]
