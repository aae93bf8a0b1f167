// Trees, their rows and their number texts, and the one tree that rows and texts are. There is no code.
#![tactic(auto)]
