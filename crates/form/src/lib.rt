// Forms of trees in bytes: what is promised of every one, proved once. There is no code.
#![tactic(auto)]
