// Tests and statements over whole lists, for the definitions of other crates. There is no code.
#![tactic(auto)]
