// What is promised of the entries, as theorems about the definitions that their contracts cite; no code.
#![tactic(auto)]
