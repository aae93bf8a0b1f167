// The laws of the grammar of well-known text: theorems about `grammar`'s definitions in proofs/, and no code.
#![tactic(auto)]
