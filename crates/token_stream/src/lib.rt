// The stream of tokens that a cursor stands for, and what is known of tokens that were read: laws over the definitions of `token` and
// `tokenizer`. There is no code.
#![tactic(auto)]
