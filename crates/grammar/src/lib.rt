// The grammar of well-known text: definitions and worked examples in specs/, and no code. Its laws are `grammar_laws`.
#![tactic(auto)]
