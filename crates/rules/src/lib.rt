// The language is definitions (specs/) and what is proved of them (proofs/). There is no code.
#![tactic(auto)]
