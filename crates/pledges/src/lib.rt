// No code: what the exported calls promise is what the definitions say.
#![tactic(auto)]
