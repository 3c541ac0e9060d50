// No code: the demands as theorems about the definitions that the contracts cite. See specs/ and proofs/.
#![tactic(auto)]
