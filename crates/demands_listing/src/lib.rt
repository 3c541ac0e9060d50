// No code: the listing, the groups call and playing as theorems about the definitions that the contracts cite. See specs/ and proofs/.
#![tactic(auto)]
