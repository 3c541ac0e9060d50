// No code: the worked cases, computed by the definitions that the contracts cite. See specs/ and proofs/.
#![tactic(auto)]
