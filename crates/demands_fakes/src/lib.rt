// No code: builds that nobody wants, each with the demand that it breaks. See specs/ and proofs/.
#![tactic(auto)]
