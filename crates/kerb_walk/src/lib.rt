// No code: what the walks of the calls over a book share, a struct in memory taken apart into its fields. See proofs/.
#![tactic(auto)]
