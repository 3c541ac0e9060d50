// No code: the demands of the exported routines, and all that is promised as one theorem. See specs/ and proofs/.
#![tactic(auto)]
