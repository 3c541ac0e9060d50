// No code: links, chains, trails and forests as mathematics, over any number of cells. See specs/ and proofs/.
#![tactic(auto)]
