// No code: the kinds of numbers that the rules speak of, the first check that fails, and what a lent buffer holds. See specs/.
#![tactic(auto)]
