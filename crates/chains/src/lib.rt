// Request [10], however many times it was thinned, as definitions (specs/) and their laws (proofs/). No code.
#![tactic(auto)]
