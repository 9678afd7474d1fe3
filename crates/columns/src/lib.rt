// Request [12], the columns of a strip, as definitions (specs/) and their laws (proofs/). No code.
#![tactic(auto)]
