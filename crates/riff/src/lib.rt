// Request [14], sound files out and sound files in, as definitions (specs/) and their laws (proofs/). No code.
#![tactic(auto)]
