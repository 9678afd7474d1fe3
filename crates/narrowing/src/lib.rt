// Request [8], narrowing WORD to BYTE, as definitions (specs/) and their laws (proofs/). No code.
#![tactic(auto)]
