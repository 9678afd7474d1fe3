// Request [1], setups typed as the scope takes them, as definitions (specs/) and their laws (proofs/): the grammar, the reader and the writer. No code.
#![tactic(auto)]
