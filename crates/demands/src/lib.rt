// Requests [1], setups typed as the scope takes them, [3], segments put where they belong, [4], where does it first cross, [8], narrow WORD to BYTE, [10], however
// many times it was thinned, and [12], the strip viewer, as the contracts of the calls in Rattle and in C say them across calls: theorems (proofs/). No code.
#![tactic(auto)]
