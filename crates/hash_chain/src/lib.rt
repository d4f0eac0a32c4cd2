// Places found by a remainder: one kind of index, for the keys of the support and for the pairs of a basis. Definitions
// in specs/, theorems in proofs/. No code.
#![tactic(auto)]
