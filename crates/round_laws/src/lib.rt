// What the rounds keep between two joinings of blocks: the support has the products of every pair in one block, and a
// block's list its indices. Definitions in specs/, theorems in proofs/. No code.
#![tactic(auto)]
