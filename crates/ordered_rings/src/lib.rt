// Ordered rings: what the bounds need of the numbers that coordinates and values are. Definitions in specs/, theorems
// in proofs/. No code.
#![tactic(auto)]
