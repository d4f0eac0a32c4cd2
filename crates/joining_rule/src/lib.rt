// The joining rule: sets, start, joining and adding, rounds; what its result means. Definitions in specs/, theorems in
// proofs/. No code.
#![tactic(auto)]
