// What a certificate claims, what accepting it means, and why an accepted one bounds the objective: definitions in
// specs/, theorems in proofs/. No code.
#![tactic(auto)]
