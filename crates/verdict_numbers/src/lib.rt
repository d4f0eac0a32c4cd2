#![tactic(auto)]

// Verdicts as runs of 64-bit numbers, which programs in other languages are given: where each field stands. Definitions
// in specs/, theorems in proofs/. No code.
