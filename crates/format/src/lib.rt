// What the bytes of the two streams say: the types of commands, conditions and headers here, definitions in specs/,
// theorems in proofs/. No code.
#![tactic(auto)]

pub mod certificate;
pub mod problem;
