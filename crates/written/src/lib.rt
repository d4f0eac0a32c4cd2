// The writer's side of the two streams. In specs/ encoders, by the layouts that the readers go by, and the limits as
// the documents state them; in proofs/ that every problem and every certificate within them is read as it was written.
// No code.
#![tactic(auto)]
