// Laws of the integers, in proofs/. No code.
#![tactic(auto)]
