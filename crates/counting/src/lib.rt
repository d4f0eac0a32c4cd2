// What is made by counting up: a list, a state, a sum. The definitions are in specs/, their laws in proofs/. No code.
#![tactic(auto)]
