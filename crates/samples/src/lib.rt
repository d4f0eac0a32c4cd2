// The starred samples of document 01 and samples of each request of document 02, at their limits: byte streams and
// verdicts in specs/, and tables of their outcomes, proved by computation, in proofs/. No contract cites them.
#![tactic(auto)]
