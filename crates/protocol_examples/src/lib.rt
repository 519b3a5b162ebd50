// The customer's worked examples, proved: definitions and proofs only.
#![tactic(auto)]
