// Demand 3 on what is really handed over: definitions and proofs only.
#![tactic(auto)]
