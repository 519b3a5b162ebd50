// Document 01's listing, computed by the definitions that demand 3 is stated with: definitions and proofs only.
#![tactic(auto)]
