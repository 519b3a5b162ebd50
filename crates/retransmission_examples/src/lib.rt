// The send-back store of two displays, computed by the definitions that its theorem is stated with: definitions and proofs only.
#![tactic(auto)]
