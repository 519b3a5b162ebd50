// What it is that a rule is done: definitions only.
#![tactic(auto)]
