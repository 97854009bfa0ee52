// Demand 3 on lent bytes, over the contracts of the exported calls. No code.
#![tactic(auto)]
