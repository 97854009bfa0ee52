// What follows from the definitions of `paper` alone: demand 3 as a theorem, and that they say what the paper says of them. No code.
#![tactic(auto)]
