// The form of a field file, a reader of it, and that the two agree. No code.
#![tactic(auto)]
