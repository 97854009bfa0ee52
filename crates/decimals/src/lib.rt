// Numbers and lines of numbers in ASCII, as definitions with their laws. No code.
#![tactic(auto)]
