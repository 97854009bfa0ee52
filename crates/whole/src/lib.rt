// Whole roots as definitions, and the laws about them: the floor root, the greatest m, the nearest root, exact millimetres. No code.
#![tactic(auto)]
