// No code: laws of the definitions that functions, and demand 3, are shown by.
#![tactic(auto)]
