// No code: fair premium tables, and demand 3 of the order check.
#![tactic(auto)]
