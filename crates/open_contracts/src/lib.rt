// What is open in a group during a walk, and that the running figure says it at every step. No code.
#![tactic(auto)]
