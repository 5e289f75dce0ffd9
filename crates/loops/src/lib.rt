// No code: the laws of a slice that a loop fills from the front.
#![tactic(auto)]
