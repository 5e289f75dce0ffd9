// What is promised of sessions over whole lists of calls: each login by itself, its tally, and when it is restricted. No code.
#![tactic(auto)]
