// What is promised of crossing quotes: the fills, what is left of the size, the list, and the mirror of a sell. No code.
#![tactic(auto)]
