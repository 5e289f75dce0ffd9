// No code: laws that tags and places are the legs, back from a tag to its leg and from sorted places to the sequence.
#![tactic(auto)]
