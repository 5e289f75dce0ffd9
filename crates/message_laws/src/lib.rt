// No code: laws that the sequence of a message's tags, one after the other, is the definition's.
#![tactic(auto)]
