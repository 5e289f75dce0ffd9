// Laws of a message's fields: the bytes between its bytes 1, and the places where they stand. No code.
#![tactic(auto)]
