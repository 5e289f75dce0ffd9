// Laws of the loop over a message's fields: what it finds by places is what document 02, S-1, says. No code.
#![tactic(auto)]
