// What demand 3 says of the sequence of legs, of both orders of an auction pair. No code.
#![tactic(auto)]
