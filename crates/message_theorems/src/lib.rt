// What is promised of messages: demand 3, and that a message written for an order says that order. No code.
#![tactic(auto)]
