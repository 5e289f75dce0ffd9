// No code: laws that a frame read field by field is the frame of the message.
#![tactic(auto)]
