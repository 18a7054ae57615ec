// A day at the desk: what is proved of any sequence of messages, with book records between them. It has no code.
#![tactic(auto)]
