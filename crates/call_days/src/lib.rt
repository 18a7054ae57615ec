// Calls from C, one after the other over one state, are a day at the book entry and the desk. There is no code here.
#![tactic(auto)]
