// Two books under one year sheet, joined to one: definitions and the theorem of their sums. There is no code here.
#![tactic(auto)]
