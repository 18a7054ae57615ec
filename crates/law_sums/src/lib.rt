// An accepted book, and the annex's sums over the accepted events: definitions and the theorem that each cell grows by them. There is no code here.
#![tactic(auto)]
