// Each index end to end: of an accepted book, the annex's own fraction over the book's events, in lowest terms. There is no code here.
#![tactic(auto)]
