// A book's text read back: definitions and their theorems. There is no code here.
#![tactic(auto)]
