// What the user asked for, in three records, and the proofs of it. There is no code here.
#![tactic(auto)]
