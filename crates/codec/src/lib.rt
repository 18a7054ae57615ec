// Records as bytes: what is written is read back, and what is read is written again. Definitions and their laws; there is no code here.
#![tactic(auto)]
