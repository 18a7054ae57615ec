// Theorems on element tables: what accepted files come to, in any order, and joined. It has no code.
#![tactic(auto)]
