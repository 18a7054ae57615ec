// The worked cases of document 01, computed by the checker from the definitions that the contracts cite. There is no code here.
#![tactic(auto)]
