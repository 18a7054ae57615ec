// Books in another order, from the definitions that the contracts cite. There is no code here.
#![tactic(auto)]
