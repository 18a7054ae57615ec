// One day at the desk, computed by the checker from the definitions that the contracts cite. There is no code here.
#![tactic(auto)]
