// Definitions and laws that know nothing of outages: rules in order, tests over lists, sums. There is no code here.
#![tactic(auto)]
