// What a day at the desk adds: the annex's sums over the closed outages, and the same customer by customer. There is no code here.
#![tactic(auto)]
