// The customer-minutes of a stepped event, added customer by customer: definitions and their theorem. There is no code here.
#![tactic(auto)]
