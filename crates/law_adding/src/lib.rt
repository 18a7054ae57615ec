// What adds up to what: levels and event types to the network, std and the rest to all, SAIFI and SAIDI as exact fractions. There is no code here.
#![tactic(auto)]
