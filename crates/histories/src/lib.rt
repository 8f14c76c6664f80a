// Calls one after the other on the same lent numbers: definitions and laws alone.
#![tactic(auto)]
