// A tablet's clockwise order as slots of the ring: definitions and laws alone.
#![tactic(auto)]
