// What a promise is. A crate of definitions and laws: every call's promise, with or without a tally, is one of these.
#![tactic(auto)]
