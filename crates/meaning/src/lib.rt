// What lent numbers mean. A crate of definitions and laws: `specs/` says it, `proofs/` joins the loops' definitions to document 01's.
#![tactic(auto)]
