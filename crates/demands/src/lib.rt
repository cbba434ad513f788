// No code: the three demands and the boundary table as theorems. `specs/` states them, `proofs/` proves them from the crates below.
#![tactic(auto)]
