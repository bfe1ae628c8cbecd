//! Bounded search, as definitions and lemmas: the numbers below a bound that pass a test, and the first place that answers.
//!
//! There is nothing to run: `specs/` is there for the contracts of crates above to cite, and `proofs/` for their proofs. A chain
//! over a range (`find`, `find_map`, `all`) means a definition of `specs/`.
#![tactic(auto)]
