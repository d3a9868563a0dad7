//! Worked examples, computed by the rules alone: `proofs/` has a lemma for each, by its name in `docs/EXAMPLES.md`.
#![tactic(auto)]
