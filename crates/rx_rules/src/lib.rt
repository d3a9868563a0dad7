//! What is answered: how a node is set up, what a history says of it, what it owes, and which answers the rules allow.
//!
//! All of it stands in `specs/`: public clauses of the crates above cite it. `proofs/` has facts on it for them, and
//! the worked examples, which compute.
#![tactic(auto)]
