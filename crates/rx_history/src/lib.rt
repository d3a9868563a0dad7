//! What holds along the legal history of one node, whatever bytes came to it: on this the laws stand, and the nodes.
//!
//! `specs/Alone.antt` says what a node keeps by itself: at most once, entry by proof, room in its slots. The lemmas say
//! how an event changes what the rules look up, by subject.
#![tactic(auto)]
