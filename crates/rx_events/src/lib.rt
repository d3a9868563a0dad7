//! Events of many nodes, as definitions alone: which event is the call that was made (`specs/Events.antt`), what the
//! rules allow of each node behind a joint history (`specs/Joint.antt`), and what that says of all of them: whether a
//! call lives, and how long it is until something is due (`specs/Waits.antt`).
#![tactic(auto)]
