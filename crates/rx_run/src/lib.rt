//! The language in which it is said what a run of nodes makes, one step after another, and what it tells of that; with
//! its laws. A part of a run is a list of steps with what it comes to (`specs/Parts.antt`), the turn of a program is
//! one (`specs/Programs.antt`), and each step is told whole or not (`specs/Tells.antt`). What a step is, for which
//! reasons a run ends of its own and what tells of it are parameters.
#![tactic(auto)]
