//! The run of a plan: a server and clients, a network between them, and their handlers and callers.
//!
//! `run` makes the events of the plan's lines, in order (`runs.rt`). Each event is noted, and then its line of the
//! trace is put (`telling.rt`, whose lines `trace.rt` makes). `lines.rt` makes those of one line, by its kind in
//! `call_lines.rt`, `client_lines.rt`, `handler_lines.rt`, `network_lines.rt` and `clock_lines.rt`; `turns.rt` those of
//! a dispatcher and `invokes.rt` those of callers; `rounds.rt` those of rounds, over a fair network or one that loses
//! (`lossy.rt`); `answers.rt` puts what became of each invoke. A contract says that what a part of the plan may make
//! (`rx_plan`) was made and told (`specs/Ran.antt`), at each stage that the run shows (`specs/Shown.antt`).
#![tactic(auto)]

mod answers;
mod call_lines;
mod client_lines;
mod clock_lines;
mod giving;
mod handler_lines;
mod invokes;
mod lines;
mod lossy;
mod network_lines;
mod rounds;
mod runs;
mod stop;
mod telling;
mod trace;
mod turns;
mod world;

pub use call_lines::Invoke;
pub use invokes::{Callers, Invoked};
pub use lossy::LossyNetwork;
pub use runs::{at_start, run};
pub use stop::Stop;
pub use world::{Datagram, World};
