//! The handlers of a server, which make its calls from a script.
//!
//! A `Dispatcher` has a job for each call that it accepted and that isn't finished: it reads the request, answers what
//! the script serves for it, and finishes the call. A turn accepts what waits and gives each job one step.
#![tactic(auto)]

mod calls;
mod deciding;
mod desk;
mod dispatcher;
mod job;
mod keeping;
mod round;

pub use dispatcher::Dispatcher;
