//! The client: connections to servers, its calls, and what it owes.
//!
//! A call lives from `call` until its reply is read to its end, a code reaches it, it is cancelled, or nothing was
//! heard for 12,000 milliseconds. A pass takes what came, writes and reads, and polls until nothing is due; `due` says
//! when to poll again.
#![tactic(auto)]

mod client;
mod rows;

pub use client::Client;
