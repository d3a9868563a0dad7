//! How long a piece is waited for, and how many may be in flight.
//!
//! A contract sees an `Rtt` and a `Cwnd` as the records of those names in `Rates` of `rx_rules`, and each call here is
//! one step of that module, exactly. Neither takes memory.
#![tactic(auto)]

mod cwnd;
mod rtt;
#[cfg(test)]
mod tests;

pub use cwnd::Cwnd;
pub use rtt::Rtt;
