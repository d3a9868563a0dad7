ghost use Rattle.std.specs.Prelude.{◌≡◌, ◌≤◌};
ghost use Rattle.rx_rules.specs.Rates.{first_rtt, estimate_with, rto_of, after_sample, after_backoff};
ghost use Rattle.rx_rtt.specs.Estimates.{IsBounded, IsBoundedWithin, estimate_of, measured_of};

use rx_model::wire::{FIRST_RTO_MS, MAX_ROUND_TRIP_MS, MAX_RTO_MS, MIN_RTO_MS};
use std::marker::Model;

/// The least variance of a prompt node, in milliseconds (RFC 6298, section 2).
const LEAST_VARIANCE_MS: u32 = 50;

/// A smoothed round trip, in eighths of a millisecond, and its variance, in quarters.
#[derive(Clone, Copy, Debug)]
pub struct Estimate {
    pub smoothed: u32,
    pub variance: u32,
}

/// The round trips of a call, and the time after which it sends a piece again.
#[derive(Debug, Drop)]
pub struct Rtt {
    /// None until a round trip was measured.
    estimate: Option<Estimate>,
    rto: u32,
    prompt: bool,
}

impl Model for Rtt {
    ghost use Rattle.std.specs.Prelude.{◌≤◌};
    ghost use Rattle.rx_rules.specs.Rates.{Rtt as RttLooks};
    ghost use Rattle.rx_rtt.specs.Estimates.{IsBoundedWithin, measured_of};

    ghost Value = { RttLooks };

    ghost view = { λ r. record { estimate = measured_of r.estimate; rto = r.rto; prompt = r.prompt } };

    ghost invariant = { λ r. IsBoundedWithin r.estimate × (r.rto ≤ 4000) };
}

impl Rtt {
    /// Of a call that starts, at a node that is prompt or isn't: nothing is measured yet.
    pub fn new(prompt: bool) -> Rtt
        ensures { result ≡ first_rtt prompt }
    {
        Rtt {
            estimate: None,
            rto: FIRST_RTO_MS as u32,
            prompt,
        }
    }

    /// A piece that was sent once was acknowledged after so many milliseconds; 60,000 at most count.
    pub fn sample(&mut self, ms: u64)
        ensures { self.new ≡ after_sample ms self.old }
    {
        let trip = ms.min(MAX_ROUND_TRIP_MS) as u32;
        let estimate = with_trip(trip, self.estimate);
        self.rto = rto_by(self.prompt, estimate);
        self.estimate = Some(estimate);
    }

    /// A piece had to be sent again: the time doubles, up to 4,000.
    pub fn backoff(&mut self)
        ensures { self.new ≡ after_backoff self.old }
    {
        self.rto = (2 * self.rto).min(MAX_RTO_MS as u32);
    }

    /// The time after which a piece is sent again, in milliseconds.
    pub fn rto(&self) -> u32
        ensures value { result ≡ self.now.rto }
        ensures most { result ≤ 4000 }
    {
        self.rto
    }
}

/// The estimate behind a round trip of so many milliseconds.
fn with_trip(ms: u32, estimate: Option<Estimate>) -> Estimate
    requires trip { ms ≤ 60000 }
    requires fit { IsBoundedWithin estimate }
    ensures value { estimate_of result ≡ estimate_with ms (measured_of estimate) }
    ensures fit { IsBounded result }
{
    match estimate {
        None => Estimate {
            smoothed: 8 * ms,
            variance: 2 * ms,
        },
        Some(before) => {
            let trip = before.smoothed / 8;
            Estimate {
                smoothed: before.smoothed - trip + ms,
                variance: before.variance - before.variance / 4 + ms.abs_diff(trip),
            }
        }
    }
}

/// The time to wait that an estimate gives: 350 to 4,000 milliseconds, at a prompt node 50 to 4,000.
fn rto_by(prompt: bool, estimate: Estimate) -> u32
    requires { IsBounded estimate }
    ensures value { result ≡ rto_of prompt (estimate_of estimate) }
    ensures most { result ≤ 4000 }
{
    let trip = estimate.smoothed / 8;
    if prompt {
        return (trip + estimate.variance.max(LEAST_VARIANCE_MS)).min(MAX_RTO_MS as u32);
    }
    (trip + estimate.variance)
        .min(MAX_RTO_MS as u32)
        .max(MIN_RTO_MS as u32)
}
