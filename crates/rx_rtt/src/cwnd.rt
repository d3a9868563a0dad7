ghost use Rattle.std.specs.Prelude.{◌≡◌, ◌≤◌, nat_lt};
ghost use Rattle.rx_rules.specs.Rates.{first_cwnd, after_acked, after_loss, after_timeout};
ghost use Rattle.rx_rules.specs.CallItems.{prompts};

use rx_model::wire::{FIRST_CWND, MIN_SSTHRESH};
use std::marker::Model;

/// The congestion window of a call: how many pieces may be in flight.
#[derive(Debug, Drop)]
pub struct Cwnd {
    window: u32,
    /// Slow start lasts while the window is below this threshold.
    ssthresh: u32,
    /// The node's own window, which the window never passes.
    most: u32,
    /// Whether the node is prompt: it asks behind each half of its own window, and gives again at once what it takes
    /// for lost.
    prompt: bool,
}

impl Model for Cwnd {
    ghost use Rattle.std.specs.Prelude.{◌≤◌};
    ghost use Rattle.rx_rules.specs.Rates.{Cwnd as CwndLooks};
    ghost use Rattle.rx_model.specs.declared.wire.TheConstants.{MIN_WINDOW, MAX_WINDOW};

    ghost Value = { CwndLooks };

    ghost view = { λ c. record { window = c.window; ssthresh = c.ssthresh; most = c.most; prompt = c.prompt } };

    ghost invariant = { λ c. (c.window ≤ c.most) × (MIN_WINDOW ≤ c.most) × (c.most ≤ MAX_WINDOW) };
}

impl Cwnd {
    ghost use Rattle.rx_model.specs.declared.wire.TheConstants.{MIN_WINDOW, MAX_WINDOW};

    /// Of a call that starts, at a node with a window of so many packets that is prompt or isn't: slow start from 2 on.
    pub fn new(window: u32, prompt: bool) -> Cwnd
        requires least { MIN_WINDOW ≤ window }
        requires most { window ≤ MAX_WINDOW }
        ensures { result ≡ first_cwnd window prompt }
    {
        Cwnd {
            window: FIRST_CWND,
            ssthresh: window,
            most: window,
            prompt,
        }
    }

    /// An ACK newly acknowledged n pieces.
    pub fn acked(&mut self, n: u32)
        ensures { self.new ≡ after_acked n self.old }
    {
        let growth = if n == 0 {
            0
        } else if self.window < self.ssthresh {
            n
        } else {
            1
        };
        self.window = self.window.saturating_add(growth).min(self.most);
    }

    /// A piece was lost: the window closes by half.
    pub fn lost(&mut self)
        ensures { self.new ≡ after_loss self.old }
    {
        self.window = (self.window / 2).max(MIN_SSTHRESH);
        self.ssthresh = self.window;
    }

    /// A piece's time was up: slow start begins anew.
    pub fn timed_out(&mut self)
        ensures { self.new ≡ after_timeout self.old }
    {
        self.ssthresh = (self.window / 2).max(MIN_SSTHRESH);
        self.window = 1;
    }

    /// Whether the node gives again at once what it takes for lost.
    pub fn recovers(&self) -> bool
        ensures { result ≡ self.now.prompt }
    {
        self.prompt
    }

    /// Whether another piece may be sent where so many are in flight.
    pub fn room(&self, in_flight: u32) -> bool
        ensures { result ≡ nat_lt in_flight self.now.window }
    {
        in_flight < self.window
    }

    /// Whether a piece asks as it ends half of what a prompt node can send of its own window, all but the piece that is
    /// being filled.
    pub fn prompts(&self, seq: u32) -> bool
        ensures { result ≡ prompts self.now seq }
    {
        self.prompt && seq % ((self.most - 1) / 2) == 0
    }
}
