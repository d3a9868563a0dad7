//! What a node is set up with, by the options of a command.

ghost use Rattle.std.specs.Prelude.{◌≡◌};
ghost use Rattle.rx_top.specs.Calls.{client_limits};
ghost use Rattle.rx_top.specs.Leaves.{calling_of, serving_of};

use rx_model::Limits;
use rx_model::wire::MAX_WINDOW;
use rx_wire_loop::{Calling, Serving};
use rx_words::{CallOptions, ServeOptions};

/// What a node is served with.
pub fn serving_of(options: &ServeOptions) -> Serving
    ensures { result ≡ serving_of options.now }
{
    Serving {
        at: options.at,
        service: options.service,
        limits: options.limits,
        nonce: options.nonce,
        span: options.span,
        turns: options.turns,
        jumbo: options.jumbo,
    }
}

/// What a call is made with.
pub fn calling_of(options: &CallOptions) -> Calling
    ensures { result ≡ calling_of options.now }
{
    Calling {
        from: options.from,
        epoch: options.epoch,
        limits: limits_with(options.window),
        to: options.to,
        service: options.service,
        turns: options.turns,
        jumbo: options.jumbo,
    }
}

/// The limits of a client with this window, which makes one call and needs no room for others.
fn limits_with(window: u32) -> Limits
    ensures { result ≡ client_limits window }
{
    Limits {
        conns: 1,
        calls: 1,
        slots: 2 * MAX_WINDOW + 1,
        window,
    }
}
