//! What holds of calls over a wire, whatever comes on it.

ghost use Rattle.std.specs.Prelude.{◌≡◌, ◌-◌, ◌^◌};
ghost use Rattle.rx_wire_loop.specs.ToldCalls.{CallsTell};

use crate::lines::{CLIENT, SERVER};
use crate::ports::{LAST_MOMENT, LONGEST_WAIT_MS, TAKE_BYTES};

/// Of each call that was made and ended: the events that were noted are a legal history of its client, in which what
/// was said of the call is the first of the request, and all of it where the call is shut; the reply is what was read
/// of the call; and it ended with the call's end, or was given up by its caller.
pub fn calls_tell()
    ensures { CallsTell }
{}

/// A take has room for 65,536 bytes, and waits a minute at most, and not beyond 2^62 - 1; a server's events are noted
/// for node 0, those of a client that makes a call for node 1.
pub fn numbers()
    ensures take { TAKE_BYTES ≡ 65536 }
    ensures wait { LONGEST_WAIT_MS ≡ 60000 }
    ensures last { LAST_MOMENT ≡ 2 ^ 62 - 1 }
    ensures server { SERVER ≡ 0 }
    ensures client { CLIENT ≡ 1 }
{}
