//! Stray aborts: what DATA of a service that the server hasn't is owed (`rx.h`, `RX_INVALID_OPERATION`).

ghost use Rattle.std.specs.Prelude.{◌≡◌, ◌≤◌, length, take, drop};
ghost use Rattle.rx_model.specs.Body as models;
ghost use Rattle.rx_model.specs.Spelling.{made};
ghost use Rattle.rx_model.specs.declared.wire.TheConstants.{DATAGRAM_BYTES, RX_INVALID_OPERATION};
ghost use Rattle.rx_model.specs.Strays.{stray_of as rules_stray_of, stray_message};
ghost use Rattle.rx_packet.specs.Seen.{message_with_head};

use rx_model::wire::RX_INVALID_OPERATION;
use rx_model::{Host, Stray};
use rx_packet::{Body, Head, write_msg};

/// The stray abort that a message from a host owes.
pub fn stray_of(from: Host, head: &Head) -> Stray
    ensures { (body : models.Body) → result ≡ rules_stray_of from (message_with_head head.now body) }
{
    Stray {
        host: from,
        epoch: head.epoch,
        cid: head.cid,
        index: head.index,
        service: head.service,
    }
}

/// The header of a stray abort.
fn stray_head(stray: &Stray) -> Head
    ensures { message_with_head result (models.Abort (RX_INVALID_OPERATION)) ≡ stray_message stray.now }
{
    Head {
        epoch: stray.epoch,
        cid: stray.cid,
        number: 0,
        seq: 0,
        serial: 0,
        flags: 0,
        status: 0,
        index: stray.index,
        spare: 0,
        service: stray.service,
    }
}

/// Writes a stray abort to the front of the buffer, and answers its length in bytes.
pub fn write_stray(stray: &Stray, to: &mut [u8]) -> usize
    requires { DATAGRAM_BYTES ≤ length to.old }
    ensures written { take result to.new ≡ made (stray_message stray.now) }
    ensures rest { drop result to.new ≡ drop result to.old }
{
    write_msg(&stray_head(stray), &Body::Abort(RX_INVALID_OPERATION), to)
}
