//! The rows of a message at a server, in their order.

ghost use Rattle.std.specs.Prelude.{◌≡◌};
ghost use Rattle.rx_model.specs.declared.answers.Took.{Took};
ghost use Rattle.rx_packet.specs.Seen.{body_of, message_of};
ghost use Rattle.rx_rules.specs.Judging as rules;
ghost use Rattle.rx_rules.specs.Setup.{Setup};
ghost use Rattle.rx_node.specs.Steps.{facts_seen};
ghost use Rattle.rx_server.specs.Taking.{later_row as later_of};

use rx_books::Facts;
use rx_model::Took;
use rx_model::wire::CLIENT_INITIATED;
use rx_packet::{Body, Head};

/// The first row that holds before a connection is looked for: from the wrong side; of the wrong kind; of another
/// service or class.
pub fn outer_row(
    service: u16,
    index: u8,
    challenges: bool,
    head: &Head,
    body: &Body<'_>,
) -> Option<Took>
    ensures { (s : Setup) → s.class.index ≡ index → s.class.challenges ≡ challenges →
        result ≡ rules.server_outer s service (message_of head.now body.now) }
{
    if head.flags & CLIENT_INITIATED == 0 {
        return Some(Took::Foreign);
    }
    if !is_for_servers(challenges, body) {
        return Some(Took::Strange);
    }
    if head.service != service || head.index != index {
        return Some(Took::Unserved);
    }
    None
}

/// BUSY and CHALLENGE are for clients; without a class that challenges no RESPONSE is for a server.
fn is_for_servers(challenges: bool, body: &Body<'_>) -> bool
    ensures { result ≡ rules.is_for_servers challenges (body_of body.now) }
{
    match body {
        Body::Chunk(_) | Body::Ack(_) | Body::Abort(_) | Body::AckAll => true,
        Body::Busy | Body::Challenge(_) => false,
        Body::Response(_) => challenges,
    }
}

/// The first row that holds of a message's connection and channel; none where its call answers.
pub fn server_row(f: &Facts) -> Option<Took>
    ensures { (call : Took) → rules.else_row result call ≡ rules.server_row (facts_seen f.now) call }
{
    if !f.is_known && !(f.can_start && f.has_number) {
        return Some(Took::Strange);
    }
    if f.stops_all {
        return Some(Took::Stopped);
    }
    if !f.has_number {
        return Some(Took::Strange);
    }
    if f.is_below {
        return Some(Took::Old);
    }
    if f.is_above {
        return later_row(f);
    }
    if !f.is_active {
        return Some(Took::Over);
    }
    None
}

/// The same of a message with a higher number than its channel's.
fn later_row(f: &Facts) -> Option<Took>
    ensures { (call : Took) → rules.else_row result call ≡ later_of (facts_seen f.now) call }
{
    if !f.can_start {
        return Some(Took::Strange);
    }
    if f.is_handled {
        return Some(Took::Busy);
    }
    if !f.is_live && f.is_crowded {
        return Some(Took::NoRoom);
    }
    None
}
