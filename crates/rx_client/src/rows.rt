//! The rows of a message at a client, in their order.

ghost use Rattle.std.specs.Prelude.{◌≡◌};
ghost use Rattle.rx_model.specs.declared.answers.Took.{Took};
ghost use Rattle.rx_packet.specs.Seen.{body_of};
ghost use Rattle.rx_rules.specs.Judging as rules;
ghost use Rattle.rx_node.specs.Steps.{facts_seen};

use rx_books::Facts;
use rx_model::Took;
use rx_packet::Body;

/// RESPONSE is for servers; without a class that challenges no CHALLENGE is for a client.
pub fn is_for_clients(challenges: bool, body: &Body<'_>) -> bool
    ensures { result ≡ rules.is_for_clients challenges (body_of body.now) }
{
    match body {
        Body::Chunk(_) | Body::Busy | Body::Ack(_) | Body::Abort(_) | Body::AckAll => true,
        Body::Challenge(_) => challenges,
        Body::Response(_) => false,
    }
}

/// The first row that holds of a message's channel; none where its call answers.
pub fn client_row(f: &Facts) -> Option<Took>
    ensures { (call : Took) → rules.else_row result call ≡ rules.client_row (facts_seen f.now) call }
{
    if f.stops_all {
        return Some(Took::Stopped);
    }
    if !f.has_number {
        return Some(Took::Strange);
    }
    if f.is_below {
        return Some(Took::Old);
    }
    if f.is_above {
        return Some(Took::Strange);
    }
    if !f.is_active {
        return Some(Took::Over);
    }
    None
}
