//! Laws of what the two ends of a call know of each other.
ghost use Rattle.rx_between.specs.Acknowledged.{TrueHeld, TrueInWorld, TrueOnce};
ghost use Rattle.rx_between.specs.Agreed.{AgreeHeld, AgreeInWorld, AgreeOnce, SenseHeld, SenseInWorld, SenseOnce};
ghost use Rattle.rx_between.specs.Told.{AckAllsTell, AcksTell, DataTells};

/// Each ACK that a node gave tells truly what its call had received when it was made: how many packets were done with,
/// which of those above are kept, and the node's window. What was received only grew since, so that it holds however
/// late the ACK comes. Of any legal history of a client, and of a server that starts the call once.
pub fn acks_tell()
    ensures { AcksTell }
{}

/// Where a client gave an ACKALL of a call, the call's reply was read to its end. A server gives none. Of any legal
/// history.
pub fn ackalls_tell()
    ensures { AckAllsTell }
{}

/// Where a server gave data of a call, the call's request was read to its end. Of any legal history of a server that
/// starts the call once.
pub fn data_tells()
    ensures { DataTells }
{}

/// What each end of a call takes for acknowledged, by ACKs, by an ACKALL or by reply data, the other end has, at every
/// moment, whatever was lost, repeated and reordered: it is done with at least as many packets as are taken for hard
/// acknowledged, and keeps each that is taken for soft acknowledged. Between two legal ends of a connection, with a
/// network that invents nothing on it and a server that starts none of its calls while it has a record (`once`); where
/// the server forgot no record of it, or where nothing that comes is old (`held`); and of each connection of each
/// client of a world (`world`).
pub fn acknowledged_arrived()
    ensures once { TrueOnce }
    ensures held { TrueHeld }
    ensures world { TrueInWorld }
{}

/// The two ends of a call agree at every moment, whatever was lost, repeated and reordered. What each takes for
/// acknowledged the other has. Each packet that one kept is a piece that the other gave. The window that one takes for
/// the other's is no wider than that is, and what one gave lies within it. A call that the server knows its client
/// knows. A client's call that was read to its end has ended; and where the server isn't prompt, its call is over with
/// no code only where its client's has ended. Of each channel the latest call at the server is no later than the latest
/// at the client. Under the premises of [`acknowledged_arrived`].
pub fn ends_agree()
    ensures once { AgreeOnce }
    ensures held { AgreeHeld }
    ensures world { AgreeInWorld }
{}

/// Whatever message of a call one end gave so far, at whatever moment it comes, makes sense at the other, whether that
/// knows the call or not: data is kept, was there already or has no slot; an ACK, an ACKALL, a BUSY, a CHALLENGE and a
/// RESPONSE are heard; an ABORT stops the call. So nothing is beyond a window, clashes with a last packet, or speaks of
/// pieces that were never given. Under the premises of [`acknowledged_arrived`].
pub fn messages_make_sense()
    ensures once { SenseOnce }
    ensures held { SenseHeld }
    ensures world { SenseInWorld }
{}
