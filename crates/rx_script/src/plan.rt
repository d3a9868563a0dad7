//! What plans and plans of peers say, line by line.

use crate::limits::KEY_BYTES;
use crate::spelled::Spelled;
use rx_model::{Host, Limits};
use xdr_value::Value;

/// A line of a plan of a server and its clients. A `call` or a `packet` is the K of its name, a
/// `client` the I of its name, and a `node` 0 for the server or the client's I. What a line doesn't
/// name is filled in.
#[derive(Debug, Drop)]
pub enum PlanLine {
    /// Makes the server.
    Server {
        host: Host,
        service: u16,
        limits: Limits,
        key: Option<[u8; KEY_BYTES]>,
        nonce: u64,
    },
    /// Makes the next client.
    Client {
        host: Host,
        epoch: u32,
        limits: Limits,
        key: Option<[u8; KEY_BYTES]>,
    },
    /// The client connects to the server; `first` is the first call number.
    Connect {
        client: u32,
        first: u32,
    },
    /// The client makes a call on the connection.
    Call {
        client: u32,
        cid: u32,
    },
    /// The client offers bytes to the request.
    Write {
        call: u32,
        bytes: Spelled,
    },
    /// The client ends the request.
    Shut {
        call: u32,
    },
    /// The client reads at most `max` bytes of the reply.
    Read {
        call: u32,
        max: u32,
    },
    /// The client asks how the call stands.
    Ask {
        call: u32,
    },
    /// The client ends the call with a code.
    Cancel {
        call: u32,
        code: i32,
    },
    /// The handler takes the next call.
    Accept,
    /// The handler reads at most `max` bytes of the request.
    HandlerRead {
        call: u32,
        max: u32,
    },
    /// The handler offers bytes to the reply.
    HandlerWrite {
        call: u32,
        bytes: Spelled,
    },
    /// The handler ends with a code.
    Finish {
        call: u32,
        code: i32,
    },
    /// The node is asked for the datagram that is due.
    Poll {
        node: u32,
    },
    /// The datagram is taken by each node that it is for.
    Deliver {
        packet: u32,
    },
    /// The datagrams from `first` to `last` are joined and delivered as one.
    Jumbo {
        first: u32,
        last: u32,
    },
    /// The node takes invented bytes, as from a host.
    Forge {
        node: u32,
        host: Host,
        bytes: Spelled,
    },
    /// The node's clock is set, or all clocks, to milliseconds.
    Clock {
        node: Option<u32>,
        now: u64,
    },
    /// A call and its caller: IN and INOUT values, and what is sent up or asked down beside them.
    Invoke {
        client: u32,
        cid: u32,
        proc: String,
        up: Option<Spelled>,
        down: bool,
        args: Vec<Value>,
    },
    /// A turn of the server's dispatcher, or of the client's callers.
    Turn {
        node: u32,
    },
    /// Fair rounds.
    Rounds {
        rounds: u32,
    },
    /// Rounds over a network that loses, repeats and holds datagrams, by this generator.
    Lossy {
        number: u64,
        rounds: u32,
    },
}

/// A line with its number in the text, from 1.
#[derive(Debug, Drop)]
pub struct Numbered {
    pub line: u32,
    pub what: PlanLine,
}

/// The lines of a plan, in order.
#[derive(Debug, Drop)]
pub struct Plan {
    pub lines: Vec<Numbered>,
}

/// A line of a plan of peers. A `peer` or `to` is the I of the peer's name, a `call` or a `packet`
/// the K of its name. What a line doesn't name is filled in.
#[derive(Debug, Drop)]
pub enum PeerLine {
    /// Makes the next peer.
    Peer {
        host: Host,
        epoch: u32,
        service: u16,
        limits: Limits,
    },
    /// The peer connects to another.
    Connect {
        peer: u32,
        to: u32,
    },
    /// A call and its caller, as in a plan.
    Invoke {
        peer: u32,
        cid: u32,
        proc: String,
        up: Option<Spelled>,
        down: bool,
        args: Vec<Value>,
    },
    /// The caller ends the call with a code.
    Cancel {
        call: u32,
        code: i32,
    },
    /// The caller asks how the call stands.
    Ask {
        call: u32,
    },
    /// The peer is asked for the datagram that is due.
    Poll {
        peer: u32,
    },
    /// The datagram is taken by each peer that it is for.
    Deliver {
        packet: u32,
    },
    /// The peer's clocks are set, or all clocks, to milliseconds.
    Clock {
        peer: Option<u32>,
        now: u64,
    },
    /// A turn of the peer's dispatcher and then of its callers.
    Turn {
        peer: u32,
    },
    /// Fair rounds.
    Rounds {
        rounds: u32,
    },
    /// Rounds over a network that loses, repeats and holds datagrams, by this generator.
    Lossy {
        number: u64,
        rounds: u32,
    },
}

/// A line with its number in the text, from 1.
#[derive(Debug, Drop)]
pub struct PeerNumbered {
    pub line: u32,
    pub what: PeerLine,
}

/// The lines of a plan of peers, in order.
#[derive(Debug, Drop)]
pub struct PeerPlan {
    pub lines: Vec<PeerNumbered>,
}
