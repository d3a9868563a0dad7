//! What the system's errors say of a call on a UDP socket, by their numbers on Linux: errno(3), ip(7), udp(7).

use std::io;

// Not permitted, as by a filter of this machine.
const EPERM: i32 = 1;

// A signal came first.
const EINTR: i32 = 4;

// Not now: the time is over, or a queue is full.
const EAGAIN: i32 = 11;

// No memory in the kernel.
const ENOMEM: i32 = 12;

// Refused by a rule, or a broadcast.
const EACCES: i32 = 13;

// The device is gone.
const ENODEV: i32 = 19;

// An argument that isn't valid, as port 0, or a host that the bound address doesn't reach.
const EINVAL: i32 = 22;

// The machine isn't on the network.
const ENONET: i32 = 64;

// A router told of an error in a header.
const EPROTO: i32 = 71;

// The datagram is too long.
const EMSGSIZE: i32 = 90;

// The host told that it doesn't know the protocol.
const ENOPROTOOPT: i32 = 92;

// A router told that it doesn't go the way asked for.
const EOPNOTSUPP: i32 = 95;

// The bound address is gone.
const EADDRNOTAVAIL: i32 = 99;

// The network is down.
const ENETDOWN: i32 = 100;

// No way leads to the network.
const ENETUNREACH: i32 = 101;

// A host broke off.
const ECONNRESET: i32 = 104;

// No room in a queue.
const ENOBUFS: i32 = 105;

// The host told that nobody has the port.
const ECONNREFUSED: i32 = 111;

// The host is down.
const EHOSTDOWN: i32 = 112;

// No way leads to the host.
const EHOSTUNREACH: i32 = 113;

/// What an error says of a call on a socket. Of a receive the system may tell late what became of a datagram that was
/// sent before.
#[derive(Clone, Copy, Debug, PartialEq, Eq)]
pub enum Refusal {
    /// A signal came first, or the process was stopped and goes on. The call is made again.
    Interrupted,
    /// The wait is over, or the queue is full.
    NotNow,
    /// No way leads to the host.
    NoRoute,
    /// From the address that the socket is bound to no way leads to the host.
    NotFromHere,
    /// A filter or a rule of this machine doesn't let it through.
    Forbidden,
    /// The system, a router or the host didn't take the datagram.
    NotTaken,
    /// The socket itself fails.
    Socket,
}

impl Refusal {
    /// What this error says. One without a number is of no call on a socket that is open.
    pub fn of(error: &io::Error) -> Refusal {
        // No clause says it, since one would be these numbers again: the test `each_error_has_its_meaning` has the
        // table, by errno(3), with what a send and a receive make of each.
        let Some(number) = error.raw_os_error() else {
            return Refusal::Socket;
        };
        match number {
            EINTR => Refusal::Interrupted,
            EAGAIN => Refusal::NotNow,
            ENODEV | ENONET | ENETDOWN | ENETUNREACH | EHOSTDOWN | EHOSTUNREACH => Refusal::NoRoute,
            EINVAL | EADDRNOTAVAIL => Refusal::NotFromHere,
            EPERM | EACCES => Refusal::Forbidden,
            ENOMEM
            | ENOBUFS
            | EMSGSIZE
            | EPROTO
            | ENOPROTOOPT
            | EOPNOTSUPP
            | ECONNRESET
            | ECONNREFUSED => Refusal::NotTaken,
            _ => Refusal::Socket,
        }
    }
}
