use rx_model::Host;

/// Of a connection: the host and the service that its datagrams are for, and the number of its first calls.
#[derive(Clone, Copy, Debug, PartialEq, Eq)]
pub struct Link {
    pub peer: Host,
    pub service: u16,
    pub first: u32,
}
