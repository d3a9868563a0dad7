//! What is asked for by a call.

use xdr_value::{Interface, Proc};

/// What is asked for: a procedure of an interface, and whether a download comes.
#[derive(Drop)]
pub struct Asked<'a> {
    pub iface: &'a Interface,
    pub proc: &'a Proc,
    pub down: bool,
}
