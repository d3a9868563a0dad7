//! What jobs go by.

use rx_script::Script;
use std::alloc::Global;
use xdr_value::Interface;

/// The interface and the script that jobs serve, and their memory.
#[derive(Drop)]
pub struct Desk<'a> {
    pub alloc: Global,
    pub iface: &'a Interface,
    pub script: &'a Script,
}
