//! What a large load makes: four clients that call one server over a network that loses, until each of so many calls
//! ended.
//!
//! What a load may make stands in `specs/Loads.antt`, over the parts of plans; what became of datagrams and calls, in
//! numbers, in `Summing`; what holds of each load in `Keeping`, and its law in `laws.rt`. `rx_loader`
//! makes one.
#![tactic(auto)]

mod ends;
mod laws;
mod limits;
mod summary;

pub use ends::Ends;
pub use laws::loads_keep_promises;
pub use limits::{
    BODY, BODY_BYTES, CID, CLIENT_PORT, CLIENTS, FIRST_ADDR, MAX_CALLS, MAX_ROUNDS, OPCODE, PROC,
    SERVER_PORT, SERVICE, SIZE, load_limits,
};
pub use summary::{Loaded, Summary};
