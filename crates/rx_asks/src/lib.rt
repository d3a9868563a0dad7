//! What a caller asks of its client, as definitions and laws: a caller as its contracts see it (`specs/View.antt`), its
//! turn as a program that makes calls of a client (`specs/Asks.antt`), and what it tells of its call
//! (`specs/History.antt`).
#![tactic(auto)]

mod ask;
mod laws;

pub use ask::{Ask, BLOCK_BYTES, CC_UNMARSHAL, Phase, REPLY_BYTES};
pub use laws::{numbers, reads_give_bytes, tells_of_its_call};
