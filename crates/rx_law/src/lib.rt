//! The laws of Rx, over histories alone.
#![tactic(auto)]

mod laws;

pub use laws::{
    accepts_once, client_gives_pieces, clocks_go_alike, connection_law, connection_law_once,
    enters_when_proved, legal_events_are_told, polls_give_plain_messages, server_gives_pieces,
    slots_suffice, world_law,
};
