//! What a message that comes moves at the end of a call, whatever was lost before.
#![tactic(auto)]

mod laws;

pub use laws::lowest_piece_moves;
