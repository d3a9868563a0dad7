//! The sending window of one stream: the pieces that aren't hard acknowledged, each in a slot of a pool.
//!
//! With the bytes of its pool a window stands for what was sent (`StandsSent` of `specs/Window.antt`, over `Sent` of
//! `rx_rules`). Each contract says for every stream that the window stood for what the call answers, and for which
//! stream it stands then. What it did to the pool is said by `Keeps` of `rx_pool` over the slots that it holds
//! (`piece_slots`). A caller imports `specs/Window.antt` and `specs/Next.antt`; `proofs/Undisturbed.antt` has that a
//! window stands for what it stood for where others used the same pool. After `make` no call takes memory.
//!
//! Which pieces are lost is kept ready (`src/lost.rt`): an ACK with marks and a piece that is sent again look through
//! the pieces held, once; a poll and a piece that is sent for the first time don't.
#![tactic(auto)]

mod lost;
mod marks;
mod newly;
mod next;
mod piece;
mod pieces;
#[cfg(test)]
mod tests;
mod window;

pub use newly::Newly;
pub use next::NextPiece;
pub use window::SendWin;
