//! Class 200: a challenge is answered by a digest over a key that client and server share.
//!
//! A contract sees a `Token` as its key, and a `Chosen` by its secret (`specs/Chosen.antt`). The class is `token` of
//! the key, as the rules have it (`rx_rules`, `Classes`). Nothing is encrypted, and no datagram is signed.
#![tactic(auto)]

mod chosen;
#[cfg(test)]
mod tests;
mod token;

pub use chosen::Chosen;
pub use token::{KEY_BYTES, Token, constants};
