//! Messages and the bytes that spell them.
//!
//! A contract sees a header and a body as one `Message` of `rx_model`, by `message_of` of `specs/Seen.antt`: what
//! `read_msg` answers is the model's reading of the bytes, and what `write_msg` writes is `made` of the message.
//! Neither takes memory. A buffer to write to has room for 1,472 bytes, whatever the message.
#![tactic(auto)]

mod ack;
mod body;
mod head;
mod read;
#[cfg(test)]
mod tests;
mod write;

pub use ack::AckBody;
pub use body::Body;
pub use head::Head;
pub use read::read_msg;
pub use write::write_msg;
