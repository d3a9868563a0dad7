//! What a whole reply says as text, and the bytes of a whole request.
//!
//! `reply_parts` gives what is printed of a reply: the INOUT and OUT values as one JSON array, and the
//! download, which isn't copied; `reply_text` has both in one line. `request_bytes` gives what a caller
//! sends: the request, and the upload behind it; `set_count` makes a counted stream of an upload that stands
//! behind a request already.
//! A contract sees the bytes of a reply as what they say (`reply_says` of `specs/`), which
//! `reply_line` has as text. The laws say that what is spelled is said again.
//! Whether a stream goes with a call is said by the caller and not by the interface.
#![tactic(auto)]

mod counted;
mod laws;
mod procs;
mod replies;
mod requests;
mod values;

pub use counted::{MAX_COUNTED_BYTES, set_count};
pub use laws::{array_returns, numbers, said_reply_is_spelled, spelled_reply_is_said};
pub use procs::proc_named;
pub use replies::{ReplyParts, reply_parts, reply_text};
pub use requests::request_bytes;

#[cfg(test)]
mod tests;
