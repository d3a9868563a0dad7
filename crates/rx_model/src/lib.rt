//! What is said: hosts, names of calls, answers, events and their lines, the constants of the wire; in `specs/`
//! messages, their spelling, and the text of a history.
#![tactic(auto)]

mod answers;
mod bytes;
mod event;
mod fits;
mod line;
mod names;
mod pace;
mod spelling_laws;
mod stray;
mod text;
mod text_laws;
pub mod wire;
mod wire_laws;

pub use answers::{
    Asked, BadMsg, CallRead, CallRefused, ConnFull, End, Full, NotOpen, ReadAns, ReadGot,
    ServeRead, ServeRefused, Took, WroteGot,
};
pub use bytes::Bytes;
pub use event::{Event, Noted};
pub use line::event_line;
pub use names::{CallName, Host, Limits};
pub use pace::Pace;
pub use spelling_laws::{reads_the_spelled, reads_the_written, spells_one, writes_a_spelling};
pub use stray::Stray;
pub use text_laws::{texts_tell_histories, texts_tell_sides};
pub use wire_laws::wire_numbers;
