//! Values as XDR bytes (RFC 4506), both ways.
//!
//! `encode` gives a value's one spelling. `decode_front` finds the value at the front of some
//! bytes, or says exactly why there is none: more bytes could make one (`Short`), an item stands
//! there that no value has (`Bad`, with its place and cause), or a level too many begins (`Deep`).
//! `read_fields` reads one value for each field, and leaves what is behind them.
//! A contract sees values and types as data of `xdr_value`, and the reading as `value_at`.
#![tactic(auto)]

mod fault;
mod front;
mod items;
mod laws;
mod leaves;
mod reading;
mod words;
mod writing;

pub use fault::{Fault, Stop, Why};
pub use front::{Front, decode_front};
pub use laws::{item_is, one_form};
pub use reading::{read_fields, read_value};
pub use writing::encode;

#[cfg(test)]
mod test_types;
#[cfg(test)]
mod tests;
#[cfg(test)]
mod word_tests;
