//! Values of XDR (RFC 4506) as JSON (RFC 8259).
//!
//! A contract sees JSON as `serde_json`'s data of `specs/` (`read` of a text), a value as `Datum`.
//! `Says` has the format: which JSON says which value. `json_of` says which JSON is written of a value,
//! `judged` which value is read of JSON or where it is none first.
//! A caller writes values with `to_json` and reads them with `from_json`; `write_type` writes types.
//! Of a number, `serde_json` reads only digits as whole: `1.0` and `-0` are values of no type.
#![tactic(auto)]

mod args;
mod fault;
mod judging;
mod laws;
mod leaves;
mod objects;
mod printing;
mod type_name;

pub use args::args_from_json;
pub use fault::JsonFault;
pub use judging::{MAX_NESTING, from_json};
pub use laws::{numbers, value_returns};
pub use printing::to_json;
pub use type_name::write_type;
