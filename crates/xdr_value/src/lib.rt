//! Types, values and interfaces of XDR (RFC 4506), what fits a type, and how it is spelled.
//!
//! A contract sees a type, a value and an interface as data of `specs/` (`kind_of`, `value_of`,
//! `types_of`, `procs_of`), so two are equal where their parts are, whatever room a vector keeps.
//! A caller makes an `Interface` once `sound` has said yes; the facts stay in its type.
//! `Fits`, `spelling` and `depth` of `specs/` say which values a type has and which bytes they are.
//!
//! The crate has some more than a hundred functions, of which most test one fact in a few lines. It
//! stays one: `Interface` keeps in its type that the test of `sound` said yes, so types, their heads
//! and that test can't be parted, and `fits` and `zero` are said of interfaces.
#![tactic(auto)]

mod chains;
mod def;
mod differ;
mod ends;
mod fitting;
mod head;
mod hollow;
mod interface;
mod laws;
mod levels;
mod links;
mod names;
mod ranges;
mod soundness;
mod ty;
mod value;
mod zeros;

pub use chains::{resolve, shape_of};
pub use def::{Arg, Arm, Def, Field, Link, Member, Mode, Proc, Shape};
pub use fitting::{fits, is_length, number_fits, octets_fit};
pub use head::{Head, Tag, arm_of, as_tag, default_arm};
pub use hollow::{MOST_HOLLOW, list_limit};
pub use interface::Interface;
pub use laws::{numbers, sound_is};
pub use levels::{MAX_LEVELS, has_levels_within};
pub use names::known;
pub use ranges::{is_below, is_within};
pub use soundness::sound;
pub use ty::{Basic, Ty};
pub use value::{Value, tag_number};
pub use zeros::zero;
