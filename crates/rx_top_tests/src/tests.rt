//! Commands, and what they leave.

mod calls;
mod case;
mod files;
mod loads;
mod others;
mod row;
mod serves;
mod wire;
