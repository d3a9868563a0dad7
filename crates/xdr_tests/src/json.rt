//! Values and their JSON, by example.

mod args;
mod forms;
mod misfits;
mod texts;
mod told;
mod types;
