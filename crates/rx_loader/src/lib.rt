//! Makes a large load: four clients that call one server over a network that loses, until each of so many calls ended.
//!
//! `load` (`making.rt`) makes the nodes and what they serve (`nodes.rt`, `handlers.rt`), and then round by round opens
//! the calls for which there are free channels (`opening.rt`) and makes a lossy round (`loading.rt`); what became of
//! the calls is put together in a `Summary` (`summary.rt`). Its events are noted, and no text is made of them. A
//! contract says that what a load may make (`rx_load`) was made and noted (`specs/Loaded.antt`).
#![tactic(auto)]

mod handlers;
mod loading;
mod making;
mod nodes;
mod opening;
mod summary;

pub use making::load;
