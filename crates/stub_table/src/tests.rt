//! Streams of calls, by example.

mod afs;
mod limits;
mod replies;
mod requests;
mod told;
mod values;
