//! What handlers do by a script, as definitions and laws: what is served for a request and which codes come early
//! (`specs/Handlers.antt`), what is kept of a request (`specs/Keeping.antt`), a job and its step as a program that
//! makes calls of a server (`specs/Jobs.antt`), the turn of a dispatcher (`specs/Dispatching.antt`), and what holds of
//! whole lives of jobs (`specs/Lives.antt`, `specs/History.antt`).
#![tactic(auto)]

mod job;
mod laws;

pub use job::{OFFER_BYTES, Phase, Want};
pub use laws::{
    early_codes_are_served, kept_requests_serve, lives_are_exact, lives_keep_what_counts, numbers,
    turns_are_exact, turns_keep_what_counts,
};
