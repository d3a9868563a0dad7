//! Texts and what they give, by example.

mod afs;
mod answered;
mod bad_plans;
mod bad_scripts;
mod long_texts;
mod peers;
mod plans;
mod scripts;
mod shown;
mod spelled;
