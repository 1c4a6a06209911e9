//! What a command line of `cats` means. `clap` reads it; no type and no clause that a caller sees names it.
#![tactic(auto)]

mod commands;
pub mod help;
pub mod laws;
mod number_lists;
mod parser;
pub mod request;
pub mod worked;
