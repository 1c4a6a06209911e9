//! What can be requested of the program: its commands, as a table, and a request for one of them.
#![tactic(auto)]

pub mod help;
pub mod request;
pub mod task;
pub mod worked;
