//! The commands on bid files, as functions of their inputs. Each has a module, with its help, its function and its text.
#![tactic(auto)]

pub mod answer;
pub mod check;
pub mod command;
pub mod compare;
pub mod diff;
pub mod duplicates;
pub mod explain;
pub mod fault;
pub mod faults;
mod input;
pub mod laws;
pub mod lp;
pub mod normalise;
pub mod printed;
pub mod publish;
pub mod revenue;
pub mod round;
pub mod show;
pub mod sizes;
pub mod statuses;
pub mod value;
pub mod worked;

pub use input::Input;
