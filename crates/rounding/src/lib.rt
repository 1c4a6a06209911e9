//! The prices of a text, made valid. Each decimal that `cats_text` does not read is written as a price that
//! it reads, and rounded if it is finer than a millionth.
#![tactic(auto)]

mod decimal;
mod digits;
pub mod laws;
pub mod layout;
mod line;
pub mod mend;
pub mod replacement;
pub mod rounder;
pub mod text;
mod value;
pub mod worked;

pub use decimal::is_decimal;
