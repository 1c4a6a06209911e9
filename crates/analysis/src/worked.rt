//! Worked examples of the definitions, computed by the prover.

pub mod differences;
pub mod reasons;
pub mod winners;
