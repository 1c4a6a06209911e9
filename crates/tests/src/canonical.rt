//! Tests of `canon`, on worked rows.

mod calls;
mod comparisons;
mod families;
mod file_numbers;
mod refusals;
