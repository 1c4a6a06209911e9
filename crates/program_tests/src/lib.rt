//! Tests of `commands`, `command_line` and `cats_cmd`.
#![tactic(auto)]

/// A table. The formatter leaves the rows as they are.
#[cfg(test)]
macro_rules! rows {
    ($($row:expr),* $(,)?) => { &[$($row),*] };
}

#[cfg(test)]
mod command_lines;
#[cfg(test)]
mod runs;
