//! Tests of the libraries up to `analysis`. They have worked rows.
#![tactic(auto)]

/// A table. The formatter leaves the rows as they are.
#[cfg(test)]
macro_rules! rows {
    ($($row:expr),* $(,)?) => { &[$($row),*] };
}

#[cfg(test)]
mod bidders;
#[cfg(test)]
mod canonical;
#[cfg(test)]
mod differences;
#[cfg(test)]
mod prices;
#[cfg(test)]
mod reasons;
#[cfg(test)]
mod sets;
#[cfg(test)]
mod texts;
#[cfg(test)]
mod winners;
