//! `Request`: a command, with all that may come with one.

use crate::task::Task;
use rounding::replacement::PriceRule;
use valuation::search::SearchOptions;

/// What the program has to do. What a command does not take has no effect on it.
#[derive(Debug, Drop)]
pub struct Request<'a> {
    pub task: Task,
    /// The paths of the files, in order.
    pub files: Vec<&'a str>,
    /// The path of a list: of the files, in which each path ends with NUL, or of the bids of `revenue`.
    pub list: Option<&'a str>,
    /// The goods of `value`.
    pub goods: Vec<u16>,
    /// The bids of `revenue`, by their numbers.
    pub bids: Vec<u32>,
    /// What becomes of each price, if prices are rounded.
    pub prices: Option<PriceRule>,
    /// How each file is searched, and how many steps its searches may take.
    pub options: SearchOptions,
    /// Whether it is reported how many files were read.
    pub progress: bool,
    /// Whether each path of the output ends with NUL.
    pub null: bool,
    /// Whether `duplicates` prints the files too that are the only ones of their auction, `publish` writes one text for
    /// each file, and `compare` prints the files too that are the same auction in two folders.
    pub all: bool,
    /// Whether `duplicates` prints a table with a row for each path, in the place of groups.
    pub table: bool,
    /// The folder in which `publish` writes texts.
    pub folder: Option<&'a str>,
}
