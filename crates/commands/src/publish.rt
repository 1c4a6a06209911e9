//! The help of `cats publish`, which has no function of one file or two: its run writes the texts of many.

use requests::help::{CommandHelp, FILES, TOTAL_STEPS};

/// What is said of the folder of the texts.
const FOLDER: &str = "\
The folder in which the texts are written; it is made if
it is not there";

/// What is said of the flag for a text of each file.
const ALL: &str = "\
Writes a text for each file, those of the same
auction too";

/// What `--help` prints of it.
pub fn help<'a>() -> CommandHelp<'a> {
    CommandHelp {
        name: "publish",
        about: "Writes the canonical text of each auction into a folder, once",
        arguments: &[
            ("total-steps", TOTAL_STEPS),
            ("all", ALL),
            ("DIR", FOLDER),
            ("FILE", FILES),
        ],
        after: "\
Writes the canonical text of each auction once, and prints a header and a row
for each file, with tabs between the cells. For example:
  $ cats publish canonical benchmarks > index.tsv

The text of a file below a folder that is named has the file's path below that
folder; that of a file that is named itself has the file's own name. With --all
one text is written for each file, those of the same auction too.

  file             the path of the file
  text             the path of the text below DIR; empty if none was written
  same_as          the first file that is the same auction; empty for it
  goods, bids      as in the file
  kept             bids of the canonical file
  rounded, zeroed  prices that --round changed; of these, how many became 0
  fault            why the file has no text; empty if it has one, or same_as

Nothing in DIR is ever replaced, and no link there is followed. Two files whose
texts would have one path, and a path at which something is, are reported
before anything is written. Each text is written beside its place and then
named, so it is whole or not there, also after an interrupt. A row is printed
when its file ends, with its text written. A file that is refused has a row
too, and the others go on. This command always uses the bounded search. A step
is that of 'cats normalise --bound'. 'cats help duplicates' says how paths are
printed, and what --round and --progress report.

Statuses: 0 if every file was judged and its text written; else the greatest of
any file: 2 for a file that is not a bid file, 3 for a step limit (use a
greater --steps or --total-steps, as the fault says), 4, 5 and 64 as 'cats
--help' lists them; 64 too if two texts would have one path",
    }
}
