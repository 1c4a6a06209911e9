//! The help of `cats duplicates`, which has no function of one file or two: its run groups many.

use requests::help::{CommandHelp, FILES, TOTAL_STEPS};

/// What `--help` prints of it.
pub fn help<'a>() -> CommandHelp<'a> {
    CommandHelp {
        name: "duplicates",
        about: "Prints which of many bid files are the same auction",
        arguments: &[("total-steps", TOTAL_STEPS), ("FILE", FILES)],
        after: "\
Prints the paths of the files that are one auction, each on a line, for each
auction that two or more of them are, with an empty line between two auctions.
For example:
  $ cats duplicates examples/ladder.cats examples/ladder_rewritten.cats
  examples/ladder.cats
  examples/ladder_rewritten.cats

With --all each other file that was judged is printed too, as an auction of one
file.

With --table a header and a row for each file are printed in the place of these
lines, in the order given, with tabs between the cells:
  $ cats duplicates --table examples/ladder.cats examples/two_bids.cats
  group\tfirst\tfile\tfault
  1\texamples/ladder.cats\texamples/ladder.cats\t
  2\texamples/two_bids.cats\texamples/two_bids.cats\t

  group  a number for each auction, from 1; empty if the file was not read
  first  the first file of the group, or the file itself if it is in none
  fault  why the file is refused; empty if it is not

So all but the first file of each group are those of the rows whose first is
not file. A row is printed when its file ends. A file that is refused has a row
too, in the place of a line on standard error. --all changes nothing then.

A folder is taken for all files below it, in the order of the bytes of their
paths. Links, devices and FIFOs below it are left out. A folder below it that
cannot be read is reported as a file that cannot be opened:
  $ cats duplicates folder

A FIFO or a device that is named is read, as the output of a program by 'cats
duplicates <(zcat one.gz) <(zcat other.gz)'. In a list of paths it is refused.

Only the files that 'find' finds, however many they are:
  $ find folder -type f -name '*.cats' -print0 |
      cats duplicates --files0-from /dev/stdin

A control byte in a path is printed as \\n, \\t or \\x1b, with its two
hexadecimal digits, and a backslash as \\\\. With -0 each path of the output is
printed as it is, and each line ends with NUL; each cell of a table, too.

With --round a file whose prices were rounded is reported, as 'auction.txt:
1288 prices rounded'.

A file that is refused is reported at once, with its path before the fault, and
the others go on. So is a list that cannot be read, and then no file is. With
--progress a line says before each file which one is read, as '3 of 479
folder/0002.txt'; on a terminal it is removed once the file is read. This
command always uses the bounded search. A step is that of 'cats normalise
--bound'.

Files that the step limit refuses are reported, and are printed too, behind the
others, if no search is needed to find that they are one auction: they have the
same goods, XOR bidders and OR bids, but for OR bids that a single other one
replaces. So files with the same bids in another order are together. Even with
--all none of them is printed alone.

Statuses: 0 if every file was judged, whether or not some are one auction; else
the greatest status of those that were not: 2 for a file that is not a bid
file, 3 for a step limit (use a greater --steps or --total-steps, as the fault
says), 4, 5 and 64 as 'cats --help' lists them",
    }
}
