//! What `--help` prints: of the program and of each command a line and a text, which says what is printed, and has an
//! example and the statuses. The texts of arguments are the program's, but for those in which a command differs.

use commands::command::help_of;
use requests::help::CommandHelp;
use requests::task::TASKS;
use std::alloc::{AllocError, Global};

/// The help of the program and of each command, the program's first.
pub fn all_help<'a>(alloc: Global) -> Result<Vec<CommandHelp<'a>>, AllocError> {
    let mut help = Vec::with_capacity(alloc, TASKS.len() + 1)?;
    help.push(program_help())?;
    for row in &TASKS {
        help.push(help_of(row.task))?;
    }
    Ok(help)
}

/// What each argument is, for the commands that say nothing else of it.
const ARGUMENTS: &[(&str, &str)] = &[
    ("FILE", "The path of a bid file"),
    ("SECOND_FILE", "The path of a bid file"),
    (
        "GOOD",
        "\
The goods of the bundle: numbers up to 4095, lists such
as 0,1,2, and ranges such as 0-19",
    ),
    (
        "BID",
        "\
The bids: numbers up to 65535, lists such as 0,1,2,
and ranges such as 0-19",
    ),
    ("bids", "The numbers of the bids are in this file"),
    (
        "bound",
        "\
Uses the bounded search: it decides many files that
the plain search refuses. The answer is the same",
    ),
    (
        "always-bound",
        "\
Changes nothing: this command always uses the
bounded search",
    ),
    (
        "steps",
        "\
The most steps that the search on a bundle may
take, from 1 to 1000000000",
    ),
    (
        "total-steps",
        "\
The most steps of all searches together, from 1 to
1000000000000, only beside --bound [no limit by
default]",
    ),
    (
        "progress",
        "Reports on standard error how many files were read",
    ),
    (
        "null",
        "\
Prints each path as it is, and ends each line with
NUL",
    ),
    (
        "all",
        "\
Prints the files too that are the only ones of
their auction",
    ),
    (
        "table",
        "\
Prints a table: for each file its group, the first
file of that, and why it was refused",
    ),
    (
        "files0-from",
        "The paths are in this file, each with NUL after it",
    ),
    ("exact", "Refuses a price that would be rounded"),
    (
        "round",
        "\
Reads a file as 'cats round' prints it, and reports
how many of its prices were rounded",
    ),
    (
        "round-exact",
        "\
Reads a file as 'cats round --exact' prints it, and
refuses a price that would be rounded. It holds too
if --round is given",
    ),
];

/// The statuses and the faults.
const STATUSES: &str = "\
A fault is one line on standard error. Statuses:
   0  done; of compare and diff: the same auction; of revenue: the bids can win
      together
   1  of compare and diff: different auctions; of revenue: two of the bids
      cannot win together
   2  a file is not a bid file, or longer than is read
   3  a search takes more steps than its limit: use --bound, and then a greater
      --steps
   4  memory was refused
   5  a file cannot be opened, a read failed, the output failed, or it cannot
      be reported that prices were changed
  64  the command line is wrong, or names a good or a bid that the file does
      not have

The first fault of a file is reported as 'line L: KIND':
  Header          not the line that is due: 'goods N', 'bids N' and 'dummy N',
                  in this order
  NotANumber      a word that is not a number; a price has digits and at most
                  one point, and no exponent
  TooLarge        a number above its limit
  ExtraBid        more bids than the header says
  BidNumber       a bid's number is not below the number of bids; they count
                  from 0
  RepeatedNumber  two bids have one number
  TooFine         a price has more than six places after the point
  GoodRange       a good is not below goods + dummy; they count from 0
  RepeatedGood    a bid has a good twice
  TwoDummies      a bid has two dummy goods
  EmptyBundle     a bid has no good that is not a dummy good
  NoEnd           a bid's line does not end with '#'
  AfterEnd        there is something after '#'
  Missing         the file ends before its header and all of its bids have come
Reported without a line: TooLong, the file is longer than is read; Device, a
read failed, as of a folder.

With --round a command takes prices with exponents or more than six places: it
reads a file as 'cats round' prints it.";

fn program_help<'a>() -> CommandHelp<'a> {
    CommandHelp {
        name: "cats",
        about: "Reads auction bid files in the format of CATS 2.0",
        arguments: ARGUMENTS,
        after: STATUSES,
    }
}
