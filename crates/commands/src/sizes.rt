//! `cats sizes`: the numbers of a file and of its canonical file, and why they are not known.

mod count;

ghost use Rattle.std.specs.Prelude.{◌≡◌, ℕ, Vec, codes};
ghost use Rattle.std.specs.Global.{Global};
ghost use Rattle.cats_text.specs.declared.read_fault.Kind.TheVariants.{TwoDummies};
ghost use Rattle.canon.specs.declared.canon_fault.CanonFault.TheVariants.{Read};
ghost use Rattle.commands.specs.Examples.{larger_bid, xor_ladder};
ghost use Rattle.commands.specs.Judgements.{IsHeavy, IsJudged, IsUnjudged};
ghost use Rattle.commands.specs.Sizes.{numbers_judged};
ghost use Rattle.commands.specs.declared.faults.Limit.TheVariants.{OfEach};
ghost use Rattle.commands.specs.declared.faults.RunFault.TheVariants.{Refused};
ghost use Rattle.canon.specs.declared.which.Which.TheVariants.{Only};
ghost use Rattle.std.specs.Prelude.{IfOk};
ghost use Rattle.commands.specs.Sizes.{PutsNumbers};

use crate::faults::{RunFault, name_bid};
use crate::input::Input;
use canon::normal::named_normal_file;
use canon::{CanonFault, Which};
use count::{push_counts, push_sizes};
use requests::help::{CommandHelp, FILES, TOTAL_STEPS};
use std::alloc::{AllocError, Global};
use valuation::search::SearchOptions;

/// What `--help` prints of it.
pub fn help<'a>() -> CommandHelp<'a> {
    CommandHelp {
        name: "sizes",
        about: "Prints a table of sizes of bid files and of their canonical files",
        arguments: &[("total-steps", TOTAL_STEPS), ("FILE", FILES)],
        after: "\
Prints a header and a row for each file, in the order given, with tabs between
the cells. For example:
  $ cats sizes examples/ladder.cats examples/two_bids.cats
  goods\tbids\tor_bids\txor_bidders\tdummies\tkept\tkept_or\tkept_xor\tfault\tfile
  2\t5\t3\t1\t1\t3\t2\t1\t\texamples/ladder.cats
  3\t2\t1\t1\t1\t2\t1\t1\t\texamples/two_bids.cats

  goods, bids, dummies     as in the file
  or_bids                  bids without a dummy good
  xor_bidders              dummy goods that some bid has
  kept, kept_or, kept_xor  bids, OR bids and XOR bidders of the canonical file
  fault                    why the file is refused; empty if it is not

A row is printed when its file ends. A file that is refused has a row too, and
the others go on. Its numbers are empty; if only the step limit stops it, just
those of its canonical file. On standard error is nothing but what --round and
--progress report, and why a list of paths cannot be read. This command always
uses the bounded search. A step is that of 'cats normalise --bound'. 'cats help
duplicates' says how paths are printed, and what these two report.

All files below a folder, in the order of the bytes of their paths:
  $ cats sizes folder > sizes.tsv

Statuses: 0 if every file was judged; else the greatest status of those that
were not: 2 for a file that is not a bid file, 3 for a step limit (use a
greater --steps or --total-steps, as the fault says), 4, 5 and 64 as 'cats
--help' lists them",
    }
}

/// The empty cells of the numbers of a file that was not read.
pub const NO_NUMBERS: &str = "\t\t\t\t\t\t\t\t";

/// The empty cells of the numbers of a canonical file that is not known.
const NO_COUNTS: &str = "\t\t\t";

/// Puts the numbers of a file and of its canonical file behind the text, each with a tab after it, and answers why they are
/// not known. A number that is not known is an empty cell.
pub fn push_numbers<I: Input>(
    alloc: Global,
    text: &mut Vec<u8>,
    input: &mut I,
    options: SearchOptions,
) -> Result<Option<RunFault>, AllocError>
    requires { I.is_ready input.old }
    ensures { IfOk result (PutsNumbers I.gives I.refuses options input.old input.new text.old.items text.new.items) }
{
    let file = match input.read_file(alloc) {
        Ok(file) => file,
        Err(fault) => {
            text.extend_from_slice(NO_NUMBERS.as_bytes())?;
            return Ok(Some(RunFault::from(CanonFault::from(fault))));
        }
    };
    let mut sizes = Vec::new(alloc);
    push_sizes(alloc, &mut sizes, &file)?;
    match named_normal_file(alloc, &file, options) {
        Ok(named) => {
            text.extend_from_slice(sizes.as_slice())?;
            push_counts(alloc, text, &named.file)?;
            Ok(None)
        }
        Err(CanonFault::StepLimit { goods }) => {
            text.extend_from_slice(sizes.as_slice())?;
            text.extend_from_slice(NO_COUNTS.as_bytes())?;
            let fault = CanonFault::StepLimit { goods };
            let why = name_bid(alloc, Which::Only, &file, options, fault)?;
            Ok(Some(why))
        }
        // a file that was read is refused for nothing else
        Err(_) => {
            text.extend_from_slice(NO_NUMBERS.as_bytes())?;
            Ok(Some(RunFault::from(CanonFault::Memory)))
        }
    }
}

/// The numbers in rows of `cats sizes`: of a file that was judged, of one with a heavy bundle, and of none.
pub fn numbers_of_rows()
    ensures judged { numbers_judged (IsJudged larger_bid) ≡ codes "2\t3\t3\t0\t0\t2\t2\t0\t" }
    ensures heavy { (goods : Vec ℕ Global)
        → numbers_judged (IsHeavy xor_ladder (record { number = 2; goods = goods; limit = OfEach 1 }))
        ≡ codes "2\t3\t1\t1\t1\t\t\t\t" }
    ensures refused { numbers_judged (IsUnjudged (Refused Only (Read (record { kind = TwoDummies; line = 7 })))) ≡ codes "\t\t\t\t\t\t\t\t" }
{}
