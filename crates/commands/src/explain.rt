//! `cats explain`: why each bid of a file is in the canonical file or is not.

ghost use Rattle.std.specs.Prelude.{[], ◌∷◌, codes};
ghost use Rattle.analysis.specs.Examples.{file, or_bid, xor_bid};
ghost use Rattle.analysis.specs.Reasons.{Keep, Zero, Same, Inside, Packing};
ghost use Rattle.std.specs.Prelude.{IfOk, ◌≡◌, ◌++◌, OnOk, length, map};
ghost use Rattle.commands.specs.Commands.{Commands};
ghost use Rattle.commands.specs.Explain.{explain_outcome};
ghost use Rattle.valuation.specs.SearchLimits.{bounded_options};
ghost use Rattle.bid_file.specs.Views.{seen_bid};
ghost use Rattle.analysis.specs.Reasons.{plain_reason};
ghost use Rattle.commands.specs.Explain.{bid_cells, explanation_row, explanation_text, reason_cells};
ghost use Rattle.commands.specs.Outputs.{list_cell};

use crate::answer::{Answer, Output, done};
use crate::faults::{RunFault, name_bid};
use crate::input::Input;
use crate::printed::cells::{push_list, push_number, push_number_cell};
use analysis::reasons::Reason;
use bid_file::{BidRef, Bids, PackedFile};
use canon::{CanonFault, Which};
use cats_text::price::push_price;
use requests::help::{CommandHelp, TOTAL_STEPS};
use std::alloc::{AllocError, Global};
use valuation::search::SearchOptions;

/// What `--help` prints of it.
pub fn help<'a>() -> CommandHelp<'a> {
    CommandHelp {
        name: "explain",
        about: "Prints why each bid is in the canonical text, or is dropped",
        arguments: &[("total-steps", TOTAL_STEPS)],
        after: "\
Prints a table with a header and a row for each bid, in order of number, with
tabs between the cells: why the text that 'cats normalise' prints has the bid
or not. For example:
  $ cats explain examples/ladder.cats
  bid\tdummy\tprice\tgoods\treason\tkept\tby
  0\t\t3\t0\tkeep\t0\t
  1\t\t4\t1\tkeep\t1\t
  2\t\t7\t0 1\tpacking\t\t0 1
  3\t0\t6\t0 1\tkeep\t2\t
  4\t0\t2\t0 1\tsame\t\t3

'dummy' is the bid's dummy good as its number among dummy goods, from 0. The
reasons:
  keep     it is the bid 'kept' of the text that 'cats normalise' prints
  zero     its price is 0
  same     bid 'by' is the best of its bidder on its goods: it has the highest
           price, and of those the smallest number
  inside   bid 'by' of its XOR bidder is kept, is on fewer of its goods, and
           its price is at least as high
  packing  the bids 'by' of the OR bidder are kept, are on some of its goods
           and share none, and their prices add up to at least its price

How many bids there are for each reason:
  $ cats explain auction.txt | cut -f 5 | sort | uniq -c

This command always uses the bounded search. A step is that of 'cats normalise
--bound', and the same files are refused. After a refusal nothing is printed.

Statuses: 0; 2 if the file is not a bid file; 3 for a step limit: use a
greater --steps or --total-steps, as the fault says; 4, 5 and 64 as 'cats
--help' lists them",
    }
}

/// A table with a row for each bid of a file: why it is in the canonical file or is not. `steps` bounds each search that
/// decides on a bundle of the OR bidder, and `total` all of them together.
pub(crate) fn explain<I: Input>(
    alloc: Global,
    input: &mut I,
    steps: u64,
    total: Option<u64>,
) -> Result<Answer, RunFault>
    requires { I.is_ready input.old }
    ensures { Commands I.gives I.refuses (explain_outcome (bounded_options steps total)) input.old input.new result }
{
    let file = input.read_file(alloc).map_err(CanonFault::from)?;
    let reasons = match analysis::reasons::explain(alloc, &file, steps, total) {
        Ok(reasons) => reasons,
        Err(fault) => {
            let options = SearchOptions::bounded(steps, total);
            return Err(name_bid(alloc, Which::Only, &file, options, fault)?);
        }
    };
    let text = explanation_text(alloc, &file, reasons.as_slice())?;
    Ok(done(Output::Text(text)))
}

/// The names of the columns.
const HEADER: &[u8] = b"bid\tdummy\tprice\tgoods\treason\tkept\tby\n";

/// The table of a file's bids, in order of number, with their reasons.
fn explanation_text(
    alloc: Global,
    file: &PackedFile,
    reasons: &[Reason],
) -> Result<Vec<u8>, AllocError>
    requires { length reasons.now ≡ length file.now.bids }
    ensures { IfOk result (λ text. text.items ≡ explanation_text file.now (map plain_reason reasons.now)) }
{
    let mut text = Vec::from_slice(alloc, HEADER)?;
    for (number, reason) in reasons.iter().enumerate() {
        push_row(&mut text, number, &file.at(number), reason)?;
    }
    Ok(text)
}

/// Appends the row of the bid with this number.
fn push_row(
    text: &mut Vec<u8>,
    number: usize,
    bid: &BidRef<'_>,
    reason: &Reason,
) -> Result<(), AllocError>
    ensures { OnOk result (text.new.items
        ≡ text.old.items ++ explanation_row number (seen_bid bid.now) (plain_reason reason.now)) }
{
    push_number(text, number)?;
    text.extend_from_slice(b"\t")?;
    push_bid(text, bid)?;
    text.extend_from_slice(b"\t")?;
    push_reason(text, reason)?;
    text.extend_from_slice(b"\n")
}

/// Appends the cells of a bid: its dummy good among the dummy goods, if it has one, its price and its goods.
fn push_bid(text: &mut Vec<u8>, bid: &BidRef<'_>) -> Result<(), AllocError>
    ensures { OnOk result (text.new.items ≡ text.old.items ++ bid_cells (seen_bid bid.now)) }
{
    push_number_cell(text, bid.dummy)?;
    text.extend_from_slice(b"\t")?;
    push_price(text, u128::from(bid.price))?;
    text.extend_from_slice(b"\t")?;
    push_list(text, b' ', bid.goods)
}

/// Appends the cells of a reason: its word, the number of a kept bid in the canonical file, and the bids that it names.
fn push_reason(text: &mut Vec<u8>, reason: &Reason) -> Result<(), AllocError>
    ensures { OnOk result (text.new.items ≡ text.old.items ++ reason_cells (plain_reason reason.now)) }
{
    match reason {
        Reason::Keep(kept) => {
            text.extend_from_slice(b"keep\t")?;
            push_number(text, *kept)?;
            text.extend_from_slice(b"\t")
        }
        Reason::Zero => text.extend_from_slice(b"zero\t\t"),
        Reason::Same(best) => push_named(text, b"same\t\t", &[*best]),
        Reason::Inside(smaller) => push_named(text, b"inside\t\t", &[*smaller]),
        Reason::Packing(members) => push_named(text, b"packing\t\t", members.as_slice()),
    }
}

/// Appends a text, and the numbers of bids.
fn push_named(text: &mut Vec<u8>, before: &[u8], bids: &[u32]) -> Result<(), AllocError>
    ensures { OnOk result (text.new.items ≡ text.old.items ++ (before.now ++ list_cell bids.now)) }
{
    text.extend_from_slice(before)?;
    push_list(text, b' ', bids)
}

/// What `cats explain` prints of no bids, of a bid of each reason, and of two bids.
pub fn explanations()
    ensures no_bids { explanation_text (file 0 0 []) [] ≡ codes "bid\tdummy\tprice\tgoods\treason\tkept\tby\n" }
    ensures kept { explanation_row 0 (or_bid (0 ∷ []) 3000000) (Keep 12) ≡ codes "0\t\t3\t0\tkeep\t12\t\n" }
    ensures packing { explanation_row 2 (or_bid (0 ∷ 1 ∷ []) 6000000) (Packing (0 ∷ 1 ∷ []))
        ≡ codes "2\t\t6\t0 1\tpacking\t\t0 1\n" }
    ensures inside { explanation_row 5 (xor_bid 2 (1 ∷ []) 4000000) (Inside 3) ≡ codes "5\t2\t4\t1\tinside\t\t3\n" }
    ensures zero { explanation_row 12 (xor_bid 10 (7 ∷ []) 0) Zero ≡ codes "12\t10\t0\t7\tzero\t\t\n" }
    ensures same { explanation_row 65535 (or_bid (4095 ∷ []) 4500000) (Same 65534)
        ≡ codes "65535\t\t4.5\t4095\tsame\t\t65534\n" }
    ensures two_bids { explanation_text (file 2 1 (or_bid (0 ∷ []) 0 ∷ xor_bid 0 (0 ∷ 1 ∷ []) 7250000 ∷ []))
        (Zero ∷ Keep 0 ∷ [])
        ≡ codes "bid\tdummy\tprice\tgoods\treason\tkept\tby\n0\t\t0\t0\tzero\t\t\n1\t0\t7.25\t0 1\tkeep\t0\t\n" }
{}
