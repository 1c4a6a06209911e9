//! `cats diff`: all differences of two files, as a table.

mod sides;

ghost use Rattle.std.specs.Prelude.{[], ◌∷◌, None, Some, codes};
ghost use Rattle.analysis.specs.Examples.{file, or_bid, xor_bid, bidder_change, change, differences};
ghost use Rattle.commands.specs.Diff.{diff_header, status_of_differences};
ghost use Rattle.std.specs.Prelude.{IfErr, IfOk, ◌≡◌, ◌++◌, OnOk, map, All};
ghost use Rattle.commands.specs.Internal.ComparedFiles.{IsComparedFile, PrintsDifferences};
ghost use Rattle.canon.specs.declared.canon_fault.CanonFault.TheVariants.{Memory};
ghost use Rattle.commands.specs.Commands.{text_of};
ghost use Rattle.commands.specs.Internal.Pairs.{ReadsCompared};
ghost use Rattle.commands.specs.Pairs.{Diffs};
ghost use Rattle.std.specs.List.{flat_map};
ghost use Rattle.valuation.specs.Auctions.{auction_from};
ghost use Rattle.canon.specs.Canonical.{canonical_file};
ghost use Rattle.analysis.specs.Differences.{AreAllDifferences};
ghost use Rattle.canon.specs.PriceChanges.{plain_change};
ghost use Rattle.analysis.specs.Views.{plain_bidder_change, plain_differences};
ghost use Rattle.commands.specs.Diff.{bidder_rows, change_row, diff_text, goods_row, number_cells, price_cells};
ghost use Rattle.commands.specs.Internal.Sides.{AreSides, IsOfBidders, IsOfBids, file_of};

use crate::answer::{Answer, Output};
use crate::faults::{RunFault, name_bid, of};
use crate::input::Input;
use crate::printed::cells::{push_list, push_number, push_number_cell, push_price_cell};
use crate::statuses::{DIFFERENT, DONE};
use analysis::differences::{BidderChange, Differences, all_differences};
use canon::comparing::PriceChange;
use canon::normal::named_normal_file;
use canon::{CanonFault, Which};
use requests::help::{CommandHelp, TOTAL_STEPS};
use sides::{ComparedFile, Side, Sides};
use std::alloc::{AllocError, Global};
use valuation::search::SearchOptions;

/// What `--help` prints of it.
pub fn help<'a>() -> CommandHelp<'a> {
    CommandHelp {
        name: "diff",
        about: "Prints all differences of two bid files' auctions",
        arguments: &[("total-steps", TOTAL_STEPS)],
        after: "\
Prints a table with a header and a row for each bundle on which a bidder's
prices differ, with tabs between the cells, and only the header if both files
are the same auction. For example:
  $ cats diff examples/ladder.cats examples/ladder_with_synergy.cats
  kind\tgoods\tleft\tright\tleft_dummy\tright_dummy\tleft_bid\tright_bid
  or\t0 1\t\t7.5\t\t\t\t2

A cell is empty if there is nothing. The cells, with 'left' for the first file
and 'right' for the second:
  kind                     'or', 'xor', or 'goods': in such a row 'left' and
                           'right' are the numbers of goods
  goods                    the bundle
  left, right              the price of the bidder's bid on it in the text that
                           'cats normalise' prints; in an 'or' row with one
                           price, other bids of the other file may reach the
                           value together
  left_dummy, right_dummy  the XOR bidder's dummy good as its number among
                           dummy goods, from 0; empty in all rows of the bidder
                           if no bidder of that file is beside it
  left_bid, right_bid      the number of that bid in the file; of several such
                           bids the smallest

An XOR bidder that one file has N times more often than the other is there N
times. Each such bidder of the first file is beside the first one of the second
file that has a bid on its rarest bundle and is not there yet, else on the next
rarest, and so on. If several bidders of a file have the same bids, the
smallest number that is not there yet is used.

How many rows there are of each kind:
  $ cats diff one.txt two.txt | cut -f 1 | sort | uniq -c

This command always uses the bounded search. A step is that of 'cats normalise
--bound': each file is normalised first. A fault's line begins with 'first: '
or 'second: '.

Statuses: 0 for the same auction, 1 for different ones; 2 if a file is not a
bid file; 3 for a step limit: use a greater --steps or --total-steps, as the
fault says; 4, 5 and 64 as 'cats --help' lists them",
    }
}

/// All differences of two files, as a table.
pub(crate) fn diff<I: Input, J: Input>(
    alloc: Global,
    first: &mut I,
    second: &mut J,
    options: SearchOptions,
) -> Result<Answer, RunFault>
    requires first { I.is_ready first.old }
    requires second { J.is_ready second.old }
    ensures { Diffs I.gives I.refuses J.gives J.refuses options first.old first.new second.old second.new result }
{
    let left = read_compared(alloc, first, options, Which::First)?;
    let right = read_compared(alloc, second, options, Which::Second)?;
    of(Which::Both, differences(alloc, &left, &right))
}

/// The file that an input gives, and its canonical file, with the dummy goods that the bidders have in the file. A fault is
/// of `which`.
fn read_compared<I: Input>(
    alloc: Global,
    input: &mut I,
    options: SearchOptions,
    which: Which,
) -> Result<ComparedFile, RunFault>
    requires { I.is_ready input.old }
    ensures answer { ReadsCompared I.gives I.refuses options which input.old input.new result }
    ensures compared { IfOk result IsComparedFile }
{
    let file = of(which, input.read_file(alloc).map_err(CanonFault::from))?;
    match named_normal_file(alloc, &file, options) {
        Ok(named) => Ok(ComparedFile { file, named }),
        Err(fault) => {
            let named = name_bid(alloc, which, &file, options, fault);
            Err(of(which, named.map_err(CanonFault::from))?)
        }
    }
}

/// All differences of two files.
fn differences(
    alloc: Global,
    left: &ComparedFile,
    right: &ComparedFile,
) -> Result<Answer, CanonFault>
    requires left { IsComparedFile left.now }
    requires right { IsComparedFile right.now }
    ensures made { IfOk result (λ answer. PrintsDifferences left.now.file right.now.file answer.status
        (text_of answer.output)) }
    ensures memory { IfErr result (λ fault. fault ≡ Memory) }
{
    let (status, text) = differences_text(alloc, left, right)?;
    Ok(Answer {
        status,
        output: Output::Text(text),
    })
}

/// The names of the columns.
const HEADER: &[u8] = b"kind\tgoods\tleft\tright\tleft_dummy\tright_dummy\tleft_bid\tright_bid\n";

/// The bidder of a row: the word for its kind, and its dummy good in each file, if it is an XOR bidder there.
#[derive(Clone, Copy)]
struct RowBidder {
    kind: &'static [u8],
    left: Option<u32>,
    right: Option<u32>,
}

/// The status and the table of all differences of two files. Their bids are put in order only if there is a difference.
fn differences_text(
    alloc: Global,
    left: &ComparedFile,
    right: &ComparedFile,
) -> Result<(u8, Vec<u8>), AllocError>
    requires left { IsComparedFile left.now }
    requires right { IsComparedFile right.now }
    ensures { IfOk result (λ t. PrintsDifferences left.now.file right.now.file t.0 t.1.items) }
{
    let differences = all_differences(alloc, &left.named.file, &right.named.file)?;
    if differences.is_empty() {
        return Ok((DONE, Vec::from_slice(alloc, HEADER)?));
    }
    let sides = Sides {
        left: Side::of(alloc, left)?,
        right: Side::of(alloc, right)?,
    };
    Ok((DIFFERENT, diff_text(alloc, &differences, &sides)?))
}

/// The table of all differences of two files.
fn diff_text(
    alloc: Global,
    differences: &Differences<'_>,
    sides: &Sides<'_>,
) -> Result<Vec<u8>, AllocError>
    requires sides { AreSides sides.now }
    requires all { AreAllDifferences (auction_from (canonical_file (file_of sides.now.left)))
        (auction_from (canonical_file (file_of sides.now.right))) (plain_differences differences.now) }
    ensures { IfOk result (λ text. text.items
        ≡ diff_text (file_of sides.now.left) (file_of sides.now.right) (plain_differences differences.now)) }
{
    let mut text = Vec::from_slice(alloc, HEADER)?;
    if let Some((left, right)) = differences.goods {
        push_goods(&mut text, left, right)?;
    }
    let or_bidder = RowBidder {
        kind: b"or",
        left: None,
        right: None,
    };
    push_changes(&mut text, sides, &or_bidder, &differences.bundles)?;
    push_bidders(&mut text, sides, &differences.bidders)?;
    Ok(text)
}

/// Appends the row of two numbers of goods.
fn push_goods(text: &mut Vec<u8>, left: u16, right: u16) -> Result<(), AllocError>
    ensures { OnOk result (text.new.items ≡ text.old.items ++ goods_row left right) }
{
    text.extend_from_slice(b"goods\t\t")?;
    push_number(text, left)?;
    text.extend_from_slice(b"\t")?;
    push_number(text, right)?;
    text.extend_from_slice(b"\t\t\t\t\n")
}

/// Appends the rows of the XOR bidders that differ.
fn push_bidders(
    text: &mut Vec<u8>,
    sides: &Sides<'_>,
    bidders: &[BidderChange<'_>],
) -> Result<(), AllocError>
    requires sides { AreSides sides.now }
    requires bidders { All (IsOfBidders (file_of sides.now.left) (file_of sides.now.right))
        (map plain_bidder_change bidders.now) }
    ensures { OnOk result (text.new.items ≡ text.old.items
        ++ flat_map (bidder_rows (file_of sides.now.left) (file_of sides.now.right)) (map plain_bidder_change bidders.now)) }
{
    for bidder in bidders {
        push_bidder(text, sides, bidder)?;
    }
    Ok(())
}

/// Appends the rows of an XOR bidder, or of two beside each other.
fn push_bidder(
    text: &mut Vec<u8>,
    sides: &Sides<'_>,
    bidder: &BidderChange<'_>,
) -> Result<(), AllocError>
    requires sides { AreSides sides.now }
    requires bidder { IsOfBidders (file_of sides.now.left) (file_of sides.now.right) (plain_bidder_change bidder.now) }
    ensures { OnOk result (text.new.items ≡ text.old.items
        ++ bidder_rows (file_of sides.now.left) (file_of sides.now.right) (plain_bidder_change bidder.now)) }
{
    let row = RowBidder {
        kind: b"xor",
        left: sides.left.dummy(bidder.left),
        right: sides.right.dummy(bidder.right),
    };
    push_changes(text, sides, &row, &bidder.bids)
}

/// Appends a row for each bundle on which a bidder's prices differ.
fn push_changes(
    text: &mut Vec<u8>,
    sides: &Sides<'_>,
    bidder: &RowBidder,
    changes: &[PriceChange<'_>],
) -> Result<(), AllocError>
    requires sides { AreSides sides.now }
    requires changes { All (IsOfBids (file_of sides.now.left) (file_of sides.now.right) bidder.now.left bidder.now.right)
        (map plain_change changes.now) }
    ensures { OnOk result (text.new.items ≡ text.old.items
        ++ flat_map (change_row bidder.now.kind.now (file_of sides.now.left) (file_of sides.now.right) bidder.now.left
        bidder.now.right) (map plain_change changes.now)) }
{
    for change in changes {
        push_change(text, sides, bidder, change)?;
    }
    Ok(())
}

/// Appends the row of a bundle: the price, the bidder's dummy good and the number of its bid on each side.
fn push_change(
    text: &mut Vec<u8>,
    sides: &Sides<'_>,
    bidder: &RowBidder,
    change: &PriceChange<'_>,
) -> Result<(), AllocError>
    requires sides { AreSides sides.now }
    requires change { IsOfBids (file_of sides.now.left) (file_of sides.now.right) bidder.now.left bidder.now.right
        (plain_change change.now) }
    ensures { OnOk result (text.new.items ≡ text.old.items ++ change_row bidder.now.kind.now
        (file_of sides.now.left) (file_of sides.now.right) bidder.now.left bidder.now.right (plain_change change.now)) }
{
    push_prices(text, bidder.kind, change)?;
    push_numbers(text, bidder.left, bidder.right)?;
    let left = sides
        .left
        .bid_number(bidder.left, change.goods, change.left);
    let right = sides
        .right
        .bid_number(bidder.right, change.goods, change.right);
    push_numbers(text, left, right)?;
    text.extend_from_slice(b"\n")
}

/// Appends a kind, a bundle, and the price on each side.
fn push_prices(text: &mut Vec<u8>, kind: &[u8], change: &PriceChange<'_>) -> Result<(), AllocError>
    ensures { OnOk result (text.new.items ≡ text.old.items ++ price_cells kind.now (plain_change change.now)) }
{
    text.extend_from_slice(kind)?;
    text.extend_from_slice(b"\t")?;
    push_list(text, b' ', change.goods)?;
    text.extend_from_slice(b"\t")?;
    push_price_cell(text, change.left)?;
    text.extend_from_slice(b"\t")?;
    push_price_cell(text, change.right)
}

/// Appends a number of each side.
fn push_numbers(text: &mut Vec<u8>, left: Option<u32>, right: Option<u32>) -> Result<(), AllocError>
    ensures { OnOk result (text.new.items ≡ text.old.items ++ number_cells left right) }
{
    text.extend_from_slice(b"\t")?;
    push_number_cell(text, left)?;
    text.extend_from_slice(b"\t")?;
    push_number_cell(text, right)
}

/// What `cats diff` prints: nothing below the header; numbers of goods; bundles with a price on each side, on the left, and
/// on the right; the best bid of two, and the first of two equal ones; and no number of a bid that is not kept.
pub fn tables_of_differences()
    ensures none { diff_text (file 60 0 []) (file 60 0 []) (differences None [] [])
        ≡ codes "kind\tgoods\tleft\tright\tleft_dummy\tright_dummy\tleft_bid\tright_bid\n" }
    ensures goods { diff_text (file 2 0 []) (file 5 0 []) (differences (Some (2, 5)) [] [])
        ≡ diff_header ++ codes "goods\t\t2\t5\t\t\t\t\n" }
    ensures bundles { diff_text (file 60 0 (or_bid (18 ∷ []) 173958000 ∷ or_bid (18 ∷ 23 ∷ []) 203457000 ∷ []))
        (file 60 0 (or_bid (0 ∷ 1 ∷ 59 ∷ []) 1 ∷ or_bid (18 ∷ []) 233145000 ∷ []))
        (differences None (change (18 ∷ []) (Some 173958000) (Some 233145000)
        ∷ change (18 ∷ 23 ∷ []) (Some 203457000) None ∷ change (0 ∷ 1 ∷ 59 ∷ []) None (Some 1) ∷ []) [])
        ≡ diff_header ++ codes "or\t18\t173.958\t233.145\t\t\t0\t1\nor\t18 23\t203.457\t\t\t\t1\t\n"
        ++ codes "or\t0 1 59\t\t0.000001\t\t\t\t0\n" }
    ensures best { diff_text (file 1 0 (or_bid (0 ∷ []) 2000000 ∷ or_bid (0 ∷ []) 3000000 ∷ []))
        (file 1 0 (or_bid (0 ∷ []) 4000000 ∷ or_bid (0 ∷ []) 4000000 ∷ []))
        (differences None (change (0 ∷ []) (Some 3000000) (Some 4000000) ∷ []) [])
        ≡ diff_header ++ codes "or\t0\t3\t4\t\t\t1\t0\n" }
    ensures not_kept { diff_text (file 2 0 (or_bid (0 ∷ 1 ∷ []) 3000000 ∷ or_bid (1 ∷ []) 3000000 ∷ []))
        (file 2 0 (or_bid (1 ∷ []) 3000000 ∷ or_bid (0 ∷ 1 ∷ []) 4000000 ∷ []))
        (differences None (change (0 ∷ 1 ∷ []) None (Some 4000000) ∷ []) [])
        ≡ diff_header ++ codes "or\t0 1\t\t4\t\t\t\t1\n" }
    ensures statuses { map status_of_differences (differences None [] [] ∷ differences (Some (2, 5)) [] []
        ∷ differences None (change (0 ∷ []) None (Some 1) ∷ []) []
        ∷ differences None [] (bidder_change (Some 0) None [] ∷ []) ∷ []) ≡ 0 ∷ 1 ∷ 1 ∷ 1 ∷ [] }
{}

/// The rows of XOR bidders, with their dummy goods in their files: two bidders beside each other, of the first bidder of the
/// left canonical file and that of the right one; and each alone.
pub fn differences_of_bidders()
    ensures beside { diff_text (file 2 2 (xor_bid 1 (0 ∷ []) 2000000 ∷ xor_bid 0 (0 ∷ 1 ∷ []) 5000000 ∷ []))
        (file 2 1 (or_bid (1 ∷ []) 7000000 ∷ xor_bid 0 (0 ∷ []) 3000000 ∷ []))
        (differences None [] (bidder_change (Some 0) (Some 0) (change (0 ∷ []) (Some 2000000) (Some 3000000) ∷ []) ∷ []))
        ≡ diff_header ++ codes "xor\t0\t2\t3\t1\t0\t0\t1\n" }
    ensures alone { diff_text (file 2 2 (xor_bid 1 (0 ∷ []) 2000000 ∷ xor_bid 0 (0 ∷ 1 ∷ []) 5000000 ∷ []))
        (file 2 1 (or_bid (1 ∷ []) 7000000 ∷ xor_bid 0 (0 ∷ []) 3000000 ∷ []))
        (differences None [] (bidder_change (Some 1) None (change (0 ∷ 1 ∷ []) (Some 5000000) None ∷ [])
        ∷ bidder_change None (Some 0) (change (0 ∷ []) None (Some 3000000) ∷ []) ∷ []))
        ≡ diff_header ++ codes "xor\t0 1\t5\t\t0\t\t1\t\nxor\t0\t\t3\t\t0\t\t1\n" }
{}
