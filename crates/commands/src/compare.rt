//! `cats compare`: whether two files are the same auction, or their first difference.

ghost use Rattle.std.specs.Prelude.{[], ◌∷◌, map};
ghost use Rattle.commands.specs.Examples.{larger_bid, xor_ladder};
ghost use Rattle.valuation.specs.Examples.{atom};
ghost use Rattle.canon.specs.Difference.{NoDifference, InGoods, InOr, InXor};
ghost use Rattle.canon.specs.declared.verdict.Side.TheVariants.{Exactly, Below};
ghost use Rattle.std.specs.Prelude.{IfErr, IfOk, ◌≡◌, ◌++◌, codes};
ghost use Rattle.canon.specs.Canonical.{IsCanonicalFile};
ghost use Rattle.canon.specs.declared.canon_fault.CanonFault.TheVariants.{Memory};
ghost use Rattle.commands.specs.Commands.{text_of};
ghost use Rattle.commands.specs.Outcomes.{Prints};
ghost use Rattle.commands.specs.Compare.{compare_outcome};
ghost use Rattle.commands.specs.Pairs.{Compares};
ghost use Rattle.canon.specs.Verdicts.{plain_verdict, printed_atoms};
ghost use Rattle.commands.specs.Compare.{bidder_text, difference_text, difference_lines, side_text};
ghost use Rattle.commands.specs.Compare.{status_of_difference};

use crate::answer::{Answer, Output};
use crate::faults::{RunFault, of};
use crate::input::Input;
use crate::normalise::read_canonical;
use crate::printed::cells::push_list;
use crate::statuses::{DIFFERENT, DONE};
use bid_file::PackedFile;
use canon::{CanonFault, Side, Verdict, Which, compare_files};
use cats_text::price::push_price;
use requests::help::CommandHelp;
use std::alloc::{AllocError, Global};
use valuation::search::SearchOptions;

/// What `--help` prints of it.
pub fn help<'a>() -> CommandHelp<'a> {
    CommandHelp {
        name: "compare",
        about: "Prints 'same', or where the auctions of two files differ first",
        arguments: &[
            ("FILE", "The path of a bid file, or of a folder"),
            (
                "SECOND_FILE",
                "The path of a bid file, or of a folder if the first is",
            ),
            (
                "all",
                "\
Of two folders, prints the files too that are the
same auction",
            ),
        ],
        after: "\
Prints 'same', or 'different' and where the two first differ: in their goods,
in the OR value of a bundle, or in how often they have an XOR bidder. For
example:
  $ cats compare examples/ladder.cats examples/ladder_rewritten.cats
  same

Of two folders it compares the files that have the same path below each, and
prints a header and a row for each that is not the same auction or is only in
one folder; with --all, for each path. The cells, with tabs between them:
  file      the path below the folders
  verdict   'same', 'different', 'left' if the file is only in the first
            folder, 'right' if it is only in the second; empty with a fault
  fault     what 'cats compare' reports of the two files, if one is refused
Links, devices and FIFOs below a folder are left out. For example:
  $ cats compare version1 version2

A step is that of 'cats normalise': each file is normalised first, and --bound
does what it does there. A fault's line begins with 'first: ' or 'second: '.
'cats diff' prints all differences.

Statuses: 0 for the same auction, 1 for different ones; 2 if a file is not a
bid file; 3 for the step limit: use --bound, and then a greater --steps; 4, 5
and 64 as 'cats --help' lists them. Of two folders, the greatest of the rows'
statuses, 1 for a file that is only in one",
    }
}

/// Whether two files are the same auction, or their first difference. Each file has a total of steps of its own. Memory that
/// is refused while the two are compared belongs to both.
pub fn compare<I: Input, J: Input>(
    alloc: Global,
    first: &mut I,
    second: &mut J,
    options: SearchOptions,
) -> Result<Answer, RunFault>
    requires first { I.is_ready first.old }
    requires second { J.is_ready second.old }
    ensures { Compares I.gives I.refuses J.gives J.refuses options first.old first.new second.old second.new result }
{
    let left = of(Which::First, read_canonical(alloc, first, options))?;
    let right = of(Which::Second, read_canonical(alloc, second, options))?;
    of(Which::Both, compared(alloc, &left, &right))
}

/// The first difference of two canonical files.
fn compared(alloc: Global, left: &PackedFile, right: &PackedFile) -> Result<Answer, CanonFault>
    requires left { IsCanonicalFile left.now }
    requires right { IsCanonicalFile right.now }
    ensures made { IfOk result (λ answer. compare_outcome left.now right.now
        ≡ Prints answer.status (text_of answer.output)) }
    ensures memory { IfErr result (λ fault. fault ≡ Memory) }
{
    let verdict = compare_files(alloc, left, right)?;
    Ok(Answer {
        status: verdict_status(&verdict),
        output: Output::Text(verdict_text(alloc, &verdict)?),
    })
}

/// The status of a comparison.
fn verdict_status(verdict: &Verdict) -> u8
    ensures { result ≡ status_of_difference (plain_verdict verdict.now) }
{
    match verdict {
        Verdict::Same => DONE,
        _ => DIFFERENT,
    }
}

/// `same`, or `different`, where the two auctions first differ, and both sides of the difference, each on a line.
fn verdict_text(alloc: Global, verdict: &Verdict) -> Result<Vec<u8>, AllocError>
    ensures { IfOk result (λ text. text.items ≡ difference_text (plain_verdict verdict.now)) }
{
    match verdict {
        Verdict::Same => Vec::from_slice(alloc, b"same\n"),
        Verdict::Goods(left, right) => {
            let left = left.to_string(alloc)?;
            let right = right.to_string(alloc)?;
            difference_lines(alloc, b"goods", left.as_bytes(), right.as_bytes())
        }
        Verdict::Or {
            bundle,
            left,
            right,
        } => {
            let mut place = Vec::from_slice(alloc, b"or ")?;
            push_list(&mut place, b',', bundle.as_slice())?;
            let left = side(alloc, *left)?;
            let right = side(alloc, *right)?;
            difference_lines(alloc, place.as_slice(), left.as_slice(), right.as_slice())
        }
        Verdict::Xor {
            bidder,
            left,
            right,
        } => {
            let place = bids(alloc, bidder.as_slice())?;
            let left = left.to_string(alloc)?;
            let right = right.to_string(alloc)?;
            difference_lines(alloc, place.as_slice(), left.as_bytes(), right.as_bytes())
        }
    }
}

/// That two auctions are different, where they first differ, and what is reported of each.
fn difference_lines(
    alloc: Global,
    place: &[u8],
    left: &[u8],
    right: &[u8],
) -> Result<Vec<u8>, AllocError>
    ensures { IfOk result (λ text. text.items ≡ difference_lines place.now left.now right.now) }
{
    let mut text = Vec::from_slice(alloc, b"different\n")?;
    text.extend_from_slice(place)?;
    text.extend_from_slice(b"\nleft ")?;
    text.extend_from_slice(left)?;
    text.extend_from_slice(b"\nright ")?;
    text.extend_from_slice(right)?;
    text.extend_from_slice(b"\n")?;
    Ok(text)
}

/// What is reported of one auction's OR value.
fn side(alloc: Global, side: Side) -> Result<Vec<u8>, AllocError>
    ensures { IfOk result (λ text. text.items ≡ side_text side) }
{
    let mut text = Vec::new(alloc);
    match side {
        Side::Exactly(price) => push_price(&mut text, u128::from(price))?,
        Side::Below(price) => {
            text.extend_from_slice(b"below ")?;
            push_price(&mut text, u128::from(price))?;
        }
    }
    Ok(text)
}

/// An XOR bidder's bids, each as its goods and its price.
fn bids(alloc: Global, bidder: &[(Vec<u16>, u64)]) -> Result<Vec<u8>, AllocError>
    ensures { IfOk result (λ text. text.items ≡ codes "xor" ++ bidder_text (printed_atoms bidder.now)) }
{
    let mut text = Vec::from_slice(alloc, b"xor")?;
    for (goods, price) in bidder {
        text.extend_from_slice(b" ")?;
        push_list(&mut text, b',', goods.as_slice())?;
        text.extend_from_slice(b":")?;
        push_price(&mut text, u128::from(*price))?;
    }
    Ok(text)
}

/// What `cats compare` makes of two files.
pub fn comparisons()
    ensures same { compare_outcome larger_bid larger_bid ≡ Prints 0 (codes "same\n") }
    ensures different { compare_outcome larger_bid xor_ladder
        ≡ Prints 1 (codes "different\nor 0\nleft 3\nright below 3\n") }
{}

/// How differences are printed, and the statuses of comparisons.
pub fn differences()
    ensures same { difference_text NoDifference ≡ codes "same\n" }
    ensures goods { difference_text (InGoods 1 2) ≡ codes "different\ngoods\nleft 1\nright 2\n" }
    ensures below { difference_text (InOr (0 ∷ []) (Exactly 4000000) (Below 4500000))
        ≡ codes "different\nor 0\nleft 4\nright below 4.5\n" }
    ensures pair { difference_text (InOr (0 ∷ 12 ∷ []) (Below 8000000) (Exactly 8000000))
        ≡ codes "different\nor 0,12\nleft below 8\nright 8\n" }
    ensures bidder { difference_text (InXor (atom (0 ∷ []) 1000000 ∷ atom (0 ∷ 1 ∷ []) 2000000 ∷ []) 2 1)
        ≡ codes "different\nxor 0:1 0,1:2\nleft 2\nright 1\n" }
    ensures statuses { map status_of_difference (NoDifference ∷ InGoods 1 2 ∷ InOr [] (Exactly 1) (Exactly 2)
        ∷ InXor [] 0 1 ∷ []) ≡ 0 ∷ 1 ∷ 1 ∷ 1 ∷ [] }
{}
