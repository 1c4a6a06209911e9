//! `cats value`: what a file's bidders offer for a bundle of goods.

mod bundles;
mod lines;
mod numbers;

ghost use Rattle.std.specs.Prelude.{[], ◌∷◌, codes};
ghost use Rattle.commands.specs.Examples.{larger_bid, xor_ladder};
ghost use Rattle.commands.specs.Outcomes.{ExceedsSteps, LacksGood, Prints};
ghost use Rattle.commands.specs.Value.{value_outcome};
ghost use Rattle.std.specs.Prelude.{◌≡◌, ◌≤◌, None, Some, false, true};
ghost use Rattle.bid_file.specs.Files.{IsPlainFile};
ghost use Rattle.valuation.specs.Auctions.{or_atoms_of};
ghost use Rattle.valuation.specs.SearchLimits.{bounded_options};
ghost use Rattle.valuation.specs.Views.{plain_auction};
ghost use Rattle.commands.specs.Internal.Searches.{SearchesAs};
ghost use Rattle.commands.specs.Value.{is_refused, missing_good, value_outcome_by, values_unless};
ghost use Rattle.commands.specs.Commands.{CommandsIfMet};
ghost use Rattle.commands.specs.Internal.Values.{MakesAs};
ghost use Rattle.commands.specs.Value.{bundle_from};

use crate::answer::{Answer, Output, done};
use crate::faults::RunFault;
use crate::input::Input;
use bid_file::PackedFile;
use bundles::bundle_of;
use canon::CanonFault;
use goods_set::GoodsSet;
use goods_set::listing::goods_of;
use lines::{push_or_line, push_xor_lines};
use numbers::bid_numbers;
use requests::help::CommandHelp;
use std::alloc::Global;
use valuation::search::{SearchOptions, or_value_by};
use valuation::{Auction, Packing, ValueFault, auction_of, on_set_for};

/// What `--help` prints of it.
pub fn help<'a>() -> CommandHelp<'a> {
    CommandHelp {
        name: "value",
        about: "Prints what the bidders of a bid file offer for a bundle of goods",
        arguments: &[(
            "steps",
            "\
The most steps of the search, from 1 to
1000000000",
        )],
        after: "\
Prints 'or', the greatest sum of prices of bids without a dummy good that lie
in the bundle and share no good, and the numbers of these bids; then for each
dummy good 'xor', the dummy good, the greatest price of its bids that lie in
the bundle, and the number of the first that has it. For example, for all goods
of a file with 40:
  $ cats value auction.txt 0-39

A good that is named twice counts once. Numbers, lists and ranges may stand
side by side, as in '0-9,12 15 20-39'.

A step of the plain search is one packing: one family of the bids without a
dummy good that lie in the bundle and share no good. It takes 5 to 20
nanoseconds with up to 128 such bids, and some 30 nanoseconds more for each
1,000. If there are more than N packings, the program prints 'step limit at
GOODS', with status 3. The bounded search decides many files that the plain
search refuses, and its answer is the same. A step of it is one look at the
bids that can still be added; a look at many goods counts as one step more for
each 1,000. If it takes more than N too, a greater N lets the search go on:
  $ cats value --bound auction.txt 0-39
  $ cats value --bound --steps 1000000000 auction.txt 0-39

Statuses: 0; 2 if the file is not a bid file; 3 for the step limit: use
--bound, and then a greater --steps; 64 for a good that the file does not have;
4 and 5 as 'cats --help' lists them",
    }
}

/// What the bidders of a file offer for the bundle of these goods: the OR value with the bids of one best packing, and each
/// XOR bidder's value with the bid that gives it. The first of the goods that the file does not have is refused once the
/// file was read.
pub fn value<I: Input>(
    alloc: Global,
    input: &mut I,
    goods: &[u16],
    options: SearchOptions,
) -> Result<Answer, RunFault>
    requires { I.is_ready input.old }
    ensures { CommandsIfMet I.gives I.refuses (value_outcome_by goods.now options) input.old input.new result }
{
    let file = input.read_file(alloc).map_err(CanonFault::from)?;
    if let Some(good) = first_missing(goods, file.goods()) {
        return Err(RunFault::GoodRange(good));
    }
    let text = text_on_sets(alloc, &file, goods, options)?;
    Ok(done(Output::Text(text)))
}

/// The first of the goods that a file with `count` goods does not have.
fn first_missing(goods: &[u16], count: u16) -> Option<u16>
    ensures { result ≡ missing_good count goods.now }
{
    goods.iter().copied().find(|good| *good >= count)
}

/// The values of the bundle of these goods, as they are printed, by the kind of sets that suits the file's bids.
fn text_on_sets(
    alloc: Global,
    file: &PackedFile,
    goods: &[u16],
    options: SearchOptions,
) -> Result<Vec<u8>, CanonFault>
    requires facts { IsPlainFile file.now }
    requires there { missing_good file.now.goods goods.now ≡ None }
    ensures { MakesAs (λ met. values_unless (is_refused options (or_atoms_of file.now.bids) (bundle_from goods.now) met)
        (bundle_from goods.now) file.now) result }
{
    on_set_for!(file, text_of_values(alloc, file, goods, options))
}

/// The values of the bundle of these goods, as they are printed.
fn text_of_values<S: GoodsSet>(
    alloc: Global,
    file: &PackedFile,
    goods: &[u16],
    options: SearchOptions,
) -> Result<Vec<u8>, CanonFault>
    requires facts { IsPlainFile file.now }
    requires cap { file.now.goods ≤ S.CAP }
    requires there { missing_good file.now.goods goods.now ≡ None }
    ensures { MakesAs (λ met. values_unless (is_refused options (or_atoms_of file.now.bids) (bundle_from goods.now) met)
        (bundle_from goods.now) file.now) result }
{
    let bundle: S = bundle_of(alloc, goods)?;
    let auction = auction_of(alloc, file)?;
    let packing = best_packing(alloc, &auction, &bundle, options)?;
    let numbers = bid_numbers(alloc, file)?;
    let mut text = Vec::new(alloc);
    push_or_line(&mut text, &packing, numbers.or_bids.as_slice())?;
    push_xor_lines(
        &mut text,
        file,
        auction.xor_bidders(),
        numbers.xor_bids.as_slice(),
        &bundle,
    )?;
    Ok(text)
}

/// A best packing of the bundle by the OR bidder.
fn best_packing<S: GoodsSet>(
    alloc: Global,
    auction: &Auction<S>,
    bundle: &S,
    options: SearchOptions,
) -> Result<Packing, CanonFault>
    ensures { SearchesAs (plain_auction auction.now).or_atoms (S.goods bundle.now) options result }
{
    match or_value_by(alloc, auction.or_atoms(), bundle, options) {
        Ok(packing) => Ok(packing),
        Err(ValueFault::StepLimit) => {
            let goods = goods_of(alloc, bundle)?;
            Err(CanonFault::StepLimit { goods })
        }
        Err(ValueFault::Memory) => Err(CanonFault::Memory),
    }
}

/// What `cats value` makes of two files. For both goods of the first, which has 3 bids and 5 packings, a bounded search is
/// never refused with 150,085 steps.
pub fn values()
    ensures best_packing { value_outcome (1 ∷ 0 ∷ 1 ∷ []) 5 larger_bid ≡ Prints 0 (codes "or 7 2\n") }
    ensures one_good { value_outcome (1 ∷ []) 2 larger_bid ≡ Prints 0 (codes "or 4 1\n") }
    ensures step_limit { value_outcome (1 ∷ 0 ∷ []) 4 larger_bid ≡ ExceedsSteps (0 ∷ 1 ∷ []) }
    ensures never_over { value_outcome_by (1 ∷ 0 ∷ []) (bounded_options 150085 None) true larger_bid
        ≡ Prints 0 (codes "or 7 2\n") }
    ensures within { value_outcome_by (1 ∷ 0 ∷ []) (bounded_options 150084 None) false larger_bid
        ≡ Prints 0 (codes "or 7 2\n") }
    ensures over { value_outcome_by (1 ∷ 0 ∷ []) (bounded_options 150084 None) true larger_bid
        ≡ ExceedsSteps (0 ∷ 1 ∷ []) }
    ensures over_all { value_outcome_by (1 ∷ 0 ∷ []) (bounded_options 150085 (Some 150084)) true larger_bid
        ≡ ExceedsSteps (0 ∷ 1 ∷ []) }
    ensures missing { value_outcome (0 ∷ 3 ∷ 2 ∷ []) 0 larger_bid ≡ LacksGood 3 }
    ensures both { value_outcome (0 ∷ 1 ∷ []) 2 xor_ladder ≡ Prints 0 (codes "or 1.5 1\nxor 2 6 2\n") }
    ensures first { value_outcome (0 ∷ []) 1 xor_ladder ≡ Prints 0 (codes "or 0\nxor 2 5 0\n") }
    ensures none_inside { value_outcome [] 1 xor_ladder ≡ Prints 0 (codes "or 0\nxor 2 0\n") }
    ensures bundle { bundle_from (3 ∷ 1 ∷ 3 ∷ 0 ∷ []) ≡ 0 ∷ 1 ∷ 3 ∷ [] }
{}
