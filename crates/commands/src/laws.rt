//! Laws of what the commands print.

ghost use Rattle.std.specs.Prelude.{◌≡◌, ◌<◌, ◌≤◌, ◌↔◌, ℕ, Bool, Contains, Err, List, None, Ok, Some, drop, length, take};
ghost use Rattle.std.specs.Prelude.{true};
ghost use Rattle.bid_file.specs.Files.{IsPlainFile, PlainFile};
ghost use Rattle.cats_text.specs.Lines.{begins_word, line_words};
ghost use Rattle.valuation.specs.Auctions.{auction_from, or_atoms_of};
ghost use Rattle.valuation.specs.SearchLimits.{next_steps};
ghost use Rattle.valuation.specs.ValueLimits.{most_value_steps};
ghost use Rattle.valuation.specs.declared.search.options.SearchOptions.{SearchOptions};
ghost use Rattle.prune.specs.SearchSteps.{first_refused};
ghost use Rattle.canon.specs.Canonical.{canonical_file};
ghost use Rattle.canon.specs.Sameness.{AreSameFiles};
ghost use Rattle.analysis.specs.Bids.{bid_at};
ghost use Rattle.analysis.specs.Differences.{AreAllDifferences, PlainDifferences};
ghost use Rattle.analysis.specs.Reasons.{Explains, PlainReason};
ghost use Rattle.commands.specs.Explain.{explanation_text};
ghost use Rattle.commands.specs.Columns.{bytes_before};
ghost use Rattle.commands.specs.Commands.{CommandsIfMet};
ghost use Rattle.commands.specs.Outcomes.{Prints};
ghost use Rattle.commands.specs.Compare.{compare_outcome};
ghost use Rattle.commands.specs.Diff.{diff_outcome};
ghost use Rattle.commands.specs.Explain.{explain_outcome};
ghost use Rattle.commands.specs.Normalise.{first_bid_on, is_on};
ghost use Rattle.commands.specs.Meanings.{outcome_of, statuses_of};
ghost use Rattle.commands.specs.Value.{bundle_from, missing_good, value_outcome_by, value_text};
ghost use Rattle.commands.specs.Statuses.{status_of_fault};
ghost use Rattle.commands.specs.declared.answer.Answer.{Answer};
ghost use Rattle.requests.specs.Requests.{PlainRequest};
ghost use Rattle.commands.specs.declared.faults.RunFault.{RunFault};

use crate::input::Input;

/// The reasons that `cats explain` prints are true.
pub fn printed_reasons_are_true()
    ensures { (options : SearchOptions) (file : PlainFile) (text : List ℕ) → IsPlainFile file
        → explain_outcome options file ≡ Prints 0 text
        → (reasons : List PlainReason) × Explains file reasons × (text ≡ explanation_text file reasons) }
{}

/// The bid that is named when a step limit refuses a bundle is a bid of the OR bidder on it.
pub fn named_bids_are_refused()
    ensures { (options : SearchOptions) (file : PlainFile) (bundle : List ℕ)
        → first_refused options file.goods (or_atoms_of file.bids) ≡ Some bundle
        → (first_bid_on file bundle < length file.bids)
        × (is_on bundle (bid_at file (first_bid_on file bundle)) ≡ true) }
{}

/// A search for a value is never refused by a limit of as many steps as it may take.
pub fn enough_steps_give_values()
    ensures { (goods : List ℕ) (options : SearchOptions) (met : Bool) (file : PlainFile)
        → missing_good file.goods goods ≡ None
        → most_value_steps options.kind (or_atoms_of file.bids) (bundle_from goods) ≤ next_steps options
        → value_outcome_by goods options met file ≡ Prints 0 (value_text file (bundle_from goods)) }
{}

/// The statuses of the commands on one file, of what they print and of their faults.
pub fn statuses_of_commands<I: Input>()
    ensures printed { (request : PlainRequest) (bids : List ℕ) (old new : I) (answer : Answer)
        → CommandsIfMet I.gives I.refuses (outcome_of request bids) old new (Ok answer)
        → Contains (statuses_of request.task) answer.status }
    ensures refused { (request : PlainRequest) (bids : List ℕ) (old new : I) (fault : RunFault)
        → CommandsIfMet I.gives I.refuses (outcome_of request bids) old new (Err fault)
        → Contains (statuses_of request.task) (status_of_fault fault) }
{}

/// The status of `compare` and of `diff` is 0 exactly for the same auction.
pub fn zero_exactly_for_the_same_auction()
    ensures compare { (left right : PlainFile) (status : ℕ) (text : List ℕ) → IsPlainFile left → IsPlainFile right
        → compare_outcome left right ≡ Prints status text → (status ≡ 0 ↔ AreSameFiles left right) }
    ensures diff { (left right : PlainFile) (differences : PlainDifferences) (status : ℕ) (text : List ℕ) → IsPlainFile left
        → IsPlainFile right
        → AreAllDifferences (auction_from (canonical_file left)) (auction_from (canonical_file right)) differences
        → diff_outcome (left, right, differences) ≡ Prints status text → (status ≡ 0 ↔ AreSameFiles left right) }
{}

/// A column has the words of its line before it that it says, and the others from it on. The first of these begins there;
/// without one the line ends there.
pub fn words_begin_at_columns()
    ensures before { (line : List ℕ) (words : ℕ)
        → line_words (take (bytes_before words line) line) ≡ take words (line_words line) }
    ensures behind { (line : List ℕ) (words : ℕ)
        → line_words (drop (bytes_before words line) line) ≡ drop words (line_words line) }
    ensures begins { (line : List ℕ) (words : ℕ) → words < length (line_words line)
        → begins_word (drop (bytes_before words line) line) ≡ true }
    ensures end { (line : List ℕ) (words : ℕ) → length (line_words line) ≤ words → bytes_before words line ≡ length line }
{}
