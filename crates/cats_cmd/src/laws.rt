//! Laws of what the runs read and print.

ghost use Rattle.std.specs.List.{All, AllByRecursion, flat_map};
ghost use Rattle.cats_cmd.specs.ComparedFolders.{ArePathsBelow, ComparedPath, FoundFolders, IsIn, IsSameBelow, IsSameRow};
ghost use Rattle.cats_cmd.specs.ComparedFolders.{JudgesRow, status_of_rows};
ghost use Rattle.std.specs.Prelude.{◌≡◌, ◌⊎◌, ◌==◌, ◌*◌, ◌+◌, ◌↔◌, ℕ, Bool, List, [], None, Ok, Some, map, false, slice_get};
ghost use Rattle.std.specs.Prelude.{is_some, true};
ghost use Rattle.bid_file.specs.Files.{IsPlainFile, PlainFile};
ghost use Rattle.cats_text.specs.FaultPlaces.{PlainPlace};
ghost use Rattle.requests.specs.Requests.{PlainRequest};
ghost use Rattle.analysis.specs.AllocationVerdicts.{allocation_text};
ghost use Rattle.analysis.specs.Allocations.{greatest_revenue, revenue};
ghost use Rattle.analysis.specs.Differences.{PlainDifferences};
ghost use Rattle.analysis.specs.Reasons.{PlainReason};
ghost use Rattle.analysis.specs.declared.winners.allocation_verdict.AllocationVerdict.{AllocationVerdict};
ghost use Rattle.canon.specs.Difference.{Difference};
ghost use Rattle.commands.specs.Commands.{text_of};
ghost use Rattle.commands.specs.Compare.{difference_text};
ghost use Rattle.commands.specs.Diff.{diff_text};
ghost use Rattle.commands.specs.Explain.{explanation_text};
ghost use Rattle.commands.specs.Value.{value_text};
ghost use Rattle.commands.specs.Outcomes.{Prints};
ghost use Rattle.commands.specs.Meanings.{outcome_of};
ghost use Rattle.commands.specs.Pairs.{CommandsOnBoth};
ghost use Rattle.commands.specs.declared.answer.Answer.{Answer};
ghost use Rattle.cats_cmd.specs.Escaping.{AreBytes, IsTextOf, escaped, is_control_byte, is_printable, is_shown, unescaped};
ghost use Rattle.cats_cmd.specs.DuplicateTexts.{duplicates_text, printed_groups};
ghost use Rattle.cats_cmd.specs.FindingFaults.{text_of_place};
ghost use Rattle.cats_cmd.specs.OutputPaths.{IsPath, groups_in, paths_in_table};
ghost use Rattle.cats_cmd.specs.PathLists.{listed, paths_in};
ghost use Rattle.cats_cmd.specs.Paths.{JudgedPath, progress_line, refusal_line, report_lines};
ghost use Rattle.cats_cmd.specs.Paths.{without_refusals};
ghost use Rattle.cats_cmd.specs.Folders.{AreFilesAt};
ghost use Rattle.cats_cmd.specs.TextPaths.{AreTextPlaces, PlacedText};
ghost use Rattle.canon.specs.Canonical.{canonical_text};
ghost use Rattle.cats_cmd.specs.Duplicates.{judged_files};
ghost use Rattle.cats_cmd.specs.Publishing.{HasSameText, same_as, attempt_if};
ghost use Rattle.canon.specs.Sameness.{AreSameFiles};
ghost use Rattle.canon.specs.Unsearched.{AreAlike};
ghost use Rattle.cats_cmd.specs.DuplicatesTables.{FileGroup, MakesGroupTable, first_path, group_of, groups_among, key_of};
ghost use Rattle.commands.specs.declared.faults.HeavyBid.{HeavyBid};
ghost use Rattle.commands.specs.Judgements.{IsHeavy, IsJudged, IsPublished, Publishing};
ghost use Rattle.cats_cmd.specs.PricedInputs.{PricedGives, PricedRefuses, none_rounded, rounding_lines};
ghost use Rattle.cats_cmd.specs.declared.priced_input.PricedInput.{PricedInput};
ghost use Rattle.cats_cmd.specs.SizesTables.{MakesTable};
ghost use Rattle.cats_cmd.specs.declared.paths.Ending.{Ending};
ghost use Rattle.cats_cmd.specs.declared.paths.Ending.TheVariants.{Line};
ghost use Rattle.cats_cmd.specs.declared.paths.Progress.TheVariants.{Silent};
ghost use Rattle.rounding.specs.Multiplied.{times_file};
ghost use Rattle.valuation.specs.Auctions.{or_atoms_of, xor_atoms_of};
ghost use Rattle.valuation.specs.Values.{or_value, xor_value};
ghost use Rattle.valuation.specs.declared.search.options.SearchOptions.{SearchOptions};
ghost use Rattle.commands.specs.FaultLines.{line_of_fault};
ghost use Rattle.commands.specs.Judgements.{Judgement, JudgesInput};
ghost use Rattle.commands.specs.declared.faults.RunFault.{RunFault};

use crate::source::Source;
use commands::Input;
use std::io::Read;

/// The paths in a text that lists some paths are these: any paths without NUL can be listed.
pub fn listed_paths_are_read_back()
    ensures { (paths : List (List ℕ)) → All (λ path. All (λ b. (b == 0) ≡ false) path) paths
        → paths_in (listed paths) ≡ paths }
{}

/// A path can be read back from its escaped form. This has printable characters alone, and so no control byte: no LF, no
/// tab, no NUL, no escape.
pub fn escaped_path_is_read_back()
    ensures back { (path : List ℕ) → unescaped (escaped path) ≡ path }
    ensures harmless { (path : List ℕ) → All (λ b. is_control_byte b ≡ false) (escaped path) }
    ensures printable { (path : List ℕ) → AreBytes path → IsTextOf is_printable (escaped path) }
{}

/// Beside bid files, what the program prints of faults and paths is characters that are printable, tabs and line feeds:
/// the lines of faults, those that name a path, the groups of `cats duplicates` and its table, and that of `cats sizes`.
pub fn printed_lines_are_shown()
    ensures faults { (error : RunFault) → IsTextOf is_shown (line_of_fault error) }
    ensures refusals { (path : List ℕ) (error : RunFault) → AreBytes path → IsTextOf is_shown (refusal_line path error) }
    ensures progress { (number count : ℕ) (path : List ℕ) → AreBytes path
        → IsTextOf is_shown (progress_line number count path) }
    ensures groups { (all : Bool) (judged heavy : List (List ℕ × ℕ)) → All (λ f. AreBytes f.0) judged
        → All (λ f. AreBytes f.0) heavy → IsTextOf is_shown (duplicates_text Line all judged heavy) }
    ensures tables { (judgements : List (List ℕ × Judgement)) (text : List ℕ) → All (λ j. AreBytes j.0) judgements
        → MakesTable Line judgements text → IsTextOf is_shown text }
    ensures group_tables { (judgements : List (List ℕ × Judgement)) (text : List ℕ) → All (λ j. AreBytes j.0) judgements
        → MakesGroupTable Line judgements text → IsTextOf is_shown text }
{}

/// So is what the commands on one or two files print, and `cats fault`.
pub fn printed_answers_are_shown<I: Input, J: Input>()
    ensures commands { (request : PlainRequest) (bids : List ℕ) (met : Bool) (file : PlainFile) (status : ℕ)
        (text : List ℕ) → outcome_of request bids met file ≡ Prints status text → IsTextOf is_shown text }
    ensures comparisons { (request : PlainRequest) (first first_after : I) (second second_after : J) (answer : Answer)
        → CommandsOnBoth I.gives I.refuses J.gives J.refuses request first first_after second second_after (Ok answer)
        → IsTextOf is_shown (text_of answer.output) }
    ensures fault { (path : List ℕ) (column : ℕ) (place : PlainPlace) → AreBytes path → AreBytes place.text
        → IsTextOf is_shown (text_of_place path column place) }
{}

/// So are these texts of any bundle, verdict, difference, reasons and differences.
pub fn printed_texts_are_shown()
    ensures value { (file : PlainFile) (goods : List ℕ) → IsTextOf is_shown (value_text file goods) }
    ensures revenue { (verdict : AllocationVerdict) → IsTextOf is_shown (allocation_text verdict) }
    ensures compare { (difference : Difference) → IsTextOf is_shown (difference_text difference) }
    ensures explain { (file : PlainFile) (reasons : List PlainReason) → IsTextOf is_shown (explanation_text file reasons) }
    ensures diff { (left right : PlainFile) (differences : PlainDifferences)
        → IsTextOf is_shown (diff_text left right differences) }
{}

/// The text of `cats duplicates` has the paths of each group: its lines between each two that are empty, with NUL at the
/// end of each or unescaped, are the paths of an auction that two or more files are, or with `all` of any.
pub fn groups_are_read_back()
    ensures { (ending : Ending) (all : Bool) (judged heavy : List (List ℕ × ℕ)) → All (λ f. IsPath f.0) judged
        → All (λ f. IsPath f.0) heavy
        → groups_in ending (duplicates_text ending all judged heavy) ≡ printed_groups all judged heavy }
{}

/// The table of `cats sizes` has all paths, also of the files that were refused: what is behind the cells of each row below
/// the header.
pub fn table_paths_are_read_back()
    ensures { (ending : Ending) (judgements : List (List ℕ × Judgement)) (text : List ℕ)
        → All (λ j. All (λ b. (b == 0) ≡ false) j.0) judgements → MakesTable ending judgements text
        → paths_in_table ending text ≡ map (λ j. j.0) judgements }
{}

/// In the table of `cats duplicates --table` files are in one group exactly if they are judged ones that are the same
/// auction, or ones that a step limit refused and that are alike.
pub fn groups_are_auctions()
    ensures judged { (groups : List FileGroup) (group : FileGroup) (file other : PlainFile) → IsPlainFile file
        → IsPlainFile other → group_of groups (IsJudged file) ≡ Some group
        → (group_of groups (IsJudged other) ≡ Some group ↔ AreSameFiles file other) }
    ensures refused { (groups : List FileGroup) (group : FileGroup) (file other : PlainFile) (heavy bid : HeavyBid)
        → IsPlainFile file → IsPlainFile other → group_of groups (IsHeavy file heavy) ≡ Some group
        → (group_of groups (IsHeavy other bid) ≡ Some group ↔ AreAlike file other) }
    ensures apart { (groups : List FileGroup) (group : FileGroup) (file other : PlainFile) (heavy : HeavyBid)
        → group_of groups (IsJudged file) ≡ Some group → group_of groups (IsHeavy other heavy) ≡ Some group → ⊥ }
{}

/// Its groups are numbered from 1, each has the path of the first of its files, and each file that was read is in one.
pub fn groups_have_first_files()
    ensures numbers { (judgements : List (List ℕ × Judgement)) (index : ℕ) (group : FileGroup)
        → slice_get (groups_among judgements) index ≡ Some group → group.number ≡ index + 1 }
    ensures firsts { (judgements : List (List ℕ × Judgement)) (judgement : Judgement) (group : FileGroup)
        → group_of (groups_among judgements) judgement ≡ Some group
        → first_path judgements judgement ≡ Some group.first }
    ensures each { (judgements : List (List ℕ × Judgement)) → All (λ j. is_some (key_of j.1) ≡ true
        → is_some (group_of (groups_among judgements) j.1) ≡ true) judgements }
{}

/// Of files, `cats sizes` reports without `--progress` only how many of their prices were rounded: its table says why a
/// file was not judged.
pub fn tables_report_roundings()
    ensures { (count : ℕ) (judged : List JudgedPath) → report_lines (without_refusals Silent) count judged
        ≡ flat_map (λ j. rounding_lines j.path j.rounded) judged }
{}

/// The file that a row names in `same_as` has the text of the row's file.
pub fn same_as_has_the_text()
    ensures { (before : List (List ℕ × Judgement)) (file : PlainFile) (path : List ℕ) → same_as before file ≡ Some path
        → HasSameText before file path }
{}

/// Without `--all` no text is written for a file if one before it has the same text: two rows with a text are different
/// auctions.
pub fn texts_are_of_different_auctions()
    ensures { (folder : List ℕ) (places : List PlacedText) (before : List (List ℕ × Judgement)) (file other : PlainFile)
        (publishing : Publishing) (number : ℕ) → slice_get (judged_files before) number ≡ Some other
        → canonical_text other ≡ canonical_text file
        → attempt_if folder false places before (IsPublished file publishing) ≡ [] }
{}

/// The files whose texts are placed are those of a run on many files.
pub fn placed_files_are_those_of_a_run<S: Source>()
    ensures { (source : S) (paths : List (List ℕ)) (places : List PlacedText)
        → AreTextPlaces (S.may_find (S.content_of source)) paths places
        → AreFilesAt (S.may_find (S.content_of source)) paths (map (λ p. p.file) places) }
{}

/// No price of a file is rounded whose prices are read as they are written.
pub fn written_prices_are_not_rounded<R: Read>()
    ensures { (options : SearchOptions) (before after : PricedInput R) (judgement : Judgement)
        → before.rule ≡ None
        → JudgesInput (PricedGives R.remaining) (PricedRefuses R.remaining) options before after judgement
        → after.rounded ≡ none_rounded }
{}

/// In a file whose prices are multiplied, as `cats round --times` prints it of a bid file, what is offered for a bundle and
/// what bids bring is so many times as much.
pub fn values_are_multiplied()
    ensures or { (n : ℕ) (f : PlainFile) (bundle : List ℕ)
        → or_value (or_atoms_of (times_file n f).bids) bundle ≡ n * or_value (or_atoms_of f.bids) bundle }
    ensures xor { (n : ℕ) (f : PlainFile) (d : ℕ) (bundle : List ℕ)
        → xor_value (xor_atoms_of (times_file n f).bids d) bundle ≡ n * xor_value (xor_atoms_of f.bids d) bundle }
    ensures revenue { (n : ℕ) (f : PlainFile) (winners : List ℕ)
        → revenue (times_file n f) winners ≡ n * revenue f winners }
    ensures greatest { (n : ℕ) (f : PlainFile) → greatest_revenue (times_file n f) ≡ n * greatest_revenue f }
{}

/// Of two folders `cats compare` ends with 0 exactly if all files are the same auction, and no report on prices is lost.
/// Then each path below one of them is below the other too, and the files there are the same auction.
pub fn same_folders_are_the_same_auctions<S: Source>()
    ensures status { (rows : List ComparedPath) → status_of_rows rows ≡ 0 → AllByRecursion IsSameRow rows }
    ensures rows { (rows : List ComparedPath) → AllByRecursion IsSameRow rows → status_of_rows rows ≡ 0 }
    ensures auctions { (source : S) (request : PlainRequest) (folders : FoundFolders) (rows : List ComparedPath)
        → ArePathsBelow folders (map (λ r. r.path) rows)
        → AllByRecursion (JudgesRow (S.may_open (S.content_of source)) (S.may_refuse (S.content_of source))
        S.Stream.remaining request folders) rows → status_of_rows rows ≡ 0
        → (path : List ℕ) → IsIn folders.left path ⊎ IsIn folders.right path
        → IsSameBelow (S.may_open (S.content_of source)) (S.may_refuse (S.content_of source)) S.Stream.remaining request
        folders path }
{}
