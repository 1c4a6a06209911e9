//! `cats duplicates`: which of many files are the same auction.

mod lines;
pub(crate) mod table;

ghost use Rattle.std.specs.Prelude.{OnOk};
ghost use Rattle.cats_cmd.specs.Paths.{refusal_lines};
ghost use Rattle.cats_cmd.specs.Reports.{ReportsAll};

use crate::paths::{Added, Collection, ManyFiles, report_if_refused};
use crate::priced_input::PricedInput;
use crate::source::Source;
use bid_file::PackedFile;
use canon::{AuctionIndex, CanonFault, Which};
use cats_text::Watched;
use commands::Input;
use commands::faults::{RunFault, Unopened, name_bid};
use lines::duplicates_text;
use std::alloc::{AllocError, AllocGlobal, Global};
use std::io::{Read, Write};
use valuation::search::SearchOptions;

/// Files in groups.
#[derive(Drop)]
pub(crate) struct NumberedFiles {
    index: AuctionIndex,
    /// The path of each file, with the number of the first file of its group. A table keeps other paths and numbers
    /// (`GroupTable`).
    found: Vec<(Vec<u8>, usize)>,
}

impl NumberedFiles {
    ghost use Rattle.std.specs.Prelude.{◌≡◌, []};
    ghost use Rattle.canon.specs.FirstNumbers.{IsEmptyIndex};

    fn new(alloc: Global) -> NumberedFiles
        ensures index { IsEmptyIndex result.index }
        ensures found { result.found.items ≡ [] }
    {
        NumberedFiles {
            index: AuctionIndex::new(alloc),
            found: Vec::new(alloc),
        }
    }
}

/// The files that were judged, by their auctions, and those that a step limit refused, which are together where they are
/// alike.
#[derive(Drop)]
pub(crate) struct Groups {
    judged: NumberedFiles,
    heavy: NumberedFiles,
}

impl Groups {
    ghost use Rattle.bid_file.specs.Files.{IsPlainFile};
    ghost use Rattle.std.specs.Prelude.{IfOk, Some};
    ghost use Rattle.cats_cmd.specs.Internal.Judging.{AddsRefused, AddsStream, KeepsGroups};
    ghost use Rattle.cats_cmd.specs.PricedInputs.{IsReady, JudgesPriced};

    /// Adds a file for this fault, which it was refused for, if a step limit refused it.
    fn add_refused(
        &mut self,
        alloc: Global,
        path: &[u8],
        file: &PackedFile,
        fault: &CanonFault,
    ) -> Result<(), AllocError>
        requires { IsPlainFile file.now }
        ensures { OnOk result (AddsRefused path.now file.now fault.now self.old self.new) }
    {
        match fault {
            CanonFault::StepLimit { goods: _ } => {
                let number = self.heavy.index.add_unsearched(alloc, file)?;
                let path = Vec::from_slice(alloc, path)?;
                self.heavy.found.push((path, number))?;
                Ok(())
            }
            CanonFault::Read(_) => Ok(()),
            CanonFault::Memory => Ok(()),
        }
    }

    /// Adds the file at a path, and answers why it is not judged.
    fn add_file<R: Read>(
        &mut self,
        alloc: Global,
        path: &[u8],
        input: &mut PricedInput<R>,
        options: SearchOptions,
    ) -> Result<Option<RunFault>, AllocError>
        requires { IsReady input.old }
        ensures { IfOk result (AddsStream KeepsGroups (JudgesPriced R.remaining (Some options)) path.now self.old self.new
            input.old input.new) }
    {
        let file = match input.read_file(alloc) {
            Ok(file) => file,
            Err(fault) => {
                return Ok(Some(RunFault::from(CanonFault::from(fault))));
            }
        };
        match self.judged.index.add(alloc, &file, options) {
            Ok(number) => {
                let path = Vec::from_slice(alloc, path)?;
                self.judged.found.push((path, number))?;
                Ok(None)
            }
            Err(fault) => {
                self.add_refused(alloc, path, &file, &fault)?;
                let why = name_bid(alloc, Which::Only, &file, options, fault)?;
                Ok(Some(why))
            }
        }
    }
}

impl Collection for Groups {
    ghost use Rattle.std.specs.Prelude.{Some};
    ghost use Rattle.cats_cmd.specs.Duplicates.{MakesGroups};
    ghost use Rattle.cats_cmd.specs.Internal.Judging.{KeepsGroups};
    ghost use Rattle.cats_cmd.specs.Paths.{PrintsNothing, PrintsOnly, refusal_lines};

    ghost searched = { λ options. Some options };

    ghost keeps = { KeepsGroups };

    ghost Shows = { λ many. PrintsNothing };

    ghost Makes = { λ many. PrintsOnly (MakesGroups many.ending many.all) };

    ghost refusals = { refusal_lines };

    fn begin(alloc: Global, _many: ManyFiles<'_>) -> Result<(Groups, Vec<u8>), AllocError> {
        let groups = Groups {
            judged: NumberedFiles::new(alloc),
            heavy: NumberedFiles::new(alloc),
        };
        Ok((groups, Vec::new(alloc)))
    }

    fn add<S: Source + AllocGlobal>(
        &mut self,
        source: &mut S,
        path: &[u8],
        input: &mut PricedInput<S::Stream>,
        many: ManyFiles<'_>,
    ) -> Result<Added, AllocError> {
        let alloc = source.alloc();
        let fault = self.add_file(alloc, path, input, many.options)?;
        let text = Vec::new(alloc);
        Ok(Added { fault, text })
    }

    /// No group has it.
    fn add_unopened(
        &mut self,
        alloc: Global,
        _path: &[u8],
        _why: Unopened,
        _many: ManyFiles<'_>,
    ) -> Result<Vec<u8>, AllocError> {
        Ok(Vec::new(alloc))
    }

    fn report_refusal<E: Write>(path: &[u8], fault: &Option<RunFault>, err: &mut Watched<E>)
        ensures { ReportsAll E.contents (refusal_lines path.now fault.now) err.old err.new }
    {
        report_if_refused(path, fault, err);
    }

    fn end(&self, alloc: Global, many: ManyFiles<'_>) -> Result<Vec<u8>, AllocError> {
        let judged = self.judged.found.as_slice();
        let heavy = self.heavy.found.as_slice();
        duplicates_text(alloc, judged, heavy, many.ending, many.all)
    }
}
