//! `cats duplicates --table`: a row for each path, with the group of its file, the first file of that, and why the file was
//! not judged.

ghost use Rattle.std.specs.Prelude.{◌≡◌, ◌++◌, IfOk, OnOk, option_and_then, slice_get};
ghost use Rattle.cats_cmd.specs.DuplicatesTables.{cell_end, cell_text, group_cells, path_cell, row_text, table_header};
ghost use Rattle.cats_cmd.specs.DuplicateTexts.{found_paths};
ghost use Rattle.cats_cmd.specs.Internal.GroupTables.{NotesFile, shown_entry};

use super::NumberedFiles;
use crate::escaping::{escape_into, push_end};
use crate::paths::{Added, Collection, Ending, ManyFiles};
use crate::priced_input::PricedInput;
use crate::sizes::push_fault_cell;
use crate::source::Source;
use bid_file::PackedFile;
use canon::{AuctionIndex, CanonFault, Which};
use cats_text::Watched;
use commands::Input;
use commands::faults::{RunFault, Unopened, name_bid};
use itoa::Buffer;
use std::alloc::{AllocError, AllocGlobal, Global};
use std::io::{Read, Write};

/// The table, of which each row is printed when its file ends. With the first file of each group it keeps the group's
/// number, which is counted from 1, and with another file nothing.
#[derive(Drop)]
pub(crate) struct GroupTable {
    judged: NumberedFiles,
    heavy: NumberedFiles,
    /// How many groups there are.
    count: usize,
}

/// The row of a path: the path of the first file of its group and the group's number, if its file is in one, and why it was
/// not judged.
fn row(
    alloc: Global,
    group: Option<&(Vec<u8>, usize)>,
    path: &[u8],
    fault: &Option<RunFault>,
    ending: Ending,
) -> Result<Vec<u8>, AllocError>
    ensures { IfOk result (λ text. text.items ≡ row_text ending (shown_entry group.entry) path.now fault.now) }
{
    let mut text = Vec::new(alloc);
    push_group_cells(&mut text, group, path, ending)?;
    push_path_cell(&mut text, path, ending)?;
    push_fault_cell(alloc, &mut text, fault)?;
    push_end(&mut text, ending)?;
    Ok(text)
}

/// Puts the cells of a group behind the text. A file without a group has no number, and is its own first file.
fn push_group_cells(
    text: &mut Vec<u8>,
    group: Option<&(Vec<u8>, usize)>,
    path: &[u8],
    ending: Ending,
) -> Result<(), AllocError>
    ensures { OnOk result (text.new.items ≡ text.old.items ++ group_cells ending path.now (shown_entry group.entry)) }
{
    let Some((first, number)) = group else {
        push_cell_end(text, ending)?;
        return push_path_cell(text, path, ending);
    };
    text.extend_from_slice(Buffer::new().format(*number).as_bytes())?;
    push_cell_end(text, ending)?;
    push_path_cell(text, first.as_slice(), ending)
}

fn push_path_cell(text: &mut Vec<u8>, path: &[u8], ending: Ending) -> Result<(), AllocError>
    ensures { OnOk result (text.new.items ≡ text.old.items ++ cell_text ending (path_cell ending path.now)) }
{
    match ending {
        Ending::Line => escape_into(path, text)?,
        Ending::Null => text.extend_from_slice(path)?,
    }
    push_cell_end(text, ending)
}

/// Puts what is behind each cell but the last behind the text.
fn push_cell_end(text: &mut Vec<u8>, ending: Ending) -> Result<(), AllocError>
    ensures { OnOk result (text.new.items ≡ text.old.items ++ cell_end ending) }
{
    match ending {
        Ending::Line => text.push(b'\t')?,
        Ending::Null => text.push(0)?,
    }
    Ok(())
}

impl NumberedFiles {
    /// Notes the file at this path, which was added last, and answers how many groups there are then, of so many before.
    /// `first` is the number of the first file that is grouped with it.
    fn note(
        &mut self,
        alloc: Global,
        path: &[u8],
        first: usize,
        count: usize,
    ) -> Result<usize, AllocError>
        ensures index { self.new.index ≡ self.old.index }
        ensures notes { IfOk result (NotesFile path.now first count (found_paths self.old.found.items)
            (found_paths self.new.found.items)) }
    {
        if first < self.found.len() {
            self.found.push((Vec::new(alloc), 0))?;
            return Ok(count);
        }
        let Some(number) = count.checked_add(1) else {
            return Err(AllocError);
        };
        let path = Vec::from_slice(alloc, path)?;
        self.found.push((path, number))?;
        Ok(number)
    }
}

impl GroupTable {
    ghost use Rattle.std.specs.Prelude.{Some};
    ghost use Rattle.cats_cmd.specs.Internal.GroupTables.{AddsRow, NotesRefused};
    ghost use Rattle.cats_cmd.specs.PricedInputs.{IsReady, JudgesPriced};

    /// Adds a file for this fault, which it was refused for, if a step limit refused it. Answers the number of the first
    /// file that is alike.
    fn add_refused(
        &mut self,
        alloc: Global,
        path: &[u8],
        file: &PackedFile,
        fault: &CanonFault,
    ) -> Result<Option<usize>, AllocError>
        ensures { IfOk result (NotesRefused path.now file.now fault.now self.old self.new) }
    {
        match fault {
            CanonFault::StepLimit { goods: _ } => {
                let first = self.heavy.index.add_unsearched(alloc, file)?;
                self.count = self.heavy.note(alloc, path, first, self.count)?;
                Ok(Some(first))
            }
            CanonFault::Read(_) => Ok(None),
            CanonFault::Memory => Ok(None),
        }
    }

    /// The group of a refused file, by the number of the first file that is alike.
    fn heavy_group(&self, first: Option<usize>) -> Option<&(Vec<u8>, usize)>
        ensures { shown_entry result ≡ option_and_then (slice_get (found_paths self.now.heavy.found.items)) first }
    {
        match first {
            Some(first) => self.heavy.found.get(first),
            None => None,
        }
    }

    /// Adds the file at a path, and answers why it is not judged, and its row.
    fn add_file<R: Read>(
        &mut self,
        alloc: Global,
        path: &[u8],
        input: &mut PricedInput<R>,
        many: ManyFiles<'_>,
    ) -> Result<Added, AllocError>
        requires { IsReady input.old }
        ensures { IfOk result (λ added. AddsRow many.entry.ending (JudgesPriced R.remaining
            (Some many.entry.options)) path.now
            self.old self.new input.old input.new added.fault added.text.items) }
    {
        let ending = many.ending;
        let file = match input.read_file(alloc) {
            Ok(file) => file,
            Err(fault) => {
                let fault = Some(RunFault::from(CanonFault::from(fault)));
                let text = row(alloc, None, path, &fault, ending)?;
                return Ok(Added { fault, text });
            }
        };
        match self.judged.index.add(alloc, &file, many.options) {
            Ok(first) => {
                self.count = self.judged.note(alloc, path, first, self.count)?;
                let group = self.judged.found.get(first);
                let text = row(alloc, group, path, &None, ending)?;
                Ok(Added { fault: None, text })
            }
            Err(fault) => {
                let first = self.add_refused(alloc, path, &file, &fault)?;
                let why = name_bid(alloc, Which::Only, &file, many.options, fault)?;
                let fault = Some(why);
                let group = self.heavy_group(first);
                let text = row(alloc, group, path, &fault, ending)?;
                Ok(Added { fault, text })
            }
        }
    }
}

/// The line above the rows.
fn header(ending: Ending) -> &'static str
    ensures { result.now ≡ table_header ending }
{
    match ending {
        Ending::Line => "group\tfirst\tfile\tfault\n",
        Ending::Null => "group\0first\0file\0fault\0",
    }
}

impl Collection for GroupTable {
    ghost use Rattle.std.specs.Prelude.{[], Some};
    ghost use Rattle.cats_cmd.specs.DuplicatesTables.{MakesGroupTable};
    ghost use Rattle.cats_cmd.specs.Internal.GroupTables.{KeepsGroupTable};
    ghost use Rattle.cats_cmd.specs.Paths.{PrintsOnly};

    ghost searched = { λ options. Some options };

    ghost keeps = { KeepsGroupTable };

    ghost Shows = { λ many. PrintsOnly (MakesGroupTable many.ending) };

    ghost Makes = { λ many. PrintsOnly (MakesGroupTable many.ending) };

    ghost refusals = { λ path fault. [] };

    fn begin(alloc: Global, many: ManyFiles<'_>) -> Result<(GroupTable, Vec<u8>), AllocError> {
        let table = GroupTable {
            judged: NumberedFiles::new(alloc),
            heavy: NumberedFiles::new(alloc),
            count: 0,
        };
        let header = Vec::from_slice(alloc, header(many.ending).as_bytes())?;
        Ok((table, header))
    }

    fn add<S: Source + AllocGlobal>(
        &mut self,
        source: &mut S,
        path: &[u8],
        input: &mut PricedInput<S::Stream>,
        many: ManyFiles<'_>,
    ) -> Result<Added, AllocError> {
        self.add_file(source.alloc(), path, input, many)
    }

    fn add_unopened(
        &mut self,
        alloc: Global,
        path: &[u8],
        why: Unopened,
        many: ManyFiles<'_>,
    ) -> Result<Vec<u8>, AllocError> {
        let fault = Some(RunFault::NotOpened(Which::Only, why));
        row(alloc, None, path, &fault, many.ending)
    }

    /// The row says it.
    fn report_refusal<E: Write>(_path: &[u8], _fault: &Option<RunFault>, _err: &mut Watched<E>) {}

    /// All rows are printed.
    fn end(&self, alloc: Global, _many: ManyFiles<'_>) -> Result<Vec<u8>, AllocError> {
        Ok(Vec::new(alloc))
    }
}
