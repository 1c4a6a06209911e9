//! `cats sizes`: a table of the numbers of files. Each row has those of a bid file and of its canonical file, and why the
//! file was not judged.

ghost use Rattle.std.specs.Prelude.{◌≡◌, ◌++◌, List, ℕ, codes, OnOk};
ghost use Rattle.cats_cmd.specs.SizesTables.{fault_cell, without_end};
ghost use Rattle.commands.specs.FaultLines.{line_of_fault};

use crate::escaping::{push_end, push_path};
use crate::paths::{Added, Collection, ManyFiles};
use crate::priced_input::PricedInput;
use crate::source::Source;
use canon::Which;
use cats_text::Watched;
use commands::faults::{RunFault, Unopened};
use commands::printed::fault_line;
use commands::sizes::{NO_NUMBERS, push_numbers};
use std::alloc::{AllocError, AllocGlobal, Global};
use std::io::Write;

/// The line above the rows.
const HEADER: &str =
    "goods\tbids\tor_bids\txor_bidders\tdummies\tkept\tkept_or\tkept_xor\tfault\tfile";

/// The table, of which each row is printed when its file ends. Nothing of it is kept.
#[derive(Drop)]
pub(crate) struct Table {}

impl Collection for Table {
    ghost use Rattle.std.specs.Prelude.{[], Some};
    ghost use Rattle.cats_cmd.specs.Paths.{PrintsOnly};
    ghost use Rattle.cats_cmd.specs.SizesTables.{MakesTable};

    ghost searched = { λ options. Some options };

    ghost keeps = { λ table judgements. Unit {0} };

    ghost Shows = { λ many. PrintsOnly (MakesTable many.ending) };

    ghost Makes = { λ many. PrintsOnly (MakesTable many.ending) };

    ghost refusals = { λ path fault. [] };

    fn begin(alloc: Global, many: ManyFiles<'_>) -> Result<(Table, Vec<u8>), AllocError> {
        let mut header = Vec::from_slice(alloc, HEADER.as_bytes())?;
        push_end(&mut header, many.ending)?;
        Ok((Table {}, header))
    }

    fn add<S: Source + AllocGlobal>(
        &mut self,
        source: &mut S,
        path: &[u8],
        input: &mut PricedInput<S::Stream>,
        many: ManyFiles<'_>,
    ) -> Result<Added, AllocError> {
        let alloc = source.alloc();
        let mut text = Vec::new(alloc);
        let fault = push_numbers(alloc, &mut text, input, many.options)?;
        push_fault(alloc, &mut text, &fault)?;
        push_path(&mut text, path, many.ending)?;
        Ok(Added { fault, text })
    }

    fn add_unopened(
        &mut self,
        alloc: Global,
        path: &[u8],
        why: Unopened,
        many: ManyFiles<'_>,
    ) -> Result<Vec<u8>, AllocError> {
        let mut text = Vec::from_slice(alloc, NO_NUMBERS.as_bytes())?;
        push_fault(
            alloc,
            &mut text,
            &Some(RunFault::NotOpened(Which::Only, why)),
        )?;
        push_path(&mut text, path, many.ending)?;
        Ok(text)
    }

    /// The row says it.
    fn report_refusal<E: Write>(_path: &[u8], _fault: &Option<RunFault>, _err: &mut Watched<E>) {}

    /// All rows are printed.
    fn end(&self, alloc: Global, _many: ManyFiles<'_>) -> Result<Vec<u8>, AllocError> {
        Ok(Vec::new(alloc))
    }
}

/// Puts why a file was not judged behind the text, with a tab after it.
fn push_fault(alloc: Global, text: &mut Vec<u8>, fault: &Option<RunFault>) -> Result<(), AllocError>
    ensures { let more : List ℕ = fault_cell fault.now ++ codes "\t" in
        OnOk result (text.new.items ≡ text.old.items ++ more) }
{
    push_fault_cell(alloc, text, fault)?;
    text.push(b'\t')?;
    Ok(())
}

/// Puts why a file was not judged behind the text.
pub(crate) fn push_fault_cell(
    alloc: Global,
    text: &mut Vec<u8>,
    fault: &Option<RunFault>,
) -> Result<(), AllocError>
    ensures { OnOk result (text.new.items ≡ text.old.items ++ fault_cell fault.now) }
{
    if let Some(fault) = fault {
        push_fault_text(alloc, text, fault)?;
    }
    Ok(())
}

/// Puts what is reported of a fault, without the end of the line, behind the text.
pub(crate) fn push_fault_text(
    alloc: Global,
    text: &mut Vec<u8>,
    fault: &RunFault,
) -> Result<(), AllocError>
    ensures { OnOk result (text.new.items ≡ text.old.items ++ without_end (line_of_fault fault.now)) }
{
    let line = fault_line(alloc, fault)?;
    let end = line.len().saturating_sub(1);
    text.extend_from_slice(&line.as_slice()[..end])
}
