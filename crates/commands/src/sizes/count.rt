//! The numbers of a bid file in a table.

ghost use Rattle.std.specs.Prelude.{◌≡◌, ◌++◌, ℕ, List, codes, decimal, filter, length, map, IfOk, OnOk};
ghost use Rattle.std.specs.List.{range_with_len};
ghost use Rattle.bid_file.specs.Files.{IsPlainFile};
ghost use Rattle.commands.specs.Sizes.{count_or, count_xor, counts_of, has_dummy, sizes_of, with_tabs};

use crate::printed::cells::push_number;
use bid_file::PackedFile;
use std::alloc::{AllocError, Global};

/// Puts the file's numbers behind the text, each with a tab after it: goods, bids, or, xor, dummy.
pub(super) fn push_sizes(
    alloc: Global,
    text: &mut Vec<u8>,
    file: &PackedFile,
) -> Result<(), AllocError>
    ensures { OnOk result (text.new.items ≡ text.old.items ++ with_tabs (sizes_of file.now)) }
{
    let or_bids = count_or(file);
    let xor_bidders = count_xor(alloc, file)?;
    push_tabbed(text, usize::from(file.goods()))?;
    push_tabbed(text, file.bids().len())?;
    push_tabbed(text, or_bids)?;
    push_tabbed(text, xor_bidders)?;
    push_tabbed(text, file.dummy() as usize)
}

/// Puts the numbers of a canonical file behind the text, each with a tab after it: bids, or, xor.
pub(super) fn push_counts(
    alloc: Global,
    text: &mut Vec<u8>,
    file: &PackedFile,
) -> Result<(), AllocError>
    ensures { OnOk result (text.new.items ≡ text.old.items ++ with_tabs (counts_of file.now)) }
{
    let or_bids = count_or(file);
    let xor_bidders = count_xor(alloc, file)?;
    push_tabbed(text, file.bids().len())?;
    push_tabbed(text, or_bids)?;
    push_tabbed(text, xor_bidders)
}

fn push_tabbed(text: &mut Vec<u8>, number: usize) -> Result<(), AllocError>
    ensures { let more : List ℕ = decimal number ++ codes "\t" in
        OnOk result (text.new.items ≡ text.old.items ++ more) }
{
    push_number(text, number)?;
    text.extend_from_slice(b"\t")
}

/// How many bids have no dummy good.
fn count_or(file: &PackedFile) -> usize
    ensures { result ≡ count_or file.now.bids }
{
    let bids = file.bids();
    let mut count = 0;
    for number in 0..bids.len() {
        let (_, _, dummy) = bids.at(number);
        if dummy.is_none() {
            count += 1;
        }
    }
    count
}

/// How many of the dummy goods some bid has.
fn count_xor(alloc: Global, file: &PackedFile) -> Result<usize, AllocError>
    ensures { IfOk result (λ count. count ≡ count_xor file.now.dummy file.now.bids) }
{
    let _goods = file.goods();
    let marks = mark_dummies(alloc, file)?;
    Ok(count_marks(marks.as_slice()))
}

/// Whether some bid has each of the dummy goods.
fn mark_dummies(alloc: Global, file: &PackedFile) -> Result<Vec<bool>, AllocError>
    requires { IsPlainFile file.now }
    ensures { IfOk result (λ marks. marks.items ≡ map (has_dummy file.now.bids) (range_with_len 0 file.now.dummy)) }
{
    let bids = file.bids();
    let mut marks = vec![in alloc; false; file.dummy() as usize]?;
    for number in 0..bids.len() {
        let (_, _, dummy) = bids.at(number);
        if let Some(dummy) = dummy {
            marks[dummy as usize] = true;
        }
    }
    Ok(marks)
}

fn count_marks(marks: &[bool]) -> usize
    ensures { result ≡ length (filter (λ mark. mark) marks.now) }
{
    let mut count = 0;
    for mark in marks {
        if *mark {
            count += 1;
        }
    }
    count
}
