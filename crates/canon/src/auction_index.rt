//! `AuctionIndex`: the first file of each auction, among added files.

mod unsearched;

ghost use Rattle.std.specs.Prelude.{◌≡◌, ℕ, List, cond, unwrap_or, bytes_eq, Some, IfOk, IfErr, OnOk, OnErr, false};
ghost use Rattle.cats_text.specs.Streams.{has_ended, has_failed};
ghost use Rattle.canon.specs.Answers.{RefusesAs};
ghost use Rattle.canon.specs.Canonical.{canonical_text};
ghost use Rattle.canon.specs.FirstNumbers.{AddsStream, AddsText, IsEmptyIndex};
ghost use Rattle.canon.specs.Normalising.{IsText, normalised_file};
ghost use Rattle.canon.specs.Unsearched.{unsearched_text};
ghost use Rattle.canon.specs.Internal.TextNumbers.{number_of};

use crate::auction_index::unsearched::unsearched_file;
use crate::canon_fault::CanonFault;
use crate::normal::named_normal_file;
use bid_file::PackedFile;
use cats_text::packed::read_packed_from;
use cats_text::{Watched, write};
use std::alloc::{AllocError, Global};
use std::collections::BTreeMap;
use std::io::Read;
use std::marker::Model;
use valuation::search::SearchOptions;

/// The auctions of the files that were added. It keeps one text for each auction, in order, so no texts can be made that
/// take long to find. It keeps no file.
///
/// The files of one index are all added by `add`, `add_text` and `add_from`, or all by `add_unsearched`.
#[derive(Drop)]
pub struct AuctionIndex {
    /// Each text, with the number of the first file that has it.
    numbers: BTreeMap<Vec<u8>, usize>,
    /// How many files were added.
    count: usize,
}

impl Model for AuctionIndex {
    ghost use Rattle.std.specs.Prelude.{map};
    ghost use Rattle.canon.specs.FirstNumbers.{TextIndex};

    ghost Value = { TextIndex };

    ghost view = { λ index. record { texts = map (λ e. (e.0.items, e.1)) index.numbers.entries; count = index.count } };
}

impl AuctionIndex {
    /// An index that no file was added to.
    pub fn new(alloc: Global) -> AuctionIndex
        ensures { IsEmptyIndex result }
    {
        AuctionIndex {
            numbers: BTreeMap::new(alloc),
            count: 0,
        }
    }

    /// Adds a packed file, and answers the number, counted from 0, of the first file added that is the same auction;
    /// that is its own number where there is none.
    ///
    /// An index to which `usize::MAX` files were added takes no more, and reports want of memory.
    pub fn add(
        &mut self,
        alloc: Global,
        file: &PackedFile,
        options: SearchOptions,
    ) -> Result<usize, CanonFault>
        ensures added { IfOk result (AddsText self.old self.new (canonical_text file.now)) }
        ensures within_limits { OnOk result (normalised_file options file.now ≡ IsText (canonical_text file.now)) }
        ensures refused { IfErr result (RefusesAs (normalised_file options file.now)) }
        ensures unchanged { OnErr result (self.new ≡ self.old) }
    {
        let Some(count) = self.count.checked_add(1) else {
            return Err(CanonFault::Memory);
        };
        let normal = named_normal_file(alloc, file, options)?;
        let text = write(alloc, &normal.file)?;
        let number = number_text(&mut self.numbers, text, self.count)?;
        self.count = count;
        Ok(number)
    }

    /// Adds a packed file by what needs no search, and answers the number, counted from 0, of the first file added that is
    /// alike; that is its own number where there is none. Alike files are the same auction, but some of the same auction are
    /// not alike.
    ///
    /// It takes no more files than `add`.
    pub fn add_unsearched(&mut self, alloc: Global, file: &PackedFile) -> Result<usize, AllocError>
        ensures added { IfOk result (AddsText self.old self.new (unsearched_text file.now)) }
        ensures unchanged { OnErr result (self.new ≡ self.old) }
    {
        let Some(count) = self.count.checked_add(1) else {
            return Err(AllocError);
        };
        let file = unsearched_file(alloc, file)?;
        let text = write(alloc, &file)?;
        let number = number_text(&mut self.numbers, text, self.count)?;
        self.count = count;
        Ok(number)
    }

    /// Adds a file by its canonical text, as `add`.
    pub fn add_text(&mut self, alloc: Global, text: &[u8]) -> Result<usize, AllocError>
        ensures added { IfOk result (AddsText self.old self.new text.now) }
        ensures unchanged { OnErr result (self.new ≡ self.old) }
    {
        let Some(count) = self.count.checked_add(1) else {
            return Err(AllocError);
        };
        let text = Vec::from_slice(alloc, text)?;
        let number = number_text(&mut self.numbers, text, self.count)?;
        self.count = count;
        Ok(number)
    }

    /// Reads a bid file and adds it, as `add`.
    pub fn add_from<R: Read>(
        &mut self,
        alloc: Global,
        input: &mut Watched<R>,
        options: SearchOptions,
    ) -> Result<usize, CanonFault>
        requires works { has_failed input.old ≡ false }
        requires fresh { has_ended input.old ≡ false }
        ensures { AddsStream R.remaining options self.old self.new input.old input.new result }
    {
        let file = read_packed_from(alloc, input)?;
        self.add(alloc, &file, options)
    }
}

/// The number of a text, which gets this number if it has none yet. No more memory is kept than the text needs.
fn number_text(
    numbers: &mut BTreeMap<Vec<u8>, usize>,
    text: Vec<u8>,
    number: usize,
) -> Result<usize, AllocError>
    ensures answer { IfOk result (λ first. first ≡ unwrap_or (number_of numbers.old text.items) number) }
    ensures placed { IfOk result (λ first. (other : List ℕ)
        → number_of numbers.new other ≡ cond (bytes_eq text.items other) (Some first) (number_of numbers.old other)) }
    ensures unchanged { OnErr result (numbers.new.entries ≡ numbers.old.entries) }
{
    if let Some(first) = numbers.get(text.as_slice()) {
        return Ok(*first);
    }
    let mut text = text;
    text.shrink_to_fit();
    numbers.insert(text, number)?;
    Ok(number)
}
