//! `read` and `check`, and `Reader`, which reads in pieces.

ghost use Rattle.std.specs.Prelude.{◌≡◌, ◌^◌, ◌<◌, [], None};
ghost use Rattle.cats_text.specs.Reading.{CheckAnswer, FinishAnswer, PackedAnswer};

use crate::keep::BidCount;
use crate::parser::Header;
use crate::push_reader::{PushReader, finish_header, finish_packed, unpacked};
use crate::read_fault::ReadFault;
use bid_file::{BidFile, PackedBids, PackedFile};
use std::alloc::Global;
use std::marker::Model;

/// Reads a bid file that comes in pieces. It keeps the bids that came, and of the piece's bytes nothing: a word and a
/// line are small states, however long they are.
#[derive(Drop)]
pub struct Reader {
    alloc: Global,
    push_reader: PushReader<PackedBids>,
}

impl Model for Reader {
    ghost use Rattle.cats_text.specs.Fed.{Fed};

    ghost Value = { Fed };

    ghost view = { λ r. r.push_reader };
}

impl Reader {
    ghost use Rattle.cats_text.specs.Reading.{FeedsAs, FinishesAs};

    /// Reads at most `limit` bytes.
    pub fn new(alloc: Global, limit: u64) -> Reader
        requires { limit < 2 ^ 63 }
        ensures { result ≡ record { limit = limit; bytes = []; failed = None } }
    {
        Reader {
            alloc,
            push_reader: PushReader::new(alloc, limit),
        }
    }

    /// Judges what is complete in the bytes so far. After a fault each call answers that fault again.
    pub fn feed(&mut self, piece: &[u8]) -> Result<(), ReadFault>
        ensures { FeedsAs self.old piece.now self.new result }
    {
        self.push_reader.feed(piece)
    }

    /// Judges the rest as the end of the input, and gives the file.
    pub fn finish(self) -> Result<BidFile, ReadFault>
        ensures { FinishesAs self result }
    {
        let file = finish_packed(self.push_reader)?;
        unpacked(self.alloc, &file)
    }
}

/// Reads a whole text as a bid file.
pub fn read(alloc: Global, text: &[u8]) -> Result<BidFile, ReadFault>
    ensures { FinishAnswer text.now result }
{
    let file = read_packed(alloc, text)?;
    unpacked(alloc, &file)
}

/// Reads a whole text as `read` does, as a packed file.
pub fn read_packed(alloc: Global, text: &[u8]) -> Result<PackedFile, ReadFault>
    ensures { PackedAnswer text.now result }
{
    let mut push_reader = PushReader::new(alloc, text.len() as u64);
    push_reader.feed(text)?;
    finish_packed(push_reader)
}

/// Judges a whole text as `read` does, and answers what the header lines of its file say: how many goods, bids and dummy
/// goods there are. No bid's goods are kept.
pub fn check(alloc: Global, text: &[u8]) -> Result<Header, ReadFault>
    ensures { CheckAnswer text.now result }
{
    let mut counter: PushReader<BidCount> = PushReader::new(alloc, text.len() as u64);
    counter.feed(text)?;
    finish_header(counter)
}
