//! `PushReader`: bytes pushed to the scanner, up to a limit.

ghost use Rattle.std.specs.Prelude.{◌≡◌, ◌^◌, ◌<◌, [], None};
ghost use Rattle.cats_text.specs.Internal.Reading.{PartsAs, Unpacks};
ghost use Rattle.cats_text.specs.Reading.{CheckedAs, FeedsAs, PackedAs};

use crate::history::History;
use crate::keep::{BidCount, Keep};
use crate::parser::Header;
use crate::read_fault::{Kind, ReadFault};
use crate::scanner::Scanner;
use bid_file::{BidFile, PackedBids, PackedFile};
use std::alloc::Global;
use std::marker::Model;

/// Judges the bytes that it is fed, and remembers the fault that it found.
#[derive(Drop)]
pub struct PushReader<K: Keep> {
    limit: u64,
    /// How many bytes came.
    count: u64,
    scanner: Scanner<K>,
    failed: Option<ReadFault>,
    history: History,
}

impl<K: Keep> Model for PushReader<K> {
    ghost use Rattle.cats_text.specs.Fed.{Fed};
    ghost use Rattle.cats_text.specs.Internal.Reading.{IsReading};

    ghost Value = { Fed };

    ghost view = { λ r. record { limit = r.limit; bytes = r.history.bytes; failed = r.failed } };

    ghost invariant = { λ r. IsReading K.keep r.limit r.count r.scanner r.failed r.history.bytes };
}

impl<K: Keep> PushReader<K> {
    /// Takes at most `limit` bytes.
    pub fn new(alloc: Global, limit: u64) -> PushReader<K>
        requires { limit < 2 ^ 63 }
        ensures { result ≡ record { limit = limit; bytes = []; failed = None } }
    {
        PushReader {
            limit,
            count: 0,
            scanner: Scanner::new(alloc),
            failed: None,
            history: History::new(),
        }
    }

    /// Judges what is complete in the bytes so far. After a fault each call answers that fault again.
    pub fn feed(&mut self, piece: &[u8]) -> Result<(), ReadFault>
        ensures { FeedsAs self.old piece.now self.new result }
    {
        if let Some(fault) = self.failed {
            return Err(fault);
        }
        self.history.note(piece);
        let space = (self.limit - self.count) as usize;
        let within = piece.len().min(space);
        let judged = match self.scanner.take(&piece[..within]) {
            Err(kind) => Err(ReadFault::at(self.scanner.line, kind)),
            Ok(()) if within < piece.len() => Err(ReadFault::whole(Kind::TooLong)),
            Ok(()) => Ok(()),
        };
        self.count += within as u64;
        self.failed = judged.err();
        judged
    }

    /// Judges the rest as the end of the input, and answers what the header lines said and what is kept of the bids.
    pub(crate) fn finish(self) -> Result<(Header, K), ReadFault>
        ensures { PartsAs K.keep K.bids self result }
    {
        if let Some(fault) = self.failed {
            return Err(fault);
        }
        self.scanner.finish()
    }
}

/// Judges the rest as the end of the input, and gives the packed file.
pub fn finish_packed(push_reader: PushReader<PackedBids>) -> Result<PackedFile, ReadFault>
    ensures { PackedAs push_reader result }
{
    let (header, bids) = push_reader.finish()?;
    Ok(PackedFile::new(header.goods, header.dummy, bids))
}

/// Judges the rest as the end of the input, and answers what the header lines said.
pub fn finish_header(push_reader: PushReader<BidCount>) -> Result<Header, ReadFault>
    ensures { CheckedAs push_reader result }
{
    let (header, _count) = push_reader.finish()?;
    Ok(header)
}

/// The same file with a vector for each bid.
pub fn unpacked(alloc: Global, file: &PackedFile) -> Result<BidFile, ReadFault>
    ensures { Unpacks file.now result }
{
    file.to_file(alloc)
        .map_err(|_| ReadFault::whole(Kind::Memory))
}
