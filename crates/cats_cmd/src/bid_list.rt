//! A list of bids, which `revenue` may read.

ghost use Rattle.std.specs.Prelude.{◌≡◌, ◌∷◌, [], IfErr, IfOk};
ghost use Rattle.cats_cmd.specs.BidLists.{AreUnread, ReadsBids, fault_of_numbers};
ghost use Rattle.cats_cmd.specs.Opening.{Opens};
ghost use Rattle.cats_cmd.specs.declared.source.Way.TheVariants.{NoFolder};

use crate::many_files::read_list;
use crate::source::Source;
use analysis::winners::{BidNumbersFault, read_bid_numbers};
use canon::CanonFault;
use cats_text::{Kind, ReadFault};
use commands::faults::RunFault;
use std::alloc::AllocGlobal;

/// Reads the numbers of bids in the file at this path.
pub(crate) fn read_bids<S: Source + AllocGlobal>(
    source: &mut S,
    list: &str,
) -> Result<Vec<u32>, RunFault>
    ensures read { IfOk result (λ bids. ReadsBids (S.may_open (S.content_of source.old))
        (S.may_refuse (S.content_of source.old)) S.Stream.remaining list.now bids.items) }
    ensures unread { IfErr result (AreUnread (S.may_open (S.content_of source.old))
        (S.may_refuse (S.content_of source.old)) S.Stream.remaining list.now) }
    ensures opens { Opens S.content_of S.opened source.old source.new ((list.now, NoFolder) ∷ []) }
{
    let text = read_list(source, list)?;
    match read_bid_numbers(source.alloc(), text.as_slice()) {
        Ok(bids) => Ok(bids),
        Err(fault) => Err(RunFault::from(fault_of_numbers(fault))),
    }
}

/// The fault of a list, as that of a bid file.
fn fault_of_numbers(fault: BidNumbersFault) -> CanonFault
    ensures { result ≡ fault_of_numbers fault }
{
    match fault {
        BidNumbersFault::NotANumber { line } => CanonFault::Read(ReadFault {
            line,
            kind: Kind::NotANumber,
        }),
        BidNumbersFault::Memory => CanonFault::Memory,
    }
}
