//! How a fault is reported: its line and its status.

ghost use Rattle.std.specs.Prelude.{◌≡◌, ◌++◌, IfOk, codes};
ghost use Rattle.commands.specs.KindNames.{name_of_kind};
ghost use Rattle.commands.specs.Pieces.{text_of_piece, text_of_pieces};
ghost use Rattle.commands.specs.FaultLines.{line_of_fault, prefix_of, rest_text, text_of_canon_fault, text_of_heavy_bid};
ghost use Rattle.commands.specs.FaultLines.{text_of_limit, text_of_read_fault, text_of_unopened, text_of_unwritten};
ghost use Rattle.commands.specs.Statuses.{status_of_fault, status_of_canon_fault, status_of_read_fault};

use crate::faults::{HeavyBid, Limit, RunFault, Unopened, Unwritten};
use crate::printed::pieces::{NOTHING, Piece, line_pieces, text_of};
use crate::statuses::{DEVICE_FAILED, FILE_REFUSED, NO_MEMORY, STEPS_EXCEEDED, WRONG_USAGE};
use canon::{CanonFault, Which};
use cats_text::{Kind, ReadFault};
use std::alloc::{AllocError, Global};

/// What is reported if memory was refused.
pub const WANT_OF_MEMORY: &str = "want of memory";

/// So many goods of the bundle of a heavy bid are reported.
const SHOWN_GOODS: usize = 20;

/// The exit status of the fault.
pub fn status(fault: &RunFault) -> u8
    ensures { result ≡ status_of_fault fault.now }
{
    match fault {
        RunFault::NotOpened(_, _) => DEVICE_FAILED,
        RunFault::Refused(_, fault) => canon_status(fault),
        RunFault::TooHeavy(_, _) => STEPS_EXCEEDED,
        RunFault::GoodRange(_) | RunFault::BidRange(_) => WRONG_USAGE,
        RunFault::Sent(_) | RunFault::NotWritten(_) => DEVICE_FAILED,
    }
}

fn canon_status(fault: &CanonFault) -> u8
    ensures { result ≡ status_of_canon_fault fault.now }
{
    match fault {
        CanonFault::Read(fault) => read_status(fault.kind),
        CanonFault::StepLimit { goods: _ } => STEPS_EXCEEDED,
        CanonFault::Memory => NO_MEMORY,
    }
}

fn read_status(kind: Kind) -> u8
    ensures { result ≡ status_of_read_fault kind }
{
    match kind {
        Kind::Device => DEVICE_FAILED,
        Kind::Memory => NO_MEMORY,
        _ => FILE_REFUSED,
    }
}

/// The line that reports the fault, with its LF.
pub fn fault_line(alloc: Global, fault: &RunFault) -> Result<Vec<u8>, AllocError>
    ensures { IfOk result (λ line. line.items ≡ line_of_fault fault.now) }
{
    text_of(alloc, &fault_pieces(fault))
}

/// The line that reports the fault, in pieces.
pub fn fault_pieces(fault: &RunFault) -> [Piece<'_>; 14]
    ensures { text_of_pieces result ≡ line_of_fault fault.now }
{
    match fault {
        RunFault::NotOpened(which, why) => text_pieces(prefix(*which), unopened(*why)),
        RunFault::Refused(which, fault) => canon_pieces(prefix(*which), fault),
        RunFault::TooHeavy(which, heavy) => heavy_pieces(prefix(*which), heavy),
        RunFault::GoodRange(good) => {
            let good = Piece::Number(u64::from(*good));
            line_pieces("", "good ", good, " out of range", "")
        }
        RunFault::BidRange(bid) => {
            let bid = Piece::Number(u64::from(*bid));
            line_pieces("", "bid ", bid, " out of range", "")
        }
        RunFault::Sent(fault) => {
            let written = Piece::Number(fault.written);
            line_pieces("", "output failed after ", written, " bytes", "")
        }
        RunFault::NotWritten(why) => text_pieces("", unwritten(*why)),
    }
}

fn prefix(which: Which) -> &'static str
    ensures { result.now ≡ prefix_of which }
{
    match which {
        Which::First => "first: ",
        Which::Second => "second: ",
        Which::Only | Which::Both => "",
    }
}

fn unopened(why: Unopened) -> &'static str
    ensures { result.now ≡ text_of_unopened why }
{
    match why {
        Unopened::NoSuchFile => "cannot open: no such file",
        Unopened::PermissionDenied => "cannot open: permission denied",
        Unopened::IsFolder =>
            "cannot open: is a folder: name it to 'fault', 'duplicates' or 'sizes'",
        Unopened::NotAFile => "cannot open: not a file",
        Unopened::Other => "cannot open",
    }
}

fn unwritten(why: Unwritten) -> &'static str
    ensures { result.now ≡ text_of_unwritten why }
{
    match why {
        Unwritten::Exists => "cannot write: it exists already",
        Unwritten::PermissionDenied => "cannot write: permission denied",
        Unwritten::NoSpace => "cannot write: no space",
        Unwritten::NotAFolder => "cannot write: not a folder",
        Unwritten::Other => "cannot write",
    }
}

fn canon_pieces<'a>(prefix: &'static str, fault: &'a CanonFault) -> [Piece<'a>; 14]
    ensures { text_of_pieces result ≡ prefix.now ++ text_of_canon_fault fault.now ++ codes "\n" }
{
    match fault {
        CanonFault::Read(fault) => read_pieces(prefix, fault),
        CanonFault::StepLimit { goods } => {
            let bundle = Piece::Goods(goods.as_slice());
            line_pieces(prefix, "step limit at ", bundle, "", "")
        }
        CanonFault::Memory => text_pieces(prefix, WANT_OF_MEMORY),
    }
}

fn heavy_pieces<'a>(prefix: &'static str, heavy: &'a HeavyBid) -> [Piece<'a>; 14]
    ensures { text_of_pieces result ≡ prefix.now ++ text_of_heavy_bid heavy.now ++ codes "\n" }
{
    let goods = heavy.goods.as_slice();
    let (limit, steps) = limit_pieces(heavy.limit);
    let (before_count, count, behind_count) = rest_pieces(goods.len());
    [
        Piece::Text(prefix.as_bytes()),
        limit,
        steps,
        Piece::Text(b" at bid "),
        Piece::Number(heavy.number),
        Piece::Text(b": "),
        Piece::Goods(&goods[..goods.len().min(SHOWN_GOODS)]),
        before_count,
        count,
        behind_count,
        Piece::Text(b"\n"),
        NOTHING,
        NOTHING,
        NOTHING,
    ]
}

/// The limit of each search, or of all together.
fn limit_pieces<'a>(limit: Limit) -> (Piece<'a>, Piece<'a>)
    ensures { text_of_piece result.0 ++ text_of_piece result.1 ≡ text_of_limit limit }
{
    match limit {
        Limit::OfEach(steps) => (Piece::Text(b"step limit of "), Piece::Number(steps)),
        Limit::OfAll(steps) => (Piece::Text(b"total step limit of "), Piece::Number(steps)),
    }
}

/// How many goods there are, if not all are reported.
fn rest_pieces<'a>(count: usize) -> (Piece<'a>, Piece<'a>, Piece<'a>)
    ensures { text_of_piece result.0 ++ text_of_piece result.1 ++ text_of_piece result.2 ≡ rest_text count }
{
    if count <= SHOWN_GOODS {
        return (NOTHING, NOTHING, NOTHING);
    }
    (
        Piece::Text(b",.. ("),
        Piece::Number(count as u64),
        Piece::Text(b" goods)"),
    )
}

fn read_pieces<'a>(prefix: &'static str, fault: &ReadFault) -> [Piece<'a>; 14]
    ensures { text_of_pieces result ≡ prefix.now ++ text_of_read_fault fault.now ++ codes "\n" }
{
    let name = kind_name(fault.kind);
    let line = Piece::Number(fault.line);
    match fault.kind {
        Kind::Memory => text_pieces(prefix, WANT_OF_MEMORY),
        Kind::TooLong | Kind::Device => text_pieces(prefix, name),
        _ => line_pieces(prefix, "line ", line, ": ", name),
    }
}

fn text_pieces<'a>(prefix: &'static str, text: &'static str) -> [Piece<'a>; 14]
    ensures { text_of_pieces result ≡ prefix.now ++ text.now ++ codes "\n" }
{
    line_pieces(prefix, text, Piece::Text(b""), "", "")
}

pub(crate) fn kind_name(kind: Kind) -> &'static str
    ensures { result.now ≡ name_of_kind kind }
{
    match kind {
        Kind::Header => "Header",
        Kind::NotANumber => "NotANumber",
        Kind::TooLarge => "TooLarge",
        Kind::ExtraBid => "ExtraBid",
        Kind::BidNumber => "BidNumber",
        Kind::RepeatedNumber => "RepeatedNumber",
        Kind::TooFine => "TooFine",
        Kind::GoodRange => "GoodRange",
        Kind::RepeatedGood => "RepeatedGood",
        Kind::TwoDummies => "TwoDummies",
        Kind::EmptyBundle => "EmptyBundle",
        Kind::NoEnd => "NoEnd",
        Kind::AfterEnd => "AfterEnd",
        Kind::Missing => "Missing",
        Kind::TooLong => "TooLong",
        Kind::Device => "Device",
        Kind::Memory => "Memory",
    }
}
