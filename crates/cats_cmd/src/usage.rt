//! What is printed of a wrong command line. `clap` makes the text of the line's words, which may be names that a
//! stranger gave to files.

ghost use Rattle.std.specs.Prelude.{◌≡◌};
ghost use Rattle.cats_cmd.specs.Internal.Carrying.{IsButForText};
ghost use Rattle.cats_cmd.specs.Requests.{misuse_text};

use crate::escaping::escaped;
use command_line::request::{Misuse, NoRequest, parse};
use std::alloc::{AllocError, Global};

/// What is answered in place of this answer to words that are no request: the same, but what `clap` prints of them is
/// that of the words as they are escaped in paths.
pub(crate) fn with_escaped_words(
    alloc: Global,
    version: &str,
    words: &[&str],
    no_request: NoRequest,
) -> NoRequest
    ensures { IsButForText no_request result }
{
    match no_request {
        NoRequest::WrongUsage(_) => match escaped_usage(alloc, version, words) {
            Ok(text) => NoRequest::WrongUsage(text),
            Err(AllocError) => NoRequest::WrongUsage(String::new(alloc)),
        },
        other => other,
    }
}

/// What `clap` prints of these words if each is escaped as a path.
fn escaped_usage(alloc: Global, version: &str, words: &[&str]) -> Result<String, AllocError> {
    let mut shown = Vec::new(alloc);
    for word in words {
        shown.push(escaped_word(alloc, word)?)?;
    }
    let words: Vec<&str> = shown.iter().map(|word| word.as_str()).collect(alloc)?;
    // no text of the help is in what `clap` prints of a wrong line
    match parse(alloc, version, &[], words.as_slice()) {
        Err(NoRequest::WrongUsage(text)) => Ok(text),
        // `clap` accepts no more words when they are escaped
        _ => Ok(String::new(alloc)),
    }
}

fn escaped_word(alloc: Global, word: &str) -> Result<String, AllocError> {
    String::from_utf8_lossy(alloc, escaped(alloc, word.as_bytes())?.as_slice())
}

/// Why a line is wrong whose words its subcommand takes.
pub(crate) fn misuse_text(misuse: Misuse) -> &'static str
    ensures { result.now ≡ misuse_text misuse }
{
    match misuse {
        Misuse::SignedNumber => {
            "error: a number has digits alone, and no sign\n\nFor more information, try '--help'.\n"
        }
        Misuse::MoreThanOneFile => {
            "error: this command takes one file; 'cats fault', 'cats duplicates', 'cats sizes' and 'cats publish' take several\n\nFor more information, try '--help'.\n"
        }
        Misuse::MoreThanTwoFiles => {
            "error: this command takes two files; 'cats fault', 'cats duplicates', 'cats sizes' and 'cats publish' take several\n\nFor more information, try '--help'.\n"
        }
        Misuse::BidsTwice => {
            "error: give bids, or '--bids <LIST>', and not both\n\nFor more information, try '--help'.\n"
        }
        Misuse::UnboundedTotal => {
            "error: '--total-steps <N>' needs '--bound'\n\nFor more information, try '--help'.\n"
        }
        Misuse::WrongTimes => {
            "error: '--times <N>' is a power of ten, from 1 to 1000000000000\n\nFor more information, try '--help'.\n"
        }
        Misuse::WrongGoods => {
            "error: goods are numbers up to 4095 and ranges, as in '0,2-5'\n\nFor more information, try '--help'.\n"
        }
        Misuse::WrongBids => {
            "error: bids are numbers up to 65535 and ranges, as in '0,2-5'\n\nFor more information, try '--help'.\n"
        }
        Misuse::NoFiles => {
            "error: give paths, or '--files0-from <LIST>'\n\nFor more information, try '--help'.\n"
        }
        Misuse::FilesTwice => {
            "error: give paths or '--files0-from <LIST>', and not both\n\nFor more information, try '--help'.\n"
        }
    }
}
