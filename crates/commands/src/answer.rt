//! What a command answers.

ghost use Rattle.std.specs.Prelude.{◌≡◌};

use crate::statuses::DONE;
use bid_file::PackedFile;

/// What is to be printed.
#[derive(Drop)]
pub enum Output {
    Text(Vec<u8>),
    /// The text of this file, as `cats_text::write` has it. It is made when it is printed, so that it need not be in memory.
    File(PackedFile),
}

/// A status, and what is to be printed with it.
#[derive(Drop)]
pub struct Answer {
    pub status: u8,
    pub output: Output,
}

/// What a command prints that did what it was asked for.
pub(crate) fn done(output: Output) -> Answer
    ensures { result ≡ record { status = 0; output = output } }
{
    Answer {
        status: DONE,
        output,
    }
}
