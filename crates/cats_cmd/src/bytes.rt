//! All bytes of a stream.

ghost use Rattle.std.specs.Prelude.{◌≡◌, false};
ghost use Rattle.cats_text.specs.Streams.{has_ended, has_failed};
ghost use Rattle.cats_cmd.specs.Inputs.{ReadsBytes};

use cats_text::{Kind, MAX_STREAM, ReadFault, Watched};
use std::alloc::Global;
use std::io::Read;

/// How many bytes are read at once.
pub(crate) const PIECE: usize = 16_384;

/// Reads a stream to its end. No more than `MAX_STREAM` bytes are kept.
pub(crate) fn read_bytes<R: Read>(
    alloc: Global,
    input: &mut Watched<R>,
) -> Result<Vec<u8>, ReadFault>
    requires works { has_failed input.old ≡ false }
    requires fresh { has_ended input.old ≡ false }
    ensures { ReadsBytes R.remaining input.old input.new result }
{
    let mut text = Vec::new(alloc);
    let mut piece = [0; PIECE];
    loop {
        match input.read(&mut piece) {
            Ok(0) => return Ok(text),
            Ok(count) => {
                if count as u64 > MAX_STREAM - text.len() as u64 {
                    return Err(ReadFault::whole(Kind::TooLong));
                }
                if text.extend_from_slice(&piece[..count]).is_err() {
                    return Err(ReadFault::whole(Kind::Memory));
                }
            }
            Err(_) => return Err(ReadFault::whole(Kind::Device)),
        }
    }
}
