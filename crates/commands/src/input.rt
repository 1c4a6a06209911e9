//! Where a command reads a bid file from.

ghost use Rattle.std.specs.Prelude.{◌≡◌, IfErr, false};
ghost use Rattle.cats_text.specs.Streams.{has_ended, has_failed};
ghost use Rattle.cats_text.specs.declared.read_fault.Kind.TheVariants.{Memory};
ghost use Rattle.commands.specs.Inputs.{ChecksAs, ReadsAs, StreamGives, StreamRefuses};

use bid_file::PackedFile;
use cats_text::packed::{Header, check_from, read_packed_from};
use cats_text::{ReadFault, Watched};
use std::alloc::Global;
use std::io::Read;

/// What gives a bid file, as a stream does. It says which file it gives, and why it gives none, by what it is before it is
/// read and after. What it refuses for want of memory is on no line.
pub trait Input {
    ghost use Rattle.bid_file.specs.Files.{PlainFile};
    ghost use Rattle.cats_text.specs.declared.read_fault.ReadFault.{ReadFault};

    ghost is_ready: { Self → Type 0 };

    ghost gives: { Self → Self → PlainFile → Type 0 };

    ghost refuses: { Self → Self → ReadFault → Type 0 };

    /// Reads the file.
    fn read_file(&mut self, alloc: Global) -> Result<PackedFile, ReadFault>
        requires { Self.is_ready self.old }
        ensures answer { ReadsAs Self.gives Self.refuses self.old self.new result }
        ensures memory { IfErr result (λ fault. fault.kind ≡ Memory → fault.line ≡ 0) };

    /// Judges the file, and answers what its header lines say. No bid is kept.
    fn read_sizes(&mut self, alloc: Global) -> Result<Header, ReadFault>
        requires { Self.is_ready self.old }
        ensures answer { ChecksAs Self.gives Self.refuses self.old self.new result }
        ensures memory { IfErr result (λ fault. fault.kind ≡ Memory → fault.line ≡ 0) };
}

impl<R: Read> Input for Watched<R> {
    ghost is_ready = { λ input. (has_failed input ≡ false) × (has_ended input ≡ false) };

    ghost gives = { StreamGives R.remaining };

    ghost refuses = { StreamRefuses R.remaining };

    fn read_file(&mut self, alloc: Global) -> Result<PackedFile, ReadFault> {
        read_packed_from(alloc, self)
    }

    fn read_sizes(&mut self, alloc: Global) -> Result<Header, ReadFault> {
        check_from(alloc, self)
    }
}
