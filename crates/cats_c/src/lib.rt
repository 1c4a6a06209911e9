//! The C library: one call, which runs the program on texts in memory. It puts what the program prints into its caller's
//! buffers, and keeps nothing.
#![tactic(auto)]

ghost use Rattle.std.specs.Prelude.{◌≡◌};

pub mod call;
pub mod laws;
#[cfg(test)]
mod tests;
pub mod worked;

/// 10000 * major + 100 * minor + patch: `CATS_VERSION_NUMBER` of the cats.h of this library.
const VERSION: u32 = 300;

/// The version of the library.
#[unsafe(no_mangle)]
pub extern "C" fn cats_version() -> u32
    ensures { result ≡ 300 }
{
    VERSION
}
