//! What `cats --version` prints after the program's name.

use command_line::help::VERSION;
use std::alloc::{AllocError, Global};

/// The logic of the toolchain that proved the program, as `rt version` prints it.
const LOGIC: &str = "dac8208d650f15bf";

/// The processor for which the program is compiled: the toolchain's default, which `rt ci` uses. The script `tools/build`
/// compiles a copy of this crate in which this constant and the one above are its own processor and logic.
const PROCESSOR: &str = "x86-64-v2";

/// The version, the logic, and the processor.
pub fn version_text(alloc: Global) -> Result<String, AllocError> {
    format!(in alloc; "{VERSION} (logic {LOGIC}, {PROCESSOR})")
}
