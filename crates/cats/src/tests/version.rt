//! What `--version` prints.

use crate::version::version_text;
use std::process::Abort;
use std::test::Fail;

#[test]
fn version_of_the_build(rt: HostRuntime) -> Result<(), Fail> {
    let text = version_text(rt.alloc())?;
    assert_eq!(rt; text.as_str(), "0.3.0 (logic dac8208d650f15bf, x86-64-v2)");
    Ok(())
}
