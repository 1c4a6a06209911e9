//! Why there is no canonical file, as a line. The module also has what tests expect of such lines.

use canon::CanonFault;
use std::alloc::Global;
use std::process::Abort;
use std::test::Fail;

pub fn refusal_text(alloc: Global, fault: CanonFault) -> Result<String, Fail> {
    match fault {
        CanonFault::Read(fault) => Ok(format!(in alloc; "{fault}")?),
        CanonFault::StepLimit { goods } => Ok(format!(in alloc; "steps {goods:?}")?),
        CanonFault::Memory => Ok(String::from_str(alloc, "memory")?),
    }
}

/// This is the line.
pub fn expect_line(rt: &impl Abort, line: &str, expected: &str) {
    assert_eq!(rt; line, expected);
}
