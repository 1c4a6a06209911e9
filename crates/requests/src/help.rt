//! What `--help` prints of a command beside what `clap` makes of its arguments.

/// The help of the program, or of a command.
#[derive(Clone, Copy)]
pub struct CommandHelp<'a> {
    /// The program's name, or the command's.
    pub name: &'a str,
    /// What it is for, in a line.
    pub about: &'a str,
    /// The texts of arguments, each behind the argument's name. Those of the program are of each command that has no
    /// other.
    pub arguments: &'a [(&'a str, &'a str)],
    /// What comes after its arguments.
    pub after: &'a str,
}

/// What the option says of a subcommand that always uses the bounded search.
pub const TOTAL_STEPS: &str = "\
The most steps of all searches together, from 1 to
1000000000000";

/// What is said of the paths of many files.
pub const FILES: &str = "\
The paths of bid files, and of folders for all files
below them";
