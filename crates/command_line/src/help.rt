//! The version, and what `--help` prints of a command beside what `clap` makes of its arguments. The texts themselves come
//! from the caller.

use requests::help::CommandHelp;

/// The version of the program.
pub const VERSION: &str = "0.3.0";

/// The help of a command among these, if it is there. Else its texts are empty.
pub(crate) fn find_help<'a>(help: &[CommandHelp<'a>], name: &str) -> Option<CommandHelp<'a>> {
    help.iter().find(|command| command.name == name).copied()
}

/// The text of an argument of a command: its own, or else the program's. It is empty if neither is there.
pub(crate) fn argument_text<'a>(help: &[CommandHelp<'a>], command: &str, name: &str) -> &'a str {
    let own = own_text(help, command, name);
    own.or(own_text(help, "cats", name)).unwrap_or("")
}

fn own_text<'a>(help: &[CommandHelp<'a>], command: &str, name: &str) -> Option<&'a str> {
    let texts = find_help(help, command)?.arguments;
    let found = texts.iter().find(|argument| argument.0 == name)?;
    Some(found.1)
}
