//! The texts of `--help`.

use crate::help::all_help;
use command_line::help::VERSION;
use command_line::request::{NoRequest, parse};
use requests::help::CommandHelp;
use std::alloc::{AllocError, Global};
use std::process::Abort;
use std::test::Fail;

/// No line of a help is longer.
const WIDTH: usize = 79;

/// What a command says of an argument: its own text, or else this one.
fn text_of<'a>(command: &CommandHelp<'a>, argument: (&str, &'a str)) -> &'a str {
    let own = command.arguments.iter().find(|own| own.0 == argument.0);
    own.map_or(argument.1, |own| own.1)
}

/// The word of an argument on a command line: two options are `--bound`.
fn word_of<'a>(argument: (&'a str, &str)) -> &'a str {
    match argument.0 {
        "always-bound" => "bound",
        name => name,
    }
}

/// Whether a help names a word of a command line.
fn names(alloc: Global, help: &str, word: &str) -> Result<bool, AllocError> {
    let option = format!(in alloc; "--{word} ")?;
    let one = format!(in alloc; "<{word}>")?;
    let any = format!(in alloc; "[{word}]")?;
    Ok(help.contains(option.as_str()) || help.contains(one.as_str()) || help.contains(any.as_str()))
}

/// Whether a help has all lines of a text.
fn has_lines(help: &str, text: &str) -> bool {
    text.split('\n').all(|line| help.contains(line))
}

/// Whether a help names the word of an argument only beside a text of it.
fn has_text(
    alloc: Global,
    help: &str,
    program: &CommandHelp<'_>,
    command: &CommandHelp<'_>,
    word: &str,
) -> Result<bool, AllocError> {
    let mut is_shown = !names(alloc, help, word)?;
    for argument in program.arguments {
        is_shown |= word_of(*argument) == word && has_lines(help, text_of(command, *argument));
    }
    Ok(is_shown)
}

/// Whether a help has short lines, and all texts of a command, of whose arguments some have those of the program.
fn has_texts(
    alloc: Global,
    help: &str,
    program: &CommandHelp<'_>,
    command: &CommandHelp<'_>,
) -> Result<bool, AllocError> {
    let Some((before, _)) = help.split_once(command.after) else {
        return Ok(false);
    };
    if !help.split('\n').all(|line| line.chars().count() <= WIDTH) {
        return Ok(false);
    }
    for argument in program.arguments {
        if !has_text(alloc, before, program, command, word_of(*argument))? {
            return Ok(false);
        }
    }
    Ok(before.contains(command.about))
}

/// Whether a line prints help with all texts of a command.
fn prints_texts(
    alloc: Global,
    help: &[CommandHelp<'_>],
    command: &CommandHelp<'_>,
    words: &[&str],
) -> Result<bool, AllocError> {
    let Some(program) = help.first() else {
        return Ok(false);
    };
    match &parse(alloc, VERSION, help, words) {
        Err(NoRequest::Help(text)) => has_texts(alloc, text.as_str(), program, command),
        _ => Ok(false),
    }
}

fn help_prints_texts(
    alloc: Global,
    help: &[CommandHelp<'_>],
    command: &CommandHelp<'_>,
) -> Result<bool, AllocError> {
    if command.name == "cats" {
        prints_texts(alloc, help, command, &["cats", "--help"])
    } else {
        prints_texts(alloc, help, command, &["cats", command.name, "--help"])
    }
}

#[test]
fn help_texts(rt: HostRuntime) -> Result<(), Fail> {
    let help = all_help(rt.alloc())?;
    for command in &help {
        let printed = help_prints_texts(rt.alloc(), help.as_slice(), command)?;
        assert!(rt; printed, "of {}", command.name);
    }
    Ok(())
}
