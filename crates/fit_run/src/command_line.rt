//! The command line of `fit`: a command, and at most one FILE.
ghost use Rattle.std.specs.Prelude.{◌≡◌, ◌≢◌, [], IfErr, IfNone, IfOk, IfSome, OnOk, map, option_map, string_bytes};
ghost use Rattle.clap.specs.Words.{app_of, fault_of, kind_of};
ghost use Rattle.fit_run.specs.CommandLine.{GivesPlainLines, IsPlainLine, IsRefusedFor, Names, command_word, fit_app, line_fault};
ghost use Rattle.fit_run.specs.declared.command_line.Command.{Command};

use clap::error::ErrorKind;
use clap::{Arg, Command as ClapCommand, Error};
use std::alloc::{AllocError, Global};

/// What the program does.
#[derive(Clone, Copy, PartialEq, Eq, Debug)]
pub enum Command {
    /// Checks a file, or a chain of files.
    Check,
    /// Shows what it says.
    Show,
    /// Converts it to CSV text.
    ToCsv,
    /// Converts CSV text to files.
    FromCsv,
    /// Makes a table of its record messages.
    Table,
}

/// A command line.
#[derive(Debug, Drop)]
pub struct Line {
    /// What is to be done.
    pub command: Command,
    /// The FILE, where one is named.
    pub path: Option<String>,
}

/// Why a command line is refused.
#[derive(Clone, Copy, PartialEq, Eq, Debug)]
pub enum LineFault {
    /// The words are no command with at most one FILE.
    Usage,
    /// The words ask for help.
    Help,
    /// The memory for the words was refused.
    NoMemory,
}

/// The command that a word names.
fn command_of(word: &str) -> Option<Command>
    ensures some { IfSome result (λ c. word.now ≡ command_word c) }
    ensures none { IfNone result ((c : Command) → word.now ≢ command_word c) }
{
    match word {
        "check" => Some(Command::Check),
        "show" => Some(Command::Show),
        "to-csv" => Some(Command::ToCsv),
        "from-csv" => Some(Command::FromCsv),
        "table" => Some(Command::Table),
        _ => None,
    }
}

/// What clap knows of the command line: a command, which has to stand, and a FILE, which may.
fn fit_command<'a>(alloc: Global) -> Result<ClapCommand<'a>, AllocError>
    ensures { IfOk result (λ c. app_of c ≡ fit_app) }
{
    let command = Arg::new(alloc, "command").required(true);
    let file = Arg::new(alloc, "file");
    ClapCommand::new(alloc, "fit").arg(command)?.arg(file)
}

/// The fault that an error of clap stands for.
fn fault_of(error: Error) -> LineFault
    ensures { result ≡ line_fault (kind_of error) }
{
    match error.kind() {
        ErrorKind::OutOfMemory => LineFault::NoMemory,
        ErrorKind::DisplayHelp => LineFault::Help,
        _ => LineFault::Usage,
    }
}

/// Reads the command line. The first word is the program's name.
///
/// A command word with at most one FILE, which isn't empty and doesn't begin with `-`, is refused
/// for memory alone, and gives that command and that FILE. Only words that clap takes are taken.
/// Which of `Usage` and `Help` other words get is clap's own answer: `--help` anywhere is `Help`.
/// Words that clap takes, and that name no command, get `Usage`.
pub fn parse_line(alloc: Global, words: &[String]) -> Result<Line, LineFault>
    ensures names { IfOk result (λ line.
        Names (map string_bytes words.now) line.command (option_map string_bytes line.path)) }
    ensures taken { OnOk result (fault_of fit_app (map string_bytes words.now) ≡ []) }
    ensures plain { IfOk result (λ line.
        GivesPlainLines (map string_bytes words.now) line.command
        (option_map string_bytes line.path)) }
    ensures memory { IfErr result (λ fault. (command : Command) →
        IsPlainLine command (map string_bytes words.now) → fault ≡ LineFault.NoMemory) }
    ensures refused { IfErr result (λ fault. IsRefusedFor (map string_bytes words.now) fault) }
{
    let Ok(clap) = fit_command(alloc) else {
        return Err(LineFault::NoMemory);
    };
    let matches = match clap.try_get_matches_from(words) {
        Ok(matches) => matches,
        Err(error) => return Err(fault_of(error)),
    };
    let Some(word) = matches.get_str("command") else {
        return Err(LineFault::Usage);
    };
    let Some(command) = command_of(word) else {
        return Err(LineFault::Usage);
    };
    let path = match matches.get_str("file") {
        None => None,
        Some(file) => match String::from_str(alloc, file) {
            Ok(path) => Some(path),
            Err(_) => return Err(LineFault::NoMemory),
        },
    };
    Ok(Line { command, path })
}
