// The words of a command line.
ghost use Rattle.std.specs.Prelude.{◌≡◌, ◌⊎◌, IfOk, IfErr, map, string_bytes};
ghost use Rattle.clap.specs.Words.{kind_of, subcommand_rows_of};
ghost use Rattle.xds_program.specs.CommandLine.{IsCommand, command_line};
ghost use Rattle.xds_program.specs.Words.{Asks, IsToldOf, IsWrongBy};
ghost use Rattle.xds_program.specs.WrongValues.{FindsOrBlames};

use crate::command_line::command_line;
use crate::option_values::task_in;
use crate::tasks::Task;
use crate::wrong_values::{WrongValue, wrong_value};
use clap::error::ErrorKind;
use clap::{ArgMatches, Command, Error};
use std::alloc::{AllocError, Global};

/// Reads the words, of which the first is the program's name. An error holds the text to show, which may also be the
/// help that was asked for.
pub fn task_of(alloc: Global, words: &[String]) -> Result<Task, Error>
    ensures asked { IfOk result (Asks (map string_bytes words.now)) }
    ensures right { IfErr result (λ e. (task : Task) → Asks (map string_bytes words.now) task → kind_of e ≡ ErrorKind.OutOfMemory) }
    ensures wrong { IfErr result (λ e. IsWrongBy (map string_bytes words.now) (kind_of e)) }
{
    let mut command = command_line(alloc)?;
    task_by(alloc, &mut command, words)
}

// Reads the words by the command line.
fn task_by<'a>(alloc: Global, command: &mut Command<'a>, words: &'a [String]) -> Result<Task, Error>
    requires { IsCommand command_line command.old }
    ensures asked { IfOk result (Asks (map string_bytes words.entry.now)) }
    ensures told { IfErr result (λ e. IsToldOf (map string_bytes words.entry.now) (kind_of e)) }
{
    let matches = command.try_get_matches_from_mut(words)?;
    match task_found(alloc, matches)? {
        Ok(task) => Ok(task),
        Err(wrong) => Err(bad_value(command, wrong)),
    }
}

// The task that the matches ask for, or which value is wrong.
fn task_found(alloc: Global, matches: ArgMatches) -> Result<Result<Task, WrongValue>, AllocError>
    ensures { IfOk result (FindsOrBlames (subcommand_rows_of matches.entry)) }
{
    let found = found_in(alloc, &matches);
    drop(matches);
    found
}

fn found_in(alloc: Global, matches: &ArgMatches) -> Result<Result<Task, WrongValue>, AllocError>
    ensures { IfOk result (FindsOrBlames (subcommand_rows_of matches.now)) }
{
    match task_in(alloc, matches)? {
        Some(task) => Ok(Ok(task)),
        None => Ok(Err(wrong_value(matches))),
    }
}

// The error of a value that is none of those that it may be.
fn bad_value(command: &mut Command, wrong: WrongValue) -> Error
    ensures { (kind_of result ≡ ErrorKind.OutOfMemory) ⊎ (kind_of result ≡ ErrorKind.ValueValidation) }
{
    match command.error(ErrorKind::ValueValidation, wrong.text()) {
        Ok(error) => error,
        Err(error) => Error::from(error),
    }
}
