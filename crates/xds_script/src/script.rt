// A script: its lines, read before anything happens.
ghost use Rattle.std.specs.Prelude.{◌≡◌, ◌≢◌, ◌++◌, IfOk, IfErr, OnOk, map, true, false, Option};
ghost use Rattle.std.specs.Option.{option_map, ok_or};
ghost use Rattle.xds_resource.specs.declared.refusal.Refusal.TheVariants.{BadScript, OutOfMemory};
ghost use Rattle.xds_resource.specs.Refusals.{Gives};
ghost use Rattle.xds_script.specs.Words.{words};
ghost use Rattle.xds_script.specs.Commands.{said_of, says, says_words};
ghost use Rattle.xds_script.specs.Scripts.{is_skipped, text_says, line_says, is_bad, said_in, IsScript, IsRefusedAt};

use crate::command::{Command, CommandVerb};
use crate::lines::{split_line, without_last_feed};
use crate::words::Words;
use crate::{plain, texts};
use std::alloc::Global;
use xds_resource::Refusal;

/// Which line of a script is refused, and why.
#[derive(Clone, Copy, Debug, PartialEq, Eq)]
pub struct ScriptFault {
    /// The number of the line, from 1.
    pub line: usize,
    pub refusal: Refusal,
}

/// Reads a script, a command a line. Its first bad line is told, as `BadScript`; `OutOfMemory` comes with the line that was
/// at work.
pub fn read_script(alloc: Global, script: &[u8]) -> Result<Vec<Command>, ScriptFault>
    ensures read { IfOk result (λ commands. IsScript script.now (map said_of commands.items)) }
    ensures refused { IfErr result (λ fault. IsRefusedAt script.now fault.line fault.refusal) }
{
    let mut commands = Vec::new(alloc);
    let mut rest = without_last_feed(script);
    let mut line = 1usize;
    while let Some((bytes, following)) = split_line(rest) {
        if let Err(refusal) = take_line(alloc, &mut commands, bytes) {
            return Err(ScriptFault { line, refusal });
        }
        rest = following;
        line += 1;
    }
    match take_line(alloc, &mut commands, rest) {
        Ok(()) => Ok(commands),
        Err(refusal) => Err(ScriptFault { line, refusal }),
    }
}

// Adds what the line says, if anything.
fn take_line(alloc: Global, commands: &mut Vec<Command>, line: &[u8]) -> Result<(), Refusal>
    ensures good { OnOk result (is_bad line.now ≡ false) }
    ensures said { OnOk result (map said_of commands.new.items ≡ map said_of commands.old.items ++ said_in line.now) }
    ensures refused { IfErr result (λ e. e ≢ OutOfMemory → (e ≡ BadScript) × (is_bad line.now ≡ true)) }
{
    match read_line(alloc, line)? {
        Some(command) => commands.push(command)?,
        None => {}
    }
    Ok(())
}

/// What one line says, if anything: none where it is skipped. A bad line is `BadScript`.
pub fn read_line(alloc: Global, line: &[u8]) -> Result<Option<Command>, Refusal>
    ensures { Gives (option_map said_of) result (ok_or (line_says line.now) BadScript) }
{
    if is_skipped(line) {
        return Ok(None);
    }
    Ok(Some(read_text(alloc, line)?))
}

// What a line says that isn't skipped.
fn read_text(alloc: Global, line: &[u8]) -> Result<Command, Refusal>
    ensures { Gives said_of result (ok_or (text_says line.now) BadScript) }
{
    match str::from_utf8(line) {
        Ok(text) => read_words(alloc, Words::of(text)),
        Err(_) => Err(Refusal::BadScript),
    }
}

fn is_skipped(line: &[u8]) -> bool
    ensures { result ≡ is_skipped line.now }
{
    match line {
        [] => true,
        [first, ..] => *first == b'#',
    }
}

// What the words of a line say.
fn read_words(alloc: Global, words: Words) -> Result<Command, Refusal>
    ensures { Gives said_of result (ok_or (says_words words.entry) BadScript) }
{
    let (verb, rest) = words.split_first().ok_or(Refusal::BadScript)?;
    let verb = CommandVerb::from_word(verb).ok_or(Refusal::BadScript)?;
    read_command(alloc, verb, rest)
}

// What the verb says with the words behind it.
fn read_command(alloc: Global, verb: CommandVerb, words: Words) -> Result<Command, Refusal>
    ensures { Gives said_of result (ok_or (says verb words.entry) BadScript) }
{
    match verb {
        CommandVerb::Replica => plain::add_replica(words).ok_or(Refusal::BadScript),
        CommandVerb::Client => texts::add_client(alloc, words),
        CommandVerb::Put => texts::put(alloc, words),
        CommandVerb::PutIn => texts::put_in(alloc, words),
        CommandVerb::Delete => texts::delete(alloc, words),
        CommandVerb::Snapshot => plain::snapshot(words).ok_or(Refusal::BadScript),
        CommandVerb::Merge => plain::merge(words).ok_or(Refusal::BadScript),
        CommandVerb::Connect => plain::connect(words).ok_or(Refusal::BadScript),
        CommandVerb::Names => texts::names(alloc, words),
        CommandVerb::Change => texts::change(alloc, words),
        CommandVerb::Up => plain::up(words).ok_or(Refusal::BadScript),
        CommandVerb::Down => plain::down(words).ok_or(Refusal::BadScript),
        CommandVerb::Lose => plain::lose(words).ok_or(Refusal::BadScript),
        CommandVerb::Poll => plain::poll(words).ok_or(Refusal::BadScript),
        CommandVerb::Rest => plain::rest(words).ok_or(Refusal::BadScript),
        CommandVerb::RestLost => plain::rest_lost(words).ok_or(Refusal::BadScript),
        CommandVerb::Settle => plain::settle(words).ok_or(Refusal::BadScript),
        CommandVerb::View => plain::view(words).ok_or(Refusal::BadScript),
        CommandVerb::Content => plain::content(words).ok_or(Refusal::BadScript),
    }
}
