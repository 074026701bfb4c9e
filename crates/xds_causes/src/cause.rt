// Why a line of the server's input is no change.
ghost use Rattle.std.specs.Prelude.{◌≡◌, ◌≢◌, ◌&&◌, bytes_eq, codes, nat_le, map, string_bytes, IfOk, IfErr, is_some, true, false};
ghost use Rattle.std.specs.Option.{option_map};
ghost use Rattle.xds_resource.specs.declared.refusal.Refusal.TheVariants.{OutOfMemory};
ghost use Rattle.xds_resource.specs.Types.{type_of_word};
ghost use Rattle.xds_script.specs.Words.{split_first, words, words_in, replica_number};
ghost use Rattle.xds_script.specs.Lines.{pieces};
ghost use Rattle.xds_script.specs.Commands.{comma, groups_in};
ghost use Rattle.xds_causes.specs.Causes.{cause_text, is_verb, name_cause, deletion_cause, IsResourceCause, IsGroupsCause, IsBehindNumber, IsWordsCause, IsCauseOf};

use crate::messages::said;
use std::alloc::Global;
use std::str;
use xds_resource::{AnyResource, Groups, Refusal, TypeName, decimal_number};

/// What is wrong of a line that is no change: the first of its parts, from the left, that can't stand there.
#[derive(Clone, Copy, Debug, PartialEq, Eq)]
pub enum Cause {
    /// It is no text in UTF-8.
    NoText,
    /// Its first word is none of `put`, `putin` and `delete`.
    UnknownCommand,
    /// The word behind it is no number of a replica, from 1 to 65,535.
    NoNumber,
    /// There is no replica of the number.
    NoSuchReplica,
    /// The word is none of a type.
    UnknownType,
    /// A word is lacking, or there are too many.
    WrongWords,
    /// The resource, the groups or the name is refused so.
    Refused(Refusal),
}

impl Cause {
    /// How it is told. Refused only by `OutOfMemory`.
    pub fn text(self, alloc: Global) -> Result<String, Refusal>
        ensures told { IfOk result (λ t. string_bytes t ≡ cause_text self) }
        ensures refused { IfErr result (λ e. e ≡ OutOfMemory) }
    {
        match self {
            Cause::NoText => said(alloc, "not UTF-8"),
            Cause::UnknownCommand => said(alloc, "unknown command"),
            Cause::NoNumber => said(alloc, "no number of a replica"),
            Cause::NoSuchReplica => said(alloc, "no such replica"),
            Cause::UnknownType => said(alloc, "unknown type"),
            Cause::WrongWords => said(alloc, "wrong words"),
            Cause::Refused(refusal) => refused_text(alloc, refusal),
        }
    }
}

// The number and the name of a refusal.
fn refused_text(alloc: Global, refusal: Refusal) -> Result<String, Refusal>
    ensures told { IfOk result (λ t. string_bytes t ≡ cause_text (Cause.Refused refusal)) }
    ensures refused { IfErr result (λ e. e ≡ OutOfMemory) }
{
    let number = refusal.number();
    let name = refusal.name();
    Ok(format!(in alloc; "{number} {name}")?)
}

/// Why a line is no change. Refused only by `OutOfMemory`.
pub fn cause_of(alloc: Global, line: &[u8]) -> Result<Cause, Refusal>
    ensures cause { IfOk result (IsCauseOf line.now) }
    ensures refused { IfErr result (λ e. e ≡ OutOfMemory) }
{
    match str::from_utf8(line) {
        Ok(text) => cause_in(alloc, text),
        Err(_) => Ok(Cause::NoText),
    }
}

// The first word of a text, and the text behind the space that ends it.
fn first_word(text: &str) -> (&str, Option<&str>)
    ensures { split_first (words text.now) ≡ Some (result.0.now, words_in (option_map (λ s. s.now) result.1)) }
{
    match text.split_once(' ') {
        Some((word, rest)) => (word, Some(rest)),
        None => (text, None),
    }
}

// Whether a change may begin with this word.
pub(crate) fn is_verb(word: &str) -> bool
    ensures { result ≡ is_verb word.now }
{
    word == "put" || word == "putin" || word == "delete"
}

// Whether a word is the number of a replica.
fn is_replica_number(word: &str) -> bool
    ensures { result ≡ is_some (replica_number word.now) }
{
    match decimal_number(word) {
        Some(number) => is_within(number),
        None => false,
    }
}

// Whether a replica may have this number.
fn is_within(number: u64) -> bool
    ensures { result ≡ (nat_le 1 number && nat_le number 65535) }
{
    number >= 1 && number <= 65_535
}

// What is wrong of a text.
fn cause_in(alloc: Global, text: &str) -> Result<Cause, Refusal>
    ensures cause { IfOk result (IsWordsCause (words text.now)) }
    ensures refused { IfErr result (λ e. e ≡ OutOfMemory) }
{
    let (verb, rest) = first_word(text);
    if !is_verb(verb) {
        return Ok(Cause::UnknownCommand);
    }
    let Some(rest) = rest else {
        return Ok(Cause::WrongWords);
    };
    let (number, behind) = first_word(rest);
    if !is_replica_number(number) {
        return Ok(Cause::NoNumber);
    }
    cause_behind(alloc, verb, behind)
}

// What is wrong of what stands behind the number of the replica.
fn cause_behind(alloc: Global, verb: &str, rest: Option<&str>) -> Result<Cause, Refusal>
    requires { is_verb verb.now ≡ true }
    ensures cause { IfOk result (IsBehindNumber verb.now (words_in (option_map (λ s. s.now) rest.entry))) }
    ensures refused { IfErr result (λ e. e ≡ OutOfMemory) }
{
    if is_put(verb) {
        return resource_cause(alloc, rest);
    }
    if is_put_in(verb) {
        return groups_cause(alloc, rest);
    }
    Ok(deletion_cause(rest))
}

fn is_put(verb: &str) -> bool
    ensures { result ≡ bytes_eq verb.now (codes "put") }
{
    verb == "put"
}

fn is_put_in(verb: &str) -> bool
    ensures { result ≡ bytes_eq verb.now (codes "putin") }
{
    verb == "putin"
}

// What is wrong of a resource.
fn resource_cause(alloc: Global, rest: Option<&str>) -> Result<Cause, Refusal>
    ensures cause { IfOk result (IsResourceCause (words_in (option_map (λ s. s.now) rest.entry))) }
    ensures refused { IfErr result (λ e. e ≡ OutOfMemory) }
{
    let Some(text) = rest else {
        return Ok(Cause::WrongWords);
    };
    match AnyResource::parse(alloc, text) {
        Ok(_resource) => Ok(Cause::WrongWords),
        Err(refusal) => refused_cause(refusal),
    }
}

// The cause that a refusal is, or that there was no memory to find one.
fn refused_cause(refusal: Refusal) -> Result<Cause, Refusal>
    ensures cause { IfOk result (λ c. (refusal ≢ OutOfMemory) × (c ≡ Cause.Refused refusal)) }
    ensures refused { IfErr result (λ e. e ≡ OutOfMemory) }
{
    if refusal == Refusal::OutOfMemory {
        Err(refusal)
    } else {
        Ok(Cause::Refused(refusal))
    }
}

// What is wrong of groups and of the resource behind them.
fn groups_cause(alloc: Global, rest: Option<&str>) -> Result<Cause, Refusal>
    ensures cause { IfOk result (IsGroupsCause (words_in (option_map (λ s. s.now) rest.entry))) }
    ensures refused { IfErr result (λ e. e ≡ OutOfMemory) }
{
    let Some(rest) = rest else {
        return Ok(Cause::WrongWords);
    };
    let (groups, behind) = first_word(rest);
    let are = are_groups(alloc, groups)?;
    if are {
        resource_cause(alloc, behind)
    } else {
        Ok(Cause::Refused(Refusal::BadGroup))
    }
}

// Whether a word lists groups.
fn are_groups(alloc: Global, word: &str) -> Result<bool, Refusal>
    ensures are { IfOk result (λ b. b ≡ is_some (groups_in word.now)) }
    ensures refused { IfErr result (λ e. e ≡ OutOfMemory) }
{
    let texts = pieces_of(alloc, word)?;
    match Groups::new(alloc, texts.as_slice()) {
        Ok(_groups) => Ok(true),
        Err(refusal) => are_none(refusal),
    }
}

// That a refusal says of a word that it lists no groups, or that there was no memory to find that.
fn are_none(refusal: Refusal) -> Result<bool, Refusal>
    ensures are { IfOk result (λ b. (refusal ≢ OutOfMemory) × (b ≡ false)) }
    ensures refused { IfErr result (λ e. e ≡ OutOfMemory) }
{
    if refusal == Refusal::OutOfMemory {
        Err(refusal)
    } else {
        Ok(false)
    }
}

// What stands between the commas of a word.
fn pieces_of(alloc: Global, word: &str) -> Result<Vec<String>, Refusal>
    ensures pieces { IfOk result (λ v. map string_bytes v.items ≡ pieces comma word.now) }
    ensures refused { IfErr result (λ e. e ≡ OutOfMemory) }
{
    let mut texts = Vec::new(alloc);
    for text in word.split(',') {
        texts.push(String::from_str(alloc, text)?)?;
    }
    Ok(texts)
}

// What is wrong of a type and a name.
fn deletion_cause(rest: Option<&str>) -> Cause
    ensures { result ≡ deletion_cause (words_in (option_map (λ s. s.now) rest.entry)) }
{
    let Some(rest) = rest else {
        return Cause::WrongWords;
    };
    let (kind, behind) = first_word(rest);
    if is_type(kind) {
        name_cause(behind)
    } else {
        Cause::UnknownType
    }
}

// Whether a word is that of a type.
fn is_type(word: &str) -> bool
    ensures { result ≡ is_some (type_of_word word.now) }
{
    TypeName::from_word(word).is_some()
}

// What is wrong of a name.
fn name_cause(rest: Option<&str>) -> Cause
    ensures { result ≡ name_cause (words_in (option_map (λ s. s.now) rest.entry)) }
{
    let Some(name) = rest else {
        return Cause::WrongWords;
    };
    if name.is_empty() {
        Cause::Refused(Refusal::BadName)
    } else {
        Cause::WrongWords
    }
}
