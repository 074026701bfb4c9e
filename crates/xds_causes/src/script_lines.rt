// Why a line of a script is bad.
ghost use Rattle.std.specs.Prelude.{◌≡◌, ◌++◌, ◌==◌, if◌then◌else◌, length, IfOk, IfErr, codes, string_bytes};
ghost use Rattle.std.specs.Option.{option_map};
ghost use Rattle.xds_resource.specs.declared.refusal.Refusal.TheVariants.{OutOfMemory};
ghost use Rattle.xds_causes.specs.Causes.{IsCauseOf, cause_text};
ghost use Rattle.xds_causes.specs.Told.{quoted};
ghost use Rattle.xds_causes.specs.ToldLines.{IsScriptTextTold, IsScriptTold, change_text, from_brace, misspelt, misspelt_by, unchanged_text};

use crate::cause::{Cause, cause_of, is_verb};
use crate::fields::text_at;
use crate::messages::{said, unknown_type};
use crate::trace_lines::parted;
use serde_json::Value;
use std::alloc::Global;
use std::str;
use xds_resource::Refusal;
use xds_script::command::CommandVerb;

/// What is wrong of a line of a script that is bad, its line feed aside, in words. Refused only by `OutOfMemory`.
pub fn script_cause(alloc: Global, line: &[u8]) -> Result<String, Refusal>
    ensures told { IfOk result (λ t. IsScriptTold line.now (string_bytes t)) }
    ensures refused { IfErr result (λ e. e ≡ OutOfMemory) }
{
    match str::from_utf8(line) {
        Ok(text) => text_cause(alloc, text),
        Err(_) => said(alloc, "not UTF-8"),
    }
}

// What is wrong of a text.
fn text_cause(alloc: Global, text: &str) -> Result<String, Refusal>
    ensures told { IfOk result (λ t. IsScriptTextTold text.now (string_bytes t)) }
    ensures refused { IfErr result (λ e. e ≡ OutOfMemory) }
{
    let (word, _) = parted(text);
    if is_verb(word) {
        change_cause(alloc, text)
    } else {
        unchanged_cause(alloc, word)
    }
}

// What is told of a line that is no change.
fn unchanged_cause(alloc: Global, word: &str) -> Result<String, Refusal>
    ensures told { IfOk result (λ t. string_bytes t ≡ unchanged_text word.now) }
    ensures refused { IfErr result (λ e. e ≡ OutOfMemory) }
{
    match CommandVerb::from_word(word) {
        Some(_) => wrong_words(alloc, word),
        None => unknown_verb(alloc, word),
    }
}

// What is told of a word that no line begins with.
fn unknown_verb(alloc: Global, word: &str) -> Result<String, Refusal>
    ensures told { IfOk result (λ t. string_bytes t ≡ quoted word.now ++ codes " is no command of a script") }
    ensures refused { IfErr result (λ e. e ≡ OutOfMemory) }
{
    Ok(format!(in alloc; "\"{word}\" is no command of a script")?)
}

// What is told of a command whose words are wrong.
fn wrong_words(alloc: Global, word: &str) -> Result<String, Refusal>
    ensures told { IfOk result (λ t. string_bytes t ≡ codes "wrong words behind " ++ quoted word.now) }
    ensures refused { IfErr result (λ e. e ≡ OutOfMemory) }
{
    Ok(format!(in alloc; "wrong words behind \"{word}\"")?)
}

// What is wrong of a change.
fn change_cause(alloc: Global, text: &str) -> Result<String, Refusal>
    ensures told { IfOk result (λ t. (c : Cause) × IsCauseOf text.now c × (string_bytes t ≡ change_text text.now c)) }
    ensures refused { IfErr result (λ e. e ≡ OutOfMemory) }
{
    match cause_of(alloc, text.as_bytes()) {
        Ok(cause) => told_of_change(alloc, text, cause),
        Err(refusal) => Err(refusal),
    }
}

// What is told of a change, by its cause.
fn told_of_change(alloc: Global, text: &str, cause: Cause) -> Result<String, Refusal>
    ensures told { IfOk result (λ t. string_bytes t ≡ change_text text.now cause) }
    ensures refused { IfErr result (λ e. e ≡ OutOfMemory) }
{
    match cause {
        Cause::Refused(refusal) => refused_cause(alloc, text, refusal),
        Cause::NoText => Cause::NoText.text(alloc),
        Cause::UnknownCommand => Cause::UnknownCommand.text(alloc),
        Cause::NoNumber => Cause::NoNumber.text(alloc),
        Cause::NoSuchReplica => Cause::NoSuchReplica.text(alloc),
        Cause::UnknownType => Cause::UnknownType.text(alloc),
        Cause::WrongWords => Cause::WrongWords.text(alloc),
    }
}

// What is told of a change whose resource, groups or name is refused.
fn refused_cause(alloc: Global, text: &str, refusal: Refusal) -> Result<String, Refusal>
    ensures told { IfOk result (λ t. string_bytes t ≡ change_text text.now (Cause.Refused refusal)) }
    ensures refused { IfErr result (λ e. e ≡ OutOfMemory) }
{
    match misspelt(alloc, text) {
        Ok(cause) => or_refusal(alloc, cause, refusal),
        Err(refusal) => Err(refusal),
    }
}

// A text, or the refusal where it is empty.
fn or_refusal(alloc: Global, cause: String, refusal: Refusal) -> Result<String, Refusal>
    ensures told { IfOk result (λ t. string_bytes t
        ≡ (if length (string_bytes cause) == 0 then cause_text (Cause.Refused refusal) else string_bytes cause)) }
    ensures refused { IfErr result (λ e. e ≡ OutOfMemory) }
{
    if cause.is_empty() {
        Cause::Refused(refusal).text(alloc)
    } else {
        Ok(cause)
    }
}

// What is told of a resource whose type is unknown, nothing of any other.
fn misspelt(alloc: Global, text: &str) -> Result<String, Refusal>
    ensures told { IfOk result (λ t. string_bytes t ≡ misspelt text.now) }
    ensures refused { IfErr result (λ e. e ≡ OutOfMemory) }
{
    match Value::from_str(alloc, from_brace(text)) {
        Ok(value) => misspelt_by(alloc, text_at(&value, "@type")),
        Err(error) => {
            if error.is_memory() {
                return Err(Refusal::OutOfMemory);
            }
            Ok(String::new(alloc))
        }
    }
}

// A text from its first opening brace on.
fn from_brace(text: &str) -> &str
    ensures { result.now ≡ from_brace text.now }
{
    match text.find('{') {
        Some(start) => &text[start..],
        None => "",
    }
}

// What is told of a resource by its type.
fn misspelt_by(alloc: Global, url: Option<&str>) -> Result<String, Refusal>
    ensures told { IfOk result (λ t. string_bytes t ≡ misspelt_by (option_map (λ s. s.now) url.entry)) }
    ensures refused { IfErr result (λ e. e ≡ OutOfMemory) }
{
    match url {
        Some(url) => unknown_type(alloc, url),
        None => said(alloc, "there is no \"@type\": the type of the resource"),
    }
}
