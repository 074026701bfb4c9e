// Cases as texts: what is given, ` => `, and the outcome that is wanted.
ghost use Rattle.std.specs.Prelude.{◌≡◌, ◌<◌, length, All, IfOk, IfErr, OnOk, map, string_bytes, Ok, ok_or, codes};
ghost use Rattle.std.specs.Option.{option_map};
ghost use Rattle.std.specs.Result.{result_ok};
ghost use Rattle.std.specs.Str.Lines.{lines};
ghost use Rattle.xds_resource.specs.declared.refusal.Refusal.TheVariants.{OutOfMemory, BadScript};
ghost use Rattle.xds_resource.specs.Refusals.{Gives};
ghost use Rattle.xds_cases.specs.Texts.{around, pieces, replaced, AreWords};
ghost use Rattle.xds_cases.specs.Cases.{unfolded, with_urls, number_in, repetition, repeat_of, repeated, written_out, IsWritten, IsRefusal, Holds, told_by};

use std::alloc::Global;
use std::test::Fail;
use xds_resource::{Refusal, TypeName};

/// What a call makes of the text that is given, as a text.
pub trait Outcome {
    ghost use Rattle.std.specs.Prelude.{⊤, List, ℕ, IfOk, string_bytes};

    // Holds of a text that is given, and one that the call may make of it.
    ghost may_make: { List ℕ → List ℕ → Type 0 } = { λ _ _. ⊤ };

    fn of(alloc: Global, given: &str) -> Result<String, Fail>
        ensures { IfOk result (λ made. may_make given.now (string_bytes made)) };
}

/// Compares each case's outcome with the one that is wanted, a case a line. A line that begins with
/// four spaces goes on with the line before it. In a case `CDS`, `EDS`, `LDS`, `RDS` and `SDS`
/// stand for the URLs of the types, and `<[*3>` stands for `[[[`.
pub fn hold<O: Outcome, R: AllocGlobal>(rt: &R, cases: &str) -> Result<(), Fail>
    ensures { OnOk result (All (Holds O.may_make) (lines (unfolded cases.now))) }
{
    let whole = unfolded(rt.alloc(), cases)?;
    for case in whole.as_str().lines() {
        hold_one::<O>(rt.alloc(), case)?;
    }
    Ok(())
}

/// The same of cases of some lines each, with an empty line between two of them.
pub fn hold_stories<O: Outcome, R: AllocGlobal>(rt: &R, stories: &str) -> Result<(), Fail>
    ensures { OnOk result (All (Holds O.may_make) (pieces (codes "\n\n") (unfolded stories.now))) }
{
    let whole = unfolded(rt.alloc(), stories)?;
    for story in whole.as_str().split("\n\n") {
        hold_one::<O>(rt.alloc(), story)?;
    }
    Ok(())
}

/// The text, with each line that begins with four spaces joined to the line before it, without the
/// spaces. `OutOfMemory` where no text could be made.
pub fn unfolded(alloc: Global, text: &str) -> Result<String, Refusal>
    ensures { Gives string_bytes result (Ok (unfolded text.now)) }
{
    replaced(alloc, text, "\n    ", "")
}

fn hold_one<O: Outcome>(alloc: Global, case: &str) -> Result<(), Fail>
    ensures { OnOk result (Holds O.may_make case.now) }
{
    let case = written_out(alloc, case)?;
    let (given, wanted) = cut(case.as_str(), " => ").ok_or("a case has no outcome")?;
    let found = O::of(alloc, given)?;
    same(found.as_str(), wanted, given)
}

// Fails unless what was found is what is wanted.
pub(crate) fn same(found: &str, wanted: &str, given: &str) -> Result<(), Fail>
    ensures { OnOk result (found.now ≡ wanted.now) }
{
    if found == wanted {
        Ok(())
    } else {
        Err(Fail::new(format_args!("{found} and not {wanted}, at {given}")))
    }
}

/// The text that a call answers, or its refusal, as `4 BadResource`. `OutOfMemory` where no text
/// could be made.
pub fn told(alloc: Global, answered: Result<String, Refusal>) -> Result<String, Refusal>
    ensures { Gives string_bytes result (Ok (told_by string_bytes answered)) }
{
    match answered {
        Ok(text) => Ok(text),
        Err(refusal) => {
            let number = refusal.number();
            let name = refusal.name();
            Ok(format!(in alloc; "{number} {name}")?)
        }
    }
}

/// The text before and after the first space, where there is one.
pub fn first_word(text: &str) -> Result<(&str, &str), Fail>
    ensures { option_map (λ p. (p.0.now, p.1.now)) (result_ok result) ≡ around (codes " ") text.now }
{
    Ok(cut(text, " ").ok_or("a case lacks a word")?)
}

// The text before and after the first place of a word, where it has one.
pub(crate) fn cut<'a>(text: &'a str, word: &str) -> Option<(&'a str, &'a str)>
    requires { 0 < length word.now }
    ensures { option_map (λ p. (p.0.now, p.1.now)) result ≡ around word.now text.now }
{
    text.split_once(word)
}

/// The words that stand in a text, apart by white space. `OutOfMemory` where they could not be
/// copied.
pub fn words_of(alloc: Global, text: &str) -> Result<Vec<String>, Refusal>
    ensures words { IfOk result (λ words. AreWords text.now (map string_bytes words.items)) }
    ensures refused { IfErr result (λ e. e ≡ OutOfMemory) }
{
    let mut words = Vec::new(alloc);
    for word in text.split_whitespace() {
        words.push(String::from_str(alloc, word)?)?;
    }
    Ok(words)
}

/// The text, with `by` in place of `word`. The empty word stands nowhere. `OutOfMemory` where no
/// text could be made.
pub fn replaced(alloc: Global, text: &str, word: &str, by: &str) -> Result<String, Refusal>
    ensures { Gives string_bytes result (Ok (replaced word.now by.now text.now)) }
{
    if word.is_empty() {
        return Ok(String::from_str(alloc, text)?);
    }
    Ok(text.replace(alloc, word, by)?)
}

/// The text, with what its abbreviations stand for. `BadScript` where a `<` begins no repeat, and
/// `OutOfMemory` where no text could be made.
pub fn written_out(alloc: Global, text: &str) -> Result<String, Refusal>
    ensures { Gives string_bytes result (ok_or (written_out text.now) BadScript) }
{
    let text = with_urls(alloc, text)?;
    repeated(alloc, text.as_str())
}

// The text, with the types' URLs in place of their short names.
fn with_urls(alloc: Global, text: &str) -> Result<String, Refusal>
    ensures { Gives string_bytes result (Ok (with_urls text.now)) }
{
    let text = replaced(alloc, text, "CDS", TypeName::Cluster.url())?;
    let text = replaced(alloc, text.as_str(), "EDS", TypeName::Endpoint.url())?;
    let text = replaced(alloc, text.as_str(), "LDS", TypeName::Listener.url())?;
    let text = replaced(alloc, text.as_str(), "RDS", TypeName::Route.url())?;
    replaced(alloc, text.as_str(), "SDS", TypeName::Secret.url())
}

// The text, with each `<[*3>` in it written out.
fn repeated(alloc: Global, text: &str) -> Result<String, Refusal>
    ensures { Gives string_bytes result (ok_or (repeated text.now) BadScript) }
{
    let Some((before, repeats)) = cut(text, "<") else {
        return Ok(String::from_str(alloc, text)?);
    };
    let mut all = String::from_str(alloc, before)?;
    for part in repeats.split("<") {
        push_repeat(&mut all, part)?;
    }
    Ok(all)
}

// Adds what the text behind a `<` stands for.
fn push_repeat(all: &mut String, part: &str) -> Result<(), Refusal>
    ensures ok { OnOk result (IsWritten (repeat_of part.now) (string_bytes all.old) (string_bytes all.new)) }
    ensures refused { IfErr result (IsRefusal (repeat_of part.now)) }
{
    let Some((repeat, rest)) = cut(part, ">") else {
        return Err(Refusal::BadScript);
    };
    push_repetition(all, repeat)?;
    Ok(all.push_str(rest)?)
}

// Adds the text before the star, as often as the number behind it says.
fn push_repetition(all: &mut String, repeat: &str) -> Result<(), Refusal>
    ensures ok { OnOk result (IsWritten (repetition repeat.now) (string_bytes all.old) (string_bytes all.new)) }
    ensures refused { IfErr result (IsRefusal (repetition repeat.now)) }
{
    let Some((piece, times)) = cut(repeat, "*") else {
        return Err(Refusal::BadScript);
    };
    let Some(times) = number_in(times) else {
        return Err(Refusal::BadScript);
    };
    for _ in 0..times {
        all.push_str(piece)?;
    }
    Ok(())
}

fn number_in(text: &str) -> Option<usize>
    ensures { result ≡ number_in text.now }
{
    text.parse::<usize>().ok()
}
