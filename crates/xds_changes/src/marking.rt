// Counts of changes as a text, and the pieces of a text.
ghost use Rattle.std.specs.Prelude.{◌≡◌, ◌<◌, ◌∷◌, string_bytes, IfOk};
ghost use Rattle.std.specs.Option.{option_map};
ghost use Rattle.xds_script.specs.Lines.{pieces};
ghost use Rattle.xds_script.specs.Words.{is_empty, number_in};
ghost use Rattle.xds_changes.specs.MarkTexts.{count_first, marks_in, marks_text, most_count, pieces_in, split_first};

use std::alloc::Global;
use xds_events::Marks;
use xds_resource::{Refusal, decimal_number};

/// Counts of changes as a text: the five counts in the order of the types' table, with a dot between each two. Refused only by
/// `OutOfMemory`.
pub fn marks_text(alloc: Global, marks: Marks) -> Result<String, Refusal>
    ensures { IfOk result (λ t. string_bytes t ≡ marks_text marks) }
{
    let Marks {
        cluster,
        endpoint,
        listener,
        route,
        secret,
    } = marks;
    Ok(format!(in alloc; "{cluster}.{endpoint}.{listener}.{route}.{secret}")?)
}

/// The number in this range whose shortest decimal the word is.
pub fn number_within(least: u64, most: u64, word: &str) -> Option<u64>
    ensures { result ≡ number_in least most word.now }
{
    let number = decimal_number(word)?;
    if number < least || number > most {
        return None;
    }
    Some(number)
}

// The first piece of a text between marks, and the text behind its mark, if there is one.
fn split_at(text: &str, mark: char) -> (&str, Option<&str>)
    requires { mark < 128 }
    ensures { pieces mark text.now ≡ result.0.now ∷ pieces_in mark (option_map (λ s. s.now) result.1) }
{
    match text.split_once(mark) {
        Some((piece, rest)) => (piece, Some(rest)),
        None => (text, None),
    }
}

/// The same of a text, if there is one.
pub fn split_first(text: Option<&str>, mark: char) -> Option<(&str, Option<&str>)>
    requires { mark < 128 }
    ensures { option_map (λ p. (p.0.now, pieces_in mark (option_map (λ s. s.now) p.1))) result ≡ split_first (pieces_in mark (option_map (λ s. s.now) text.entry)) }
{
    match text {
        Some(text) => Some(split_at(text, mark)),
        None => None,
    }
}

/// Whether no piece is there.
pub fn is_over(text: Option<&str>, mark: char) -> bool
    ensures { result ≡ is_empty (pieces_in mark (option_map (λ s. s.now) text.entry)) }
{
    text.is_none()
}

// The count that a text begins with, and the text behind its dot, if there is one.
fn count_first(text: Option<&str>) -> Option<(u64, Option<&str>)>
    ensures { option_map (λ p. (p.0, pieces_in 46 (option_map (λ s. s.now) p.1))) result ≡ count_first (pieces_in 46 (option_map (λ s. s.now) text.entry)) }
{
    let (piece, rest) = split_first(text, '.')?;
    let count = number_within(0, u64::MAX, piece)?;
    Some((count, rest))
}

/// The counts of changes that a text says, if it says any.
pub fn read_marks(text: &str) -> Option<Marks>
    ensures { result ≡ marks_in text.now }
{
    let (cluster, rest) = count_first(Some(text))?;
    let (endpoint, rest) = count_first(rest)?;
    let (listener, rest) = count_first(rest)?;
    let (route, rest) = count_first(rest)?;
    let (secret, rest) = count_first(rest)?;
    if !is_over(rest, '.') {
        return None;
    }
    Some(Marks {
        cluster,
        endpoint,
        listener,
        route,
        secret,
    })
}
