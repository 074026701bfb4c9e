// Texts of others, as they are told: without what a terminal or a picture would take for more than a text.
ghost use Rattle.std.specs.Prelude.{◌≡◌, ◌++◌, string_bytes, IfOk, IfErr, OnOk};
ghost use Rattle.std.specs.Option.{option_map};
ghost use Rattle.xds_resource.specs.declared.refusal.Refusal.TheVariants.{OutOfMemory};
ghost use Rattle.xds_explain.specs.Shown.{is_hidden, shown_char, beginning, is_longer, excerpt, entity, xml_char, escaped};

use std::alloc::Global;
use xds_resource::Refusal;

// Whether a character isn't shown: one of control, one that turns the direction of a text or ends its line, and one that XML
// doesn't know.
fn is_hidden(c: char) -> bool
    ensures { result ≡ is_hidden c }
{
    c < ' '
        || (c >= '\u{7f}' && c <= '\u{9f}')
        || (c >= '\u{2028}' && c <= '\u{202e}')
        || (c >= '\u{2066}' && c <= '\u{2069}')
        || c == '\u{fffe}'
        || c == '\u{ffff}'
}

// What stands for a character: a question mark for one that isn't shown.
fn shown_char(c: char) -> char
    ensures { result ≡ shown_char c }
{
    if is_hidden(c) { '?' } else { c }
}

// So many characters of a text at most, as they are shown.
fn beginning(alloc: Global, text: &str, most: usize) -> Result<String, Refusal>
    ensures ok { IfOk result (λ t. string_bytes t ≡ beginning most text.now) }
    ensures refused { IfErr result (λ e. e ≡ OutOfMemory) }
{
    let mut shown = String::new(alloc);
    for c in text.chars().take(most) {
        shown.push(shown_char(c))?;
    }
    Ok(shown)
}

// Whether a text has more characters than so many.
fn is_longer(text: &str, most: usize) -> bool
    ensures { result ≡ is_longer most text.now }
{
    text.chars().count() > most
}

/// So many characters of a text at most, with a question mark for each that isn't shown, and three dots behind where there are more.
/// Refused only by `OutOfMemory`.
pub fn excerpt(alloc: Global, text: &str, most: usize) -> Result<String, Refusal>
    ensures ok { IfOk result (λ t. string_bytes t ≡ excerpt most text.now) }
    ensures refused { IfErr result (λ e. e ≡ OutOfMemory) }
{
    let mut shown = beginning(alloc, text, most)?;
    if is_longer(text, most) {
        shown.push_str("...")?;
    }
    Ok(shown)
}

// The entity that stands for a character by which XML begins or ends something, if it is one.
fn entity(c: char) -> Option<&'static str>
    ensures { option_map (λ t. t.now) result ≡ entity c }
{
    if c == '<' {
        return Some("&lt;");
    }
    if c == '>' {
        return Some("&gt;");
    }
    if c == '&' {
        return Some("&amp;");
    }
    if c == '"' {
        return Some("&quot;");
    }
    if c == '\'' {
        return Some("&#39;");
    }
    None
}

// Appends what stands for a character in XML.
fn push_xml(text: &mut String, c: char) -> Result<(), Refusal>
    ensures ok { OnOk result (string_bytes text.new ≡ string_bytes text.old ++ xml_char c) }
    ensures refused { IfErr result (λ e. e ≡ OutOfMemory) }
{
    match entity(c) {
        Some(entity) => text.push_str(entity)?,
        None => text.push(shown_char(c))?,
    }
    Ok(())
}

/// A text as XML: an entity for `<`, `>`, `&` and both quotes, and a question mark for what isn't shown. So it begins and ends
/// nothing there. Refused only by `OutOfMemory`.
pub fn escaped(alloc: Global, text: &str) -> Result<String, Refusal>
    ensures ok { IfOk result (λ t. string_bytes t ≡ escaped text.now) }
    ensures refused { IfErr result (λ e. e ≡ OutOfMemory) }
{
    let mut shown = String::new(alloc);
    for c in text.chars() {
        push_xml(&mut shown, c)?;
    }
    Ok(shown)
}
