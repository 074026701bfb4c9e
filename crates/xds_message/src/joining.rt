// JSON texts that are joined piece by piece, with no value made of the whole.
ghost use Rattle.std.specs.Prelude.{◌≡◌, ◌∷◌, [], ◌++◌, Bool, true, Some, map, string_bytes, IfOk, IfErr, OnOk};
ghost use Rattle.std.specs.List.{list_all};
ghost use Rattle.json.specs.Run.{is_plain};
ghost use Rattle.serde_json.specs.Data.{Data, string, array};
ghost use Rattle.serde_json.specs.View.{items_of};
ghost use Rattle.serde_json.specs.Written.{compact_text, comma_if};
ghost use Rattle.xds_resource.specs.declared.refusal.Refusal.TheVariants.{OutOfMemory};
ghost use Rattle.xds_message.specs.Written.{text_data, list_data};
ghost use Rattle.xds_message.specs.Joined.{JoinsMember, with_commas};

use serde_json::Value;
use std::alloc::Global;
use xds_resource::Refusal;

/// What has a compact JSON text.
pub(crate) trait Join {
    // The value that the text is of.
    ghost json: { Self → Data };

    /// About how many bytes the text has, for the room that is made for it at once.
    fn size(&self) -> usize;

    /// Appends the text.
    fn join(&self, alloc: Global, out: &mut String) -> Result<(), Refusal>
        ensures ok { OnOk result (string_bytes out.new ≡ string_bytes out.old ++ compact_text (json self.now)) }
        ensures refused { IfErr result (λ e. e ≡ OutOfMemory) };
}

impl Join for String {
    ghost json = { λ s. string (string_bytes s) };

    fn size(&self) -> usize {
        self.as_str().len()
    }

    fn join(&self, alloc: Global, out: &mut String) -> Result<(), Refusal> {
        join_quoted(alloc, out, self.as_str())
    }
}

// Whether a byte of a text stands in quotes as it is.
fn is_plain(byte: u8) -> bool
    ensures { result ≡ is_plain byte }
{
    byte != b'"' && byte != b'\\' && byte >= b' '
}

// Whether a text stands in quotes as it is: it has no quote, no backslash and no control character.
fn needs_no_escape(text: &str) -> bool
    ensures { result ≡ list_all is_plain text.now }
{
    let bytes = text.as_bytes();
    for byte in bytes {
        if !is_plain(*byte) {
            return false;
        }
    }
    true
}

// Appends a text that needs no escape in quotes.
fn join_unescaped(out: &mut String, text: &str) -> Result<(), Refusal>
    requires { list_all is_plain text.now ≡ true }
    ensures ok { OnOk result (string_bytes out.new ≡ string_bytes out.old ++ compact_text (string text.now)) }
    ensures refused { IfErr result (λ e. e ≡ OutOfMemory) }
{
    out.push_str("\"")?;
    out.push_str(text)?;
    Ok(out.push_str("\"")?)
}

/// Appends a text in quotes, with its escapes.
pub(crate) fn join_quoted(alloc: Global, out: &mut String, text: &str) -> Result<(), Refusal>
    ensures ok { OnOk result (string_bytes out.new ≡ string_bytes out.old ++ compact_text (string text.now)) }
    ensures refused { IfErr result (λ e. e ≡ OutOfMemory) }
{
    if needs_no_escape(text) {
        return join_unescaped(out, text);
    }
    let quoted = Value::try_from_str(alloc, text)?.to_string(alloc)?;
    Ok(out.push_str(quoted.as_str())?)
}

/// Appends a comma, where something stands before.
pub(crate) fn join_comma(out: &mut String, later: bool) -> Result<(), Refusal>
    ensures ok { OnOk result (string_bytes out.new ≡ string_bytes out.old ++ comma_if later) }
    ensures refused { IfErr result (λ e. e ≡ OutOfMemory) }
{
    if later {
        out.push_str(",")?;
    }
    Ok(())
}

/// Appends what stands before a member's value: a comma where a member stands before, the key and a colon.
pub(crate) fn join_key(
    alloc: Global,
    out: &mut String,
    later: bool,
    key: &str,
) -> Result<(), Refusal>
    ensures ok { OnOk result (string_bytes out.new ≡ string_bytes out.old ++ (comma_if later ++ (compact_text (string key.now) ++ 58 ∷ []))) }
    ensures refused { IfErr result (λ e. e ≡ OutOfMemory) }
{
    join_comma(out, later)?;
    join_quoted(alloc, out, key)?;
    Ok(out.push_str(":")?)
}

/// Appends a member that is a text, unless the text is empty, and answers whether a member stands there.
pub(crate) fn join_text(
    alloc: Global,
    out: &mut String,
    later: bool,
    key: &str,
    text: &str,
) -> Result<bool, Refusal>
    ensures ok { IfOk result
        (λ l. JoinsMember (string_bytes out.old) later (key.now, text_data text.now) (string_bytes out.new) l) }
    ensures refused { IfErr result (λ e. e ≡ OutOfMemory) }
{
    if text.is_empty() {
        return Ok(later);
    }
    join_key(alloc, out, later, key)?;
    join_quoted(alloc, out, text)?;
    Ok(true)
}

/// Appends a member that is a list, unless the list is empty, and answers whether a member stands there.
pub(crate) fn join_list<I: Join>(
    alloc: Global,
    out: &mut String,
    later: bool,
    key: &str,
    items: &[I],
) -> Result<bool, Refusal>
    ensures ok { IfOk result
        (λ l. JoinsMember (string_bytes out.old) later (key.now, list_data (map I.json items.now)) (string_bytes out.new) l) }
    ensures refused { IfErr result (λ e. e ≡ OutOfMemory) }
{
    if items.is_empty() {
        return Ok(later);
    }
    out.reserve(room_for(items))?;
    join_key(alloc, out, later, key)?;
    join_items(alloc, out, items)?;
    Ok(true)
}

/// Appends a member that is a list, unless the list is empty, but for the items, which stand between the two texts with
/// commas between them; and answers whether a member stands there.
pub(crate) fn join_list_ends<I: Join>(
    alloc: Global,
    head: &mut String,
    tail: &mut String,
    later: bool,
    key: &str,
    items: &[I],
) -> Result<bool, Refusal>
    requires { string_bytes tail.old ≡ [] }
    ensures ok { IfOk result
        (λ l. JoinsMember (string_bytes head.old) later (key.now, list_data (map I.json items.now))
        (string_bytes head.new ++ (with_commas (map (λ x. compact_text (I.json x)) items.now) ++ string_bytes tail.new)) l) }
    ensures refused { IfErr result (λ e. e ≡ OutOfMemory) }
{
    if items.is_empty() {
        return Ok(later);
    }
    join_key(alloc, head, later, key)?;
    head.push_str("[")?;
    tail.push_str("]")?;
    Ok(true)
}

// About how many bytes the items take as an array, and what follows it in a message.
fn room_for<I: Join>(items: &[I]) -> usize {
    let mut room: usize = 256;
    for item in items {
        room = room.saturating_add(item.size()).saturating_add(4);
    }
    room
}

// Appends an array.
fn join_items<I: Join>(alloc: Global, out: &mut String, items: &[I]) -> Result<(), Refusal>
    ensures ok { OnOk result (string_bytes out.new
        ≡ string_bytes out.old ++ compact_text (array (items_of (map I.json items.now)))) }
    ensures refused { IfErr result (λ e. e ≡ OutOfMemory) }
{
    out.push_str("[")?;
    let mut later = false;
    for item in items {
        join_comma(out, later)?;
        item.join(alloc, out)?;
        later = true;
    }
    Ok(out.push_str("]")?)
}
