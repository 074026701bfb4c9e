// From JSON in order to its text.
ghost use Rattle.std.specs.Prelude.{◌≡◌, ◌≤◌, Some, IfOk, string_bytes};
ghost use Rattle.json.specs.Tree.{depth as nesting};
ghost use Rattle.json.specs.Value.{value_view};
ghost use Rattle.serde_json.specs.Read.{read, max_depth};
ghost use Rattle.serde_json.specs.Written.{compact_text};
ghost use Rattle.xds_json.specs.Ordered.{IsOrdered, meaning};

use json::{Value, Writer};
use std::alloc::{AllocError, Global};

/// The compact text of what a value reads as. `room` is about how long it is.
pub fn text_of(alloc: Global, value: &Value<'_>, room: usize) -> Result<String, AllocError>
    requires { IsOrdered (value_view value.now) }
    ensures text { IfOk result (λ s. string_bytes s ≡ compact_text (meaning (value_view value.now))) }
    ensures reads_back { IfOk result (λ s. nesting (value_view value.now) ≤ max_depth
        → read (string_bytes s) ≡ Some (meaning (value_view value.now))) }
{
    let mut writer = Writer::new(Vec::with_capacity(alloc, room)?);
    writer.value(value)?;
    Ok(unsafe { String::from_utf8_unchecked(writer.into_inner()) })
}
