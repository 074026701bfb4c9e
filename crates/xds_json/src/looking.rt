// Looking into JSON in order.
ghost use Rattle.std.specs.Prelude.{◌≡◌, ◌≤◌, ◌<◌, IfSome, map, string_bytes};
ghost use Rattle.std.specs.Option.{option_map};
ghost use Rattle.json.specs.Tree.{depth as nesting, members_depth};
ghost use Rattle.json.specs.Value.{value_view, members_view, items_view};
ghost use Rattle.serde_json.specs.Data.{number, string, unsigned, array};
ghost use Rattle.serde_json.specs.Find.{get, get_member};
ghost use Rattle.serde_json.specs.View.{items_of};
ghost use Rattle.xds_json.specs.Ordered.{IsOrdered, AreInOrder, meaning, members_meaning, items_meaning};

use json::Value;
use std::alloc::Global;
use xds_resource::decimal_number;

/// The member of this name, where there is one.
pub fn find_member<'v, 'a>(value: &'v Value<'a>, name: &str) -> Option<&'v Value<'a>>
    requires { IsOrdered (value_view value.now) }
    ensures found { option_map (λ v. meaning (value_view v.now)) result ≡ get name.now (meaning (value_view value.now)) }
    ensures ordered { IfSome result (λ v. IsOrdered (value_view v.now)) }
    ensures nests { IfSome result (λ v. nesting (value_view v.now) < nesting (value_view value.now)) }
{
    match value {
        Value::Object(members) => find(members, name),
        _ => None,
    }
}

fn find<'v, 'a>(members: &'v Vec<(&'a str, Value<'a>)>, name: &str) -> Option<&'v Value<'a>>
    requires { AreInOrder (members_view members.now.items) }
    ensures found { option_map (λ v. meaning (value_view v.now)) result
        ≡ get_member name.now (members_meaning (members_view members.now.items)) }
    ensures ordered { IfSome result (λ v. IsOrdered (value_view v.now)) }
    ensures nests { IfSome result (λ v. nesting (value_view v.now) ≤ members_depth (members_view members.now.items)) }
{
    for member in members {
        if name == member.0 {
            return Some(&member.1);
        }
    }
    None
}

/// The text that a value is.
pub fn text_in<'a>(value: &Value<'a>) -> Option<&'a str>
    ensures { IfSome result (λ s. meaning (value_view value.now) ≡ string s.now) }
{
    match value {
        Value::String(text) => Some(*text),
        _ => None,
    }
}

/// The whole number of 64 bits that a value is.
pub fn whole_number(value: &Value<'_>) -> Option<u64>
    ensures { IfSome result (λ n. meaning (value_view value.now) ≡ number (unsigned n)) }
{
    match value {
        Value::Number(text) => decimal_number(*text),
        _ => None,
    }
}

/// The texts that the value is a list of, copied.
pub fn texts_in(alloc: Global, value: &Value<'_>) -> Option<Vec<String>>
    ensures { IfSome result
        (λ v. meaning (value_view value.now) ≡ array (items_of (map string (map string_bytes v.items)))) }
{
    match value {
        Value::Array(items) => texts_of(alloc, items),
        _ => None,
    }
}

fn texts_of(alloc: Global, items: &Vec<Value<'_>>) -> Option<Vec<String>>
    ensures { IfSome result
        (λ v. items_meaning (items_view items.now.items) ≡ items_of (map string (map string_bytes v.items))) }
{
    let mut texts = Vec::new(alloc);
    for item in items {
        let text = text_in(item)?;
        texts.push(String::from_str(alloc, text).ok()?).ok()?;
    }
    Some(texts)
}
