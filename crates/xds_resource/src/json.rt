// What a resource's JSON value is asked: how deep it nests, whether its numbers are whole, and what a field holds.
ghost use Rattle.std.specs.Prelude.{◌≡◌, not, nat_le};
ghost use Rattle.std.specs.Option.{option_map};
ghost use Rattle.serde_json.specs.Data.{depth, items_depth, members_depth};
ghost use Rattle.serde_json.specs.View.{view, items_view, members_view};
ghost use Rattle.serde_json.specs.Written.{has_float, items_have_float, members_have_float};
ghost use Rattle.xds_resource.specs.Fields.{field as field_of};

use serde_json::{Map, Value};

/// Whether arrays and objects nest at most `limit` deep.
#[cycle(nesting)]
pub(crate) fn nests_within(value: &Value, limit: usize) -> bool
    ensures { result ≡ nat_le (depth (view value.now)) limit }
{
    match value {
        Value::Array(items) => limit > 0 && items_nest_within(items, limit - 1),
        Value::Object(members) => limit > 0 && members_nest_within(members, limit - 1),
        Value::Null => true,
        Value::Bool(_) => true,
        Value::Number(_) => true,
        Value::String(_) => true,
    }
}

#[cycle(nesting)]
fn items_nest_within(items: &Vec<Value>, limit: usize) -> bool
    ensures { result ≡ nat_le (items_depth (items_view items.now.items)) limit }
{
    for item in items {
        if !nests_within(item, limit) {
            return false;
        }
    }
    true
}

#[cycle(nesting)]
fn members_nest_within(members: &Map<String, Value>, limit: usize) -> bool
    ensures { result ≡ nat_le (members_depth (members_view members.now.entries)) limit }
{
    for (_key, member) in members.iter() {
        if !nests_within(member, limit) {
            return false;
        }
    }
    true
}

/// Whether every number is a 64-bit integer.
#[cycle(wholeness)]
pub(crate) fn is_whole(value: &Value) -> bool
    ensures { result ≡ not (has_float (view value.now)) }
{
    match value {
        Value::Number(number) => !number.is_f64(),
        Value::Array(items) => items_are_whole(items),
        Value::Object(members) => members_are_whole(members),
        Value::Null => true,
        Value::Bool(_) => true,
        Value::String(_) => true,
    }
}

#[cycle(wholeness)]
fn items_are_whole(items: &Vec<Value>) -> bool
    ensures { result ≡ not (items_have_float (items_view items.now.items)) }
{
    for item in items {
        if !is_whole(item) {
            return false;
        }
    }
    true
}

#[cycle(wholeness)]
fn members_are_whole(members: &Map<String, Value>) -> bool
    ensures { result ≡ not (members_have_float (members_view members.now.entries)) }
{
    for (_key, member) in members.iter() {
        if !is_whole(member) {
            return false;
        }
    }
    true
}

/// What a field holds, under either spelling of its name. Where both stand, the lowerCamelCase one counts.
pub(crate) fn field<'a>(value: &'a Value, camel: &str, proto: &str) -> Option<&'a Value>
    ensures { option_map (λ v. view v.now) result ≡ field_of camel.now proto.now (view value.now) }
{
    match value.get(camel) {
        Some(found) => Some(found),
        None => value.get(proto),
    }
}
