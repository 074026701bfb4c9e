// The names to which the JSON of a resource refers, at any depth.
ghost use Rattle.std.specs.Prelude.{◌≡◌, ◌++◌, map, OnOk};
ghost use Rattle.std.specs.Option.{option_map};
ghost use Rattle.serde_json.specs.View.{view, items_view, members_view};
ghost use Rattle.xds_resource.specs.Fields.{field as field_of};
ghost use Rattle.xds_sources.specs.References.{refers_of, walked, items_walked, members_walked, by_member, by_action, each_named, listed_named, weighted, named, text_at as text_of};

use crate::references::Reference;
use serde_json::{Map, Value};
use std::alloc::Global;
use xds_resource::{Refusal, TypeName};

/// Appends what a value refers to: what each object in it does, at any depth, a member of an object before what is in it.
#[cycle(walking)]
pub(crate) fn walk(alloc: Global, found: &mut Vec<Reference>, value: &Value) -> Result<(), Refusal>
    ensures { OnOk result (map refers_of found.new.items ≡ map refers_of found.old.items ++ walked (view value.now)) }
{
    match value {
        Value::Array(items) => walk_items(alloc, found, items),
        Value::Object(members) => walk_members(alloc, found, members),
        Value::Null => Ok(()),
        Value::Bool(_) => Ok(()),
        Value::Number(_) => Ok(()),
        Value::String(_) => Ok(()),
    }
}

#[cycle(walking)]
fn walk_items(alloc: Global, found: &mut Vec<Reference>, items: &Vec<Value>) -> Result<(), Refusal>
    ensures { OnOk result (map refers_of found.new.items ≡ map refers_of found.old.items ++ items_walked (items_view items.now.items)) }
{
    for item in items {
        walk(alloc, found, item)?;
    }
    Ok(())
}

#[cycle(walking)]
fn walk_members(
    alloc: Global,
    found: &mut Vec<Reference>,
    members: &Map<String, Value>,
) -> Result<(), Refusal>
    ensures { OnOk result (map refers_of found.new.items ≡ map refers_of found.old.items ++ members_walked (members_view members.now.entries)) }
{
    for (key, member) in members.iter() {
        look_at(alloc, found, key.as_str(), member)?;
        walk(alloc, found, member)?;
    }
    Ok(())
}

// Appends what a member of an object refers to by itself: `rds` names a route configuration, `route` clusters.
fn look_at(
    alloc: Global,
    found: &mut Vec<Reference>,
    key: &str,
    member: &Value,
) -> Result<(), Refusal>
    ensures { OnOk result (map refers_of found.new.items ≡ map refers_of found.old.items ++ by_member key.now (view member.now)) }
{
    if key == "rds" {
        let name = text_at(member, "routeConfigName", "route_config_name");
        return push(alloc, found, TypeName::Route, name);
    }
    if key == "route" {
        return look_at_route(alloc, found, member);
    }
    Ok(())
}

// Appends the clusters that an action of a route names: one, weighted ones, and those of mirrored requests.
fn look_at_route(alloc: Global, found: &mut Vec<Reference>, action: &Value) -> Result<(), Refusal>
    ensures { OnOk result (map refers_of found.new.items ≡ map refers_of found.old.items ++ by_action (view action.now)) }
{
    let name = text_at(action, "cluster", "cluster");
    push(alloc, found, TypeName::Cluster, name)?;
    let choice = field(action, "weightedClusters", "weighted_clusters");
    push_weighted(alloc, found, choice)?;
    let mirrors = field(action, "requestMirrorPolicies", "request_mirror_policies");
    push_listed(alloc, found, mirrors, "cluster")
}

// Appends the clusters of a weighted choice, if there is one.
fn push_weighted(
    alloc: Global,
    found: &mut Vec<Reference>,
    choice: Option<&Value>,
) -> Result<(), Refusal>
    ensures { OnOk result (map refers_of found.new.items ≡ map refers_of found.old.items ++ weighted (option_map (λ v. view v.now) choice.entry)) }
{
    match choice {
        Some(choice) => push_listed(alloc, found, field(choice, "clusters", "clusters"), "name"),
        None => Ok(()),
    }
}

// Appends the clusters that a field of each item of a list names, where there is a list.
fn push_listed(
    alloc: Global,
    found: &mut Vec<Reference>,
    list: Option<&Value>,
    key: &str,
) -> Result<(), Refusal>
    ensures { OnOk result (map refers_of found.new.items ≡ map refers_of found.old.items ++ listed_named key.now (option_map (λ v. view v.now) list.entry)) }
{
    match list {
        Some(Value::Array(items)) => push_each(alloc, found, items, key),
        Some(
            Value::Null | Value::Bool(_) | Value::Number(_) | Value::String(_) | Value::Object(_),
        ) => Ok(()),
        None => Ok(()),
    }
}

fn push_each(
    alloc: Global,
    found: &mut Vec<Reference>,
    items: &Vec<Value>,
    key: &str,
) -> Result<(), Refusal>
    ensures { OnOk result (map refers_of found.new.items ≡ map refers_of found.old.items ++ each_named key.now (items_view items.now.items)) }
{
    for item in items {
        push(alloc, found, TypeName::Cluster, text_at(item, key, key))?;
    }
    Ok(())
}

/// Appends a reference to a name, where there is one that isn't empty.
pub(crate) fn push(
    alloc: Global,
    found: &mut Vec<Reference>,
    kind: TypeName,
    name: Option<&str>,
) -> Result<(), Refusal>
    ensures { OnOk result (map refers_of found.new.items ≡ map refers_of found.old.items ++ named kind (option_map (λ s. s.now) name.entry)) }
{
    let Some(name) = name else {
        return Ok(());
    };
    if name.is_empty() {
        return Ok(());
    }
    let name = String::from_str(alloc, name)?;
    Ok(found.push(Reference { kind, name })?)
}

/// What a field holds, under either spelling of its name. Where both stand, the lowerCamelCase one counts.
pub(crate) fn field<'v>(value: &'v Value, camel: &str, proto: &str) -> Option<&'v Value>
    ensures { option_map (λ v. view v.now) result ≡ field_of camel.now proto.now (view value.now) }
{
    match value.get(camel) {
        Some(found) => Some(found),
        None => value.get(proto),
    }
}

/// The text that a field holds, if it holds one.
pub(crate) fn text_at<'v>(value: &'v Value, camel: &str, proto: &str) -> Option<&'v str>
    ensures { option_map (λ s. s.now) result ≡ text_of camel.now proto.now (view value.now) }
{
    match field(value, camel, proto) {
        Some(found) => found.as_str(),
        None => None,
    }
}
