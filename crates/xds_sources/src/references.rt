// References of resources to others, and those that lead nowhere.
ghost use Rattle.std.specs.Prelude.{◌≡◌, ◌++◌, map, IfOk, OnOk};
ghost use Rattle.std.specs.Option.{option_map};
ghost use Rattle.serde_json.specs.View.{view};
ghost use Rattle.xds_sources.specs.References.{refers_of, references, by_cluster, is_eds as is_eds_of, service_of as service_name, leads_of, missing, of_write, dangling};

use crate::keys::key_of;
use crate::walking::{field, push, text_at, walk};
use serde_json::Value;
use std::alloc::Global;
use xds_resource::{AnyWrite, NameMap, Refusal, TypeName};

/// What a resource refers to.
#[derive(Debug, Drop)]
pub struct Reference {
    pub kind: TypeName,
    pub name: String,
}

/// A reference of a resource to one that isn't held.
#[derive(Debug, Drop)]
pub struct Dangling {
    /// The resource's type and name, as a key.
    pub from: String,
    /// The type and the name of what it refers to, as a key.
    pub to: String,
}

/// What a resource of this type and name refers to, where this is its object. A cluster of type `EDS` refers to the endpoints of its service
/// name, or else of its own; a listener to the route configurations that `rds` names and to the clusters of the routes in it, at any
/// depth; a route configuration to the clusters that its routes name. Endpoints and secrets refer to nothing.
pub fn references_of(
    alloc: Global,
    kind: TypeName,
    name: &str,
    value: &Value,
) -> Result<Vec<Reference>, Refusal>
    ensures { IfOk result (λ v. map refers_of v.items ≡ references kind name.now (view value.now)) }
{
    let mut found = Vec::new(alloc);
    match kind {
        TypeName::Cluster => look_at_cluster(alloc, &mut found, name, value)?,
        TypeName::Listener => walk(alloc, &mut found, value)?,
        TypeName::Route => walk(alloc, &mut found, value)?,
        TypeName::Endpoint => {}
        TypeName::Secret => {}
    }
    Ok(found)
}

// Appends the endpoints that a cluster of type `EDS` refers to.
fn look_at_cluster(
    alloc: Global,
    found: &mut Vec<Reference>,
    name: &str,
    value: &Value,
) -> Result<(), Refusal>
    ensures { OnOk result (map refers_of found.new.items ≡ map refers_of found.old.items ++ by_cluster name.now (view value.now)) }
{
    if !is_eds(value.get("type")) {
        return Ok(());
    }
    let service = service_of(name, value);
    push(alloc, found, TypeName::Endpoint, Some(service))
}

// Whether this is the type of a cluster that gets its endpoints by EDS, as a name or as a number.
fn is_eds(kind: Option<&Value>) -> bool
    ensures { result ≡ is_eds_of (option_map (λ v. view v.now) kind.entry) }
{
    match kind {
        Some(Value::String(text)) => text.as_str() == "EDS",
        Some(Value::Number(number)) => number.as_u64() == Some(3),
        Some(Value::Null | Value::Bool(_) | Value::Array(_) | Value::Object(_)) => false,
        None => false,
    }
}

// The name of a cluster's endpoints.
fn service_of<'a>(name: &'a str, value: &'a Value) -> &'a str
    ensures { result.now ≡ service_name name.now (view value.now) }
{
    let Some(config) = field(value, "edsClusterConfig", "eds_cluster_config") else {
        return name;
    };
    match text_at(config, "serviceName", "service_name") {
        Some(text) => if text.is_empty() { name } else { text },
        None => name,
    }
}

/// The references of what is held that lead nowhere, each once for each place at which it stands, in the order of the resources: those to
/// what isn't held. What is held are these writes of live resources, by type and name.
pub fn dangling_in(alloc: Global, held: &NameMap<AnyWrite>) -> Result<Vec<Dangling>, Refusal>
    ensures { IfOk result (λ v. map leads_of v.items ≡ dangling held.now) }
{
    let mut found = Vec::new(alloc);
    for (key, write) in held.iter() {
        push_dangling(alloc, &mut found, held, key.as_str(), write)?;
    }
    Ok(found)
}

// Appends those of a resource.
fn push_dangling(
    alloc: Global,
    found: &mut Vec<Dangling>,
    held: &NameMap<AnyWrite>,
    from: &str,
    write: &AnyWrite,
) -> Result<(), Refusal>
    ensures { OnOk result (map leads_of found.new.items ≡ map leads_of found.old.items ++ missing held.now from.now (of_write write.now)) }
{
    let references = references_in(alloc, write)?;
    push_missing(alloc, found, held, from, &references)
}

// What the resource that a write puts refers to.
fn references_in(alloc: Global, write: &AnyWrite) -> Result<Vec<Reference>, Refusal>
    ensures { IfOk result (λ v. map refers_of v.items ≡ of_write write.now) }
{
    match write.value(alloc)? {
        Some(value) => references_of(alloc, write.type_name(), write.name(), &value),
        None => Ok(Vec::new(alloc)),
    }
}

// Appends those of some references.
fn push_missing(
    alloc: Global,
    found: &mut Vec<Dangling>,
    held: &NameMap<AnyWrite>,
    from: &str,
    references: &Vec<Reference>,
) -> Result<(), Refusal>
    ensures { OnOk result (map leads_of found.new.items ≡ map leads_of found.old.items ++ missing held.now from.now (map refers_of references.now.items)) }
{
    for reference in references {
        let to = key_of(alloc, reference.kind, reference.name.as_str())?;
        if !held.contains(to.as_str()) {
            let from = String::from_str(alloc, from)?;
            found.push(Dangling { from, to })?;
        }
    }
    Ok(())
}
