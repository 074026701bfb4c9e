// What is to be changed of what is held, so that exactly what is wanted is held.
ghost use Rattle.std.specs.Prelude.{◌≡◌, ◌++◌, map, string_bytes, IfOk, OnOk};
ghost use Rattle.std.specs.Option.{option_map};
ghost use Rattle.std.specs.FinMap as finmap;
ghost use Rattle.xds_sources.specs.Differences.{difference, edit_of, puts_of, deletes_of, stands, is_for_all, puts_body};
ghost use Rattle.xds_resource.specs.Any.{stamped_write};

use crate::reading::FileResource;
use std::alloc::Global;
use xds_resource::{AnyResource, AnyWrite, NameMap, Refusal, TypeName};

/// A change by which what is wanted comes to be held.
#[derive(Drop)]
pub enum SourceChange {
    /// To put a resource, for all clients.
    Put(AnyResource),
    /// To delete the resource of this type and name.
    Delete(TypeName, String),
}

/// The changes by which exactly what is wanted is held, where these writes of live resources are held, both by type and name: first the
/// puts of what isn't held so, in the order of types, then the deletions of what isn't wanted. Nothing is put that is held so for all
/// clients.
pub fn difference(
    alloc: Global,
    held: &NameMap<AnyWrite>,
    wanted: &NameMap<FileResource>,
) -> Result<Vec<SourceChange>, Refusal>
    ensures { IfOk result (λ v. map edit_of v.items ≡ difference held.now wanted.now) }
{
    let mut changes = Vec::new(alloc);
    push_puts(alloc, &mut changes, held, wanted)?;
    push_deletes(alloc, &mut changes, held, wanted)?;
    Ok(changes)
}

// Appends the puts of what isn't held as it is wanted.
fn push_puts(
    alloc: Global,
    changes: &mut Vec<SourceChange>,
    held: &NameMap<AnyWrite>,
    wanted: &NameMap<FileResource>,
) -> Result<(), Refusal>
    ensures { OnOk result (map edit_of changes.new.items ≡ map edit_of changes.old.items ++ puts_of held.now (finmap.entries wanted.now)) }
{
    for (key, one) in wanted.iter() {
        if !stands(held.get(key.as_str()), &one.resource) {
            changes.push(SourceChange::Put(one.resource.try_copy(alloc)?))?;
        }
    }
    Ok(())
}

// Whether a write puts this resource, for all clients.
fn stands(write: Option<&AnyWrite>, resource: &AnyResource) -> bool
    ensures { result ≡ stands (option_map (λ w. w.now) write.entry) resource.now }
{
    match write {
        Some(write) => puts_body(write, resource.body()),
        None => false,
    }
}

// Whether a write puts this body, for all clients.
fn puts_body(write: &AnyWrite, body: &str) -> bool
    ensures { result ≡ puts_body (stamped_write write.now) body.now }
{
    match write.body() {
        Some(text) => text == body && is_for_all(write.groups().texts()),
        None => false,
    }
}

// Whether no group is named.
fn is_for_all(groups: &[String]) -> bool
    ensures { result ≡ is_for_all (map string_bytes groups.now) }
{
    groups.is_empty()
}

// Appends the deletions of what isn't wanted.
fn push_deletes(
    alloc: Global,
    changes: &mut Vec<SourceChange>,
    held: &NameMap<AnyWrite>,
    wanted: &NameMap<FileResource>,
) -> Result<(), Refusal>
    ensures { OnOk result (map edit_of changes.new.items ≡ map edit_of changes.old.items ++ deletes_of wanted.now (finmap.entries held.now)) }
{
    for (key, write) in held.iter() {
        if !wanted.contains(key.as_str()) {
            let name = String::from_str(alloc, write.name())?;
            changes.push(SourceChange::Delete(write.type_name(), name))?;
        }
    }
    Ok(())
}
