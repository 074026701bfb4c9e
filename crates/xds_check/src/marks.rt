// Names with marks: those that wait for an answer, and nonces that were used.
ghost use Rattle.std.specs.Prelude.{◌≡◌, ℕ, List, map, string_bytes, IfOk, IfErr, OnOk, Some, None, true, not, ◌&&◌, ◌||◌, is_some, if◌then◌else◌};
ghost use Rattle.std.specs.FinMap as finmap;
ghost use Rattle.std.specs.FinSet as set;
ghost use Rattle.xds_resource.specs.declared.refusal.Refusal.TheVariants.{OutOfMemory};
ghost use Rattle.xds_resource.specs.Names.{put_each};
ghost use Rattle.xds_interest.specs.Interests.{has_name, is_star as is_star_of};
ghost use Rattle.xds_check.specs.Kept as kept;
ghost use Rattle.xds_check.specs.Kept.{unmarked, listed_marks, mentioned_marks, left_marks, joined_mark};

use crate::statement::Statement;
use std::alloc::Global;
use xds_interest::Interest;
use xds_message::{DeltaDiscoveryRequest, Versions};
use xds_resource::{NameMap, Refusal, ResourceType, TypeName};

// Whether a name is marked.
pub(crate) fn is_marked(marks: &NameMap<bool>, name: &str) -> bool
    ensures { result ≡ kept.is_marked marks.now name.now }
{
    match marks.get(name) {
        Some(mark) => *mark,
        None => false,
    }
}

// rule: star-covers
// Whether a text in a request of the type is the star.
fn is_star(kind: TypeName, text: &str) -> bool
    ensures { result ≡ is_star_of kind text.now }
{
    kind.is_complete() && "*" == text
}

// Each of these names with the mark true.
pub(crate) fn marks_of(alloc: Global, names: &[String]) -> Result<NameMap<bool>, Refusal>
    ensures ok { IfOk result (λ m. (name : List ℕ) → is_some (finmap.get m name) ≡ has_name (map string_bytes names.now) name) }
    ensures refused { IfErr result (λ e. e ≡ OutOfMemory) }
{
    let mut marks = NameMap::new(alloc);
    for name in names {
        marks.put(alloc, name.as_str(), Some(true))?;
    }
    Ok(marks)
}

// The explicit names of an interest.
pub(crate) fn explicit_names<T: ResourceType>(
    alloc: Global,
    interest: &Interest<T>,
) -> Result<NameMap<bool>, Refusal>
    ensures ok { IfOk result (λ m. (name : List ℕ) → is_some (finmap.get m name) ≡ set.contains interest.now.names name) }
    ensures refused { IfErr result (λ e. e ≡ OutOfMemory) }
{
    let mut marks = NameMap::new(alloc);
    for name in interest.names() {
        marks.put(alloc, name.as_str(), Some(true))?;
    }
    Ok(marks)
}

// rule: awaited-names
// Takes the marks of these names. It takes no memory.
pub(crate) fn unmark(marks: &mut NameMap<bool>, names: &[String])
    ensures { marks.new ≡ unmarked marks.old (map string_bytes names.now) }
{
    for name in names {
        drop(marks.remove(name.as_str()));
    }
}

// rule: awaited-names
// Takes the marks of the names of resources. It takes no memory.
pub(crate) fn unmark_stated(marks: &mut NameMap<bool>, statements: &[Statement])
    ensures { marks.new ≡ unmarked marks.old (map (λ x. x.name) statements.now) }
{
    for statement in statements {
        drop(marks.remove(statement.name()));
    }
}

// The mark of a name, if it waits.
fn mark_if(waits: bool) -> Option<bool>
    ensures { result ≡ (if waits then Some true else None) }
{
    if waits { Some(true) } else { None }
}

// rule: awaited-names
// Whether a name waits that a request of the state of the world lists, by the names that were explicit.
fn listed_mark_of(
    kind: TypeName,
    explicit: &NameMap<bool>,
    before: &NameMap<bool>,
    name: &str,
) -> bool
    ensures { result ≡ (not (is_star_of kind name.now) && (kept.is_marked before.now name.now || not (is_some (finmap.get explicit.now name.now)))) }
{
    !is_star(kind, name) && (is_marked(before, name) || !explicit.contains(name))
}

// rule: awaited-names
// The names that wait once a request of the state of the world is taken that lists these.
pub(crate) fn listed<T: ResourceType>(
    alloc: Global,
    interest: &Interest<T>,
    before: &NameMap<bool>,
    names: &[String],
) -> Result<NameMap<bool>, Refusal>
    ensures ok { IfOk result (λ m. m ≡ listed_marks T.TYPE interest.now before.now (map string_bytes names.now)) }
    ensures refused { IfErr result (λ e. e ≡ OutOfMemory) }
{
    let explicit = explicit_names(alloc, interest)?;
    let mut marks = NameMap::new(alloc);
    for name in names {
        let waits = listed_mark_of(T::TYPE, &explicit, before, name.as_str());
        marks.put(alloc, name.as_str(), mark_if(waits))?;
    }
    Ok(marks)
}

// rule: awaited-names
// Takes the marks of the names that a delta request unsubscribes and doesn't subscribe.
fn leave(
    alloc: Global,
    marks: &mut NameMap<bool>,
    subscribe: &[String],
    unsubscribe: &[String],
) -> Result<(), Refusal>
    ensures ok { OnOk result (marks.new ≡ left_marks (map string_bytes subscribe.now) marks.old (map string_bytes unsubscribe.now)) }
    ensures refused { IfErr result (λ e. e ≡ OutOfMemory) }
{
    let subscribed = marks_of(alloc, subscribe)?;
    for name in unsubscribe {
        leave_one(marks, &subscribed, name.as_str());
    }
    Ok(())
}

// rule: awaited-names
// Takes the mark of a name that a delta request unsubscribes, which subscribes these.
fn leave_one(marks: &mut NameMap<bool>, subscribed: &NameMap<bool>, name: &str)
    ensures { marks.new ≡ (if not (is_some (finmap.get subscribed.now name.now)) then finmap.remove marks.old name.now else marks.old) }
{
    if !subscribed.contains(name) {
        drop(marks.remove(name));
    }
}

// rule: awaited-names
// What a delta request says of a name that it subscribes.
fn joined_mark_of(kind: TypeName, begun: bool, versions: &Versions, name: &str) -> Option<bool>
    ensures { result ≡ joined_mark kind begun versions.now name.now }
{
    if is_star(kind, name) {
        return None;
    }
    if begun || versions.get(name).is_none() {
        return Some(true);
    }
    None
}

// rule: awaited-names
// Marks the names that a delta request subscribes and that its client doesn't say to have.
fn join(
    alloc: Global,
    kind: TypeName,
    begun: bool,
    versions: &Versions,
    marks: &mut NameMap<bool>,
    subscribe: &[String],
) -> Result<(), Refusal>
    ensures ok { OnOk result (marks.new ≡ put_each (joined_mark kind begun versions.now) marks.old (map string_bytes subscribe.now)) }
    ensures refused { IfErr result (λ e. e ≡ OutOfMemory) }
{
    for name in subscribe {
        let mark = joined_mark_of(kind, begun, versions, name.as_str());
        marks.put(alloc, name.as_str(), mark)?;
    }
    Ok(())
}

// rule: awaited-names
// Leaves the names waiting that wait once a delta request is taken.
pub(crate) fn mention(
    alloc: Global,
    kind: TypeName,
    begun: bool,
    marks: &mut NameMap<bool>,
    request: &DeltaDiscoveryRequest,
) -> Result<(), Refusal>
    ensures ok { OnOk result (marks.new ≡ mentioned_marks kind begun request.now marks.old) }
    ensures refused { IfErr result (λ e. e ≡ OutOfMemory) }
{
    let subscribe = &request.resource_names_subscribe;
    leave(alloc, marks, subscribe, &request.resource_names_unsubscribe)?;
    let versions = &request.initial_resource_versions;
    join(alloc, kind, begun, versions, marks, subscribe)
}
