// Puts that are refused, where a server is asked for that: those by which the whole response of their type would be too long for a frame.
ghost use Rattle.std.specs.Prelude.{◌≡◌, IfOk};
ghost use Rattle.std.specs.Option.{option_or};
ghost use Rattle.xds_core.specs.Counts.{counts_of};
ghost use Rattle.xds_resource.specs.Any.{named_body, resource_type};
ghost use Rattle.xds_replicas.specs.Fitting.{grown_fault, put_fault, resource_fault, start_fault};
ghost use Rattle.xds_upkeep.specs.Linting.{looked_write};

use crate::replica::make_change;
use std::alloc::Global;
use std::sync::Wait;
use xds_changes::change::Change;
use xds_core::{Event, Marks};
use xds_message::Batch;
use xds_notes::{Fault, Lookout};
use xds_resource::{AnyResource, Refusal, Resource, ResourceType, Stamp, TypeName, Write};
use xds_rest::Served;
use xds_stats::{beyond_by, longest_bytes, refused_bytes};
use xds_upkeep::linting::put_of;
use xds_upkeep::storing::changed_since;

// More changes than there are.
const ALL: u64 = u64::MAX;

// The counts of changes after which only the entries of a type come.
fn before_type(kind: TypeName) -> Marks {
    let mut marks = Marks {
        cluster: ALL,
        endpoint: ALL,
        listener: ALL,
        route: ALL,
        secret: ALL,
    };
    match kind {
        TypeName::Cluster => marks.cluster = 0,
        TypeName::Endpoint => marks.endpoint = 0,
        TypeName::Listener => marks.listener = 0,
        TypeName::Route => marks.route = 0,
        TypeName::Secret => marks.secret = 0,
    }
    marks
}

/// Makes a change, unless it is one that the replica refuses. Answers its stamp.
pub fn make_fitting<R: Wait, A: Served>(
    rt: &R,
    alloc: Global,
    node: &A,
    seat: &mut A::Seat,
    event: Event,
    lookout: &Lookout,
) -> Result<Stamp, Fault> {
    if let Err(fault) = fits(rt, alloc, node, seat, &event, lookout) {
        drop(event);
        return Err(fault);
    }
    match make_change(rt, node, seat, event) {
        Ok(stamp) => Ok(stamp),
        Err(refusal) => Err(Fault::of(refusal)),
    }
}

// Whether a replica makes a change, over what it holds now.
fn fits<R: Wait, A: Served>(
    rt: &R,
    alloc: Global,
    node: &A,
    seat: &mut A::Seat,
    event: &Event,
    lookout: &Lookout,
) -> Result<(), Fault> {
    if !lookout.refuses_long() {
        return Ok(());
    }
    let Event::Put(resource, _) = event else {
        return Ok(());
    };
    match put_looked_at(rt, alloc, node, seat, resource, lookout.number()) {
        Ok(None) => Ok(()),
        Ok(Some(fault)) => Err(fault),
        Err(refusal) => Err(Fault::of(refusal)),
    }
}

// Why a put isn't made at the replica of this number, if it isn't.
fn put_looked_at<R: Wait, A: Served>(
    rt: &R,
    alloc: Global,
    node: &A,
    seat: &mut A::Seat,
    resource: &AnyResource,
    number: u16,
) -> Result<Option<Fault>, Refusal> {
    let marks = before_type(resource.type_name());
    let (held, marks) = changed_since(rt, node, seat, marks)?;
    let fault = put_fault(alloc, number, marks, &held, resource);
    drop(held);
    fault
}

// Why a put isn't made over what is held after so many changes, if it isn't.
fn put_fault(
    alloc: Global,
    number: u16,
    marks: Marks,
    held: &Batch,
    resource: &AnyResource,
) -> Result<Option<Fault>, Refusal>
    ensures { IfOk result (λ o. o ≡ resource_fault number (counts_of marks) held.now (resource_type resource.now) (named_body resource.now)) }
{
    match resource {
        AnyResource::Cluster(it) => {
            put_over(alloc, number, marks.cluster, held.cluster.as_slice(), it)
        }
        AnyResource::Endpoint(it) => {
            put_over(alloc, number, marks.endpoint, held.endpoint.as_slice(), it)
        }
        AnyResource::Listener(it) => {
            put_over(alloc, number, marks.listener, held.listener.as_slice(), it)
        }
        AnyResource::Route(it) => put_over(alloc, number, marks.route, held.route.as_slice(), it),
        AnyResource::Secret(it) => {
            put_over(alloc, number, marks.secret, held.secret.as_slice(), it)
        }
    }
}

fn put_over<T: ResourceType>(
    alloc: Global,
    number: u16,
    changes: u64,
    held: &[Write<T>],
    resource: &Resource<T>,
) -> Result<Option<Fault>, Refusal>
    ensures { IfOk result (λ o. o ≡ put_fault T.TYPE number changes (looked_write resource.now) held.now) }
{
    let put = put_of(alloc, resource)?;
    let fault = fault_over(alloc, number, changes, held, &put);
    drop(put);
    fault
}

// Why a put isn't made over the writes of its type after so many changes, if it isn't.
fn fault_over<T: ResourceType>(
    alloc: Global,
    number: u16,
    changes: u64,
    held: &[Write<T>],
    put: &Write<T>,
) -> Result<Option<Fault>, Refusal>
    ensures { IfOk result (λ o. o ≡ put_fault T.TYPE number changes put.now held.now) }
{
    match beyond_by(alloc, number, changes.saturating_add(1), put, held)? {
        Some(bytes) => Ok(Some(Fault::by_length(T::TYPE, bytes))),
        None => Ok(None),
    }
}

/// Why each of these changes isn't made for the length of a response, where those before it were made over what is held; nothing where
/// the replica doesn't refuse any for that. Those that are made together are told in one response, so what any of them deletes counts for
/// none.
pub fn long_among<R: Wait, A: Served>(
    rt: &R,
    alloc: Global,
    node: &A,
    seat: &mut A::Seat,
    changes: &[Change],
    are_together: bool,
    lookout: &Lookout,
) -> Result<Vec<Option<Fault>>, Refusal> {
    if !lookout.refuses_long() {
        return Ok(Vec::new(alloc));
    }
    let nothing = Marks {
        cluster: 0,
        endpoint: 0,
        listener: 0,
        route: 0,
        secret: 0,
    };
    let (held, marks) = changed_since(rt, node, seat, nothing)?;
    let mut held = held;
    if are_together {
        take_deleted(&mut held, changes);
    }
    let faults = faults_over(alloc, lookout.number(), marks, &mut held, changes);
    drop(held);
    faults
}

fn faults_over(
    alloc: Global,
    number: u16,
    marks: Marks,
    held: &mut Batch,
    changes: &[Change],
) -> Result<Vec<Option<Fault>>, Refusal> {
    let mut marks = marks;
    let mut faults = Vec::new(alloc);
    for change in changes {
        faults.push(look_at(alloc, number, &mut marks, held, &change.event)?)?;
    }
    Ok(faults)
}

// Why a change isn't made for the length of a response, if it isn't. Else it is made of what is held.
fn look_at(
    alloc: Global,
    number: u16,
    marks: &mut Marks,
    held: &mut Batch,
    event: &Event,
) -> Result<Option<Fault>, Refusal> {
    match event {
        Event::Put(resource, _) => {
            let fault = put_fault(alloc, number, *marks, held, resource)?;
            if fault.is_none() {
                count(marks, resource.type_name());
                put_in(alloc, held, resource)?;
            }
            Ok(fault)
        }
        Event::Delete(kind, name) => {
            count(marks, *kind);
            take_out(held, *kind, name.as_str());
            Ok(None)
        }
        _ => Ok(None),
    }
}

// One change more of a type.
fn count(marks: &mut Marks, kind: TypeName) {
    match kind {
        TypeName::Cluster => marks.cluster = marks.cluster.saturating_add(1),
        TypeName::Endpoint => marks.endpoint = marks.endpoint.saturating_add(1),
        TypeName::Listener => marks.listener = marks.listener.saturating_add(1),
        TypeName::Route => marks.route = marks.route.saturating_add(1),
        TypeName::Secret => marks.secret = marks.secret.saturating_add(1),
    }
}

// Puts a resource among what is held, in the place of the one of its name.
fn put_in(alloc: Global, held: &mut Batch, resource: &AnyResource) -> Result<(), Refusal> {
    match resource {
        AnyResource::Cluster(it) => put_among(alloc, &mut held.cluster, it),
        AnyResource::Endpoint(it) => put_among(alloc, &mut held.endpoint, it),
        AnyResource::Listener(it) => put_among(alloc, &mut held.listener, it),
        AnyResource::Route(it) => put_among(alloc, &mut held.route, it),
        AnyResource::Secret(it) => put_among(alloc, &mut held.secret, it),
    }
}

fn put_among<T: ResourceType>(
    alloc: Global,
    writes: &mut Vec<Write<T>>,
    resource: &Resource<T>,
) -> Result<(), Refusal> {
    let put = put_of(alloc, resource)?;
    take_name(writes, resource.name());
    match writes.push(put) {
        Ok(()) => Ok(()),
        Err(_) => Err(Refusal::OutOfMemory),
    }
}

// Takes the write of a name out of what is held, if there is one.
fn take_out(held: &mut Batch, kind: TypeName, name: &str) {
    match kind {
        TypeName::Cluster => take_name(&mut held.cluster, name),
        TypeName::Endpoint => take_name(&mut held.endpoint, name),
        TypeName::Listener => take_name(&mut held.listener, name),
        TypeName::Route => take_name(&mut held.route, name),
        TypeName::Secret => take_name(&mut held.secret, name),
    }
}

// Takes what changes delete out of what is held.
fn take_deleted(held: &mut Batch, changes: &[Change]) {
    for change in changes {
        if let Event::Delete(kind, name) = &change.event {
            take_out(held, *kind, name.as_str());
        }
    }
}

fn take_name<T: ResourceType>(writes: &mut Vec<Write<T>>, name: &str) {
    let Some(place) = place_of(writes.as_slice(), name) else {
        return;
    };
    if place < writes.len() {
        drop(writes.swap_remove(place));
    }
}

fn place_of<T: ResourceType>(writes: &[Write<T>], name: &str) -> Option<usize> {
    let mut place = 0usize;
    for write in writes {
        if write.name() == name {
            return Some(place);
        }
        place = place.saturating_add(1);
    }
    None
}

/// Why what a server begins with isn't taken by the first replica, whose number this is: the whole response of a type would be too long,
/// and longer than by what was there before.
pub fn start_fault(
    alloc: Global,
    number: u16,
    before: &Batch,
    after: &Batch,
) -> Result<Option<Fault>, Refusal>
    ensures { IfOk result (λ o. o ≡ start_fault number before.now after.now) }
{
    let cluster = grown_fault(
        alloc,
        number,
        before.cluster.as_slice(),
        after.cluster.as_slice(),
    )?;
    let endpoint = grown_fault(
        alloc,
        number,
        before.endpoint.as_slice(),
        after.endpoint.as_slice(),
    )?;
    let listener = grown_fault(
        alloc,
        number,
        before.listener.as_slice(),
        after.listener.as_slice(),
    )?;
    let route = grown_fault(
        alloc,
        number,
        before.route.as_slice(),
        after.route.as_slice(),
    )?;
    let secret = grown_fault(
        alloc,
        number,
        before.secret.as_slice(),
        after.secret.as_slice(),
    )?;
    let first = either(either(cluster, endpoint), listener);
    Ok(either(either(first, route), secret))
}

fn either(one: Option<Fault>, other: Option<Fault>) -> Option<Fault>
    ensures { result ≡ option_or one other }
{
    match one {
        Some(fault) => Some(fault),
        None => other,
    }
}

// The same of a type, of which there were no more changes than there are writes.
fn grown_fault<T: ResourceType>(
    alloc: Global,
    number: u16,
    before: &[Write<T>],
    after: &[Write<T>],
) -> Result<Option<Fault>, Refusal>
    ensures { IfOk result (λ o. o ≡ grown_fault T.TYPE number before.now after.now) }
{
    let changes = after.len() as u64;
    let had = longest_bytes(alloc, number, changes, before)?;
    let has = longest_bytes(alloc, number, changes, after)?;
    match refused_bytes(had, has) {
        Some(bytes) => Ok(Some(Fault::by_length(T::TYPE, bytes))),
        None => Ok(None),
    }
}
