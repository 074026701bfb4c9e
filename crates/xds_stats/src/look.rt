// How much a replica holds.
ghost use Rattle.std.specs.Prelude.{◌≡◌, IfOk, IfErr};
ghost use Rattle.xds_resource.specs.declared.types.TypeName.TheVariants as types;
ghost use Rattle.xds_stats.specs.Looks.{counted_more, held_by_count, held_of};

use crate::numbers::more;
use crate::sizes::response_bytes;
use std::alloc::Global;
use xds_events::{Marks, Reply};
use xds_message::Batch;
use xds_resource::{Refusal, ResourceType, TypeName, Write};

/// How much a replica holds of a type.
#[derive(Clone, Copy, Debug, PartialEq, Eq)]
pub struct TypeSizes {
    /// How many changes there were.
    pub changes: u64,
    /// How many resources are live.
    pub resources: u64,
    /// How many deletions are remembered.
    pub tombstones: u64,
    /// How many bytes the whole response of all that is live has.
    pub bytes: u64,
}

/// How much a replica holds, of each type.
#[derive(Clone, Copy, Debug, PartialEq, Eq)]
pub struct ReplicaSizes {
    pub cluster: TypeSizes,
    pub endpoint: TypeSizes,
    pub listener: TypeSizes,
    pub route: TypeSizes,
    pub secret: TypeSizes,
}

impl ReplicaSizes {
    ghost use Rattle.std.specs.Prelude.{◌≡◌};
    ghost use Rattle.xds_stats.specs.Looks.{held_at};

    /// What is held of a type.
    pub fn of(&self, kind: TypeName) -> TypeSizes
        ensures { result ≡ held_at self.now kind }
    {
        match kind {
            TypeName::Cluster => self.cluster,
            TypeName::Endpoint => self.endpoint,
            TypeName::Listener => self.listener,
            TypeName::Route => self.route,
            TypeName::Secret => self.secret,
        }
    }
}

// Counts one entry more.
fn count<T: ResourceType>(held: TypeSizes, write: &Write<T>) -> TypeSizes
    ensures { result ≡ counted_more write.now held }
{
    let mut held = held;
    match write.body() {
        Some(_) => held.resources = more(held.resources),
        None => held.tombstones = more(held.tombstones),
    }
    held
}

// How much is held of a type, by all its entries, but for the bytes of a response.
fn held_by_count<T: ResourceType>(changes: u64, writes: &[Write<T>]) -> TypeSizes
    ensures { result ≡ held_by_count changes writes.now }
{
    let mut held = TypeSizes {
        changes,
        resources: 0,
        tombstones: 0,
        bytes: 0,
    };
    for write in writes {
        held = count(held, write);
    }
    held
}

// What is held of a type at the replica of this number, by all its entries.
fn held_of<T: ResourceType>(
    alloc: Global,
    replica: u16,
    changes: u64,
    writes: &[Write<T>],
) -> Result<TypeSizes, Refusal>
    ensures ok { IfOk result (λ h. h ≡ held_of T.TYPE replica changes writes.now) }
    ensures refused { IfErr result (λ e. e ≡ Refusal.OutOfMemory) }
{
    let mut held = held_by_count(changes, writes);
    held.bytes = response_bytes(alloc, replica, changes, writes)?;
    Ok(held)
}

/// How much is held at the replica of this number where all entries are these, and there were so many changes.
pub fn look_of(
    alloc: Global,
    replica: u16,
    batch: &Batch,
    marks: Marks,
) -> Result<ReplicaSizes, Refusal>
    ensures cluster { IfOk result (λ l. l.cluster ≡ held_of types.Cluster replica marks.cluster batch.now.cluster) }
    ensures endpoint { IfOk result (λ l. l.endpoint ≡ held_of types.Endpoint replica marks.endpoint batch.now.endpoint) }
    ensures listener { IfOk result (λ l. l.listener ≡ held_of types.Listener replica marks.listener batch.now.listener) }
    ensures route { IfOk result (λ l. l.route ≡ held_of types.Route replica marks.route batch.now.route) }
    ensures secret { IfOk result (λ l. l.secret ≡ held_of types.Secret replica marks.secret batch.now.secret) }
    ensures refused { IfErr result (λ e. e ≡ Refusal.OutOfMemory) }
{
    Ok(ReplicaSizes {
        cluster: held_of(alloc, replica, marks.cluster, batch.cluster.as_slice())?,
        endpoint: held_of(alloc, replica, marks.endpoint, batch.endpoint.as_slice())?,
        listener: held_of(alloc, replica, marks.listener, batch.listener.as_slice())?,
        route: held_of(alloc, replica, marks.route, batch.route.as_slice())?,
        secret: held_of(alloc, replica, marks.secret, batch.secret.as_slice())?,
    })
}

/// What a reply says of all that is held at the replica of this number, if it does.
pub fn look_in(alloc: Global, replica: u16, reply: &Reply) -> Result<ReplicaSizes, Refusal> {
    match reply {
        Reply::Changed(batch, marks) => look_of(alloc, replica, batch, *marks),
        _ => Err(Refusal::OutOfMemory),
    }
}
