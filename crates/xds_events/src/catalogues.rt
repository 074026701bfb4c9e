// What a replica holds of each type.
ghost use Rattle.std.specs.Prelude.{◌≡◌, ◌≤◌, [], ◌∷◌, false, nat_lt, IsOk, IfOk, IfErr, OnErr};
ghost use Rattle.std.specs.FinMap as finmap;
ghost use Rattle.xds_resource.specs.Any.{resource_type, named_body, write_type, stamped_write};
ghost use Rattle.xds_resource.specs.PerType.{at, each, with_at};
ghost use Rattle.xds_resource.specs.Refusals.{Gives, unless_refused};
ghost use Rattle.xds_resource.specs.Stamps.{max_counter};
ghost use Rattle.xds_resource.specs.declared.refusal.Refusal.TheVariants.{CounterSpent, OutOfMemory};
ghost use Rattle.xds_catalogue.specs.Holdings.{nothing_held};
ghost use Rattle.xds_catalogue.specs.Joins.{joined};
ghost use Rattle.xds_catalogue.specs.Local.{putting, deleting};
ghost use Rattle.xds_events.specs.Counts.{counts_of};
ghost use Rattle.xds_events.specs.Since.{changed_since};
ghost use Rattle.xds_events.specs.Stores.{merging, is_spent, joining_at, putting_at, deleting_at, all_entries};

use crate::changed::changed_after;
use crate::parts::{five, put};
use crate::pending::Pending;
use std::alloc::Global;
use std::marker::Model;
use std::mem;
use xds_catalogue::Catalogue;
use xds_message::Batch;
use xds_resource::{
    AnyResource, AnyWrite, Cluster, Endpoint, Groups, Listener, Refusal, ResourceType, Route,
    Secret, Stamp, TypeName, Write,
};
use xds_sessions::Published;

/// How many writes added or replaced an entry, of each type.
#[derive(Clone, Copy, Debug)]
pub struct Marks {
    pub cluster: u64,
    pub endpoint: u64,
    pub listener: u64,
    pub route: u64,
    pub secret: u64,
}

/// What a replica holds of each type.
#[derive(Drop)]
pub struct Catalogues {
    pub cluster: Published<Cluster>,
    pub endpoint: Published<Endpoint>,
    pub listener: Published<Listener>,
    pub route: Published<Route>,
    pub secret: Published<Secret>,
}

impl Model for Catalogues {
    ghost use Rattle.xds_resource.specs.PerType.{PerType, per_type_code};
    ghost use Rattle.xds_catalogue.specs.Holdings.{Holdings, holdings_code};

    ghost Value = { PerType Holdings };

    ghost coded = { per_type_code holdings_code };

    ghost view = { λ c. record { cluster = c.cluster; endpoint = c.endpoint; listener = c.listener; route = c.route; secret = c.secret } };
}

impl Catalogues {
    /// Catalogues that hold nothing.
    pub fn new(alloc: Global) -> Catalogues
        ensures { result ≡ each nothing_held }
    {
        Catalogues {
            cluster: nothing(alloc),
            endpoint: nothing(alloc),
            listener: nothing(alloc),
            route: nothing(alloc),
            secret: nothing(alloc),
        }
    }

    /// Joins a write to the catalogue of its type.
    pub fn join(&mut self, write: AnyWrite) -> Result<(), Refusal>
        ensures joins { Gives (λ _. self.new) result (joining_at self.old (write_type write) (stamped_write write)) }
        ensures memory { IfErr result (λ e. e ≡ OutOfMemory → IsOk (joining_at self.old (write_type write) (stamped_write write))) }
        ensures err { OnErr result (self.new ≡ self.old) }
    {
        match write {
            AnyWrite::Cluster(write) => join_one(&mut self.cluster, write),
            AnyWrite::Endpoint(write) => join_one(&mut self.endpoint, write),
            AnyWrite::Listener(write) => join_one(&mut self.listener, write),
            AnyWrite::Route(write) => join_one(&mut self.route, write),
            AnyWrite::Secret(write) => join_one(&mut self.secret, write),
        }
    }

    /// Puts a resource with these groups, as a new write even where an equal body stands, and whatever groups that had.
    /// `writer` is the number of this replica, from 1.
    pub fn put(
        &mut self,
        resource: AnyResource,
        groups: Groups,
        writer: u16,
    ) -> Result<Stamp, Refusal>
        requires { 1 ≤ writer }
        ensures puts { Gives (λ s. (s.counter, self.new)) result (putting_at self.old (resource_type resource) (named_body resource) groups writer) }
        ensures memory { IfErr result (λ e. e ≡ OutOfMemory → IsOk (putting_at self.old (resource_type resource) (named_body resource) groups writer)) }
        ensures writer { IfOk result (λ s. s.writer ≡ writer) }
        ensures err { OnErr result (self.new ≡ self.old) }
    {
        match resource {
            AnyResource::Cluster(resource) => self.cluster.put(resource, groups, writer),
            AnyResource::Endpoint(resource) => self.endpoint.put(resource, groups, writer),
            AnyResource::Listener(resource) => self.listener.put(resource, groups, writer),
            AnyResource::Route(resource) => self.route.put(resource, groups, writer),
            AnyResource::Secret(resource) => self.secret.put(resource, groups, writer),
        }
    }

    /// Deletes the live resource of a name; the write stays for good. `writer` is the number of this replica, from 1.
    pub fn delete(&mut self, kind: TypeName, name: &str, writer: u16) -> Result<Stamp, Refusal>
        requires { 1 ≤ writer }
        ensures deletes { Gives (λ s. (s.counter, self.new)) result (deleting_at self.old kind name.now writer) }
        ensures memory { IfErr result (λ e. e ≡ OutOfMemory → IsOk (deleting_at self.old kind name.now writer)) }
        ensures writer { IfOk result (λ s. s.writer ≡ writer) }
        ensures err { OnErr result (self.new ≡ self.old) }
    {
        match kind {
            TypeName::Cluster => self.cluster.delete(name, writer),
            TypeName::Endpoint => self.endpoint.delete(name, writer),
            TypeName::Listener => self.listener.delete(name, writer),
            TypeName::Route => self.route.delete(name, writer),
            TypeName::Secret => self.secret.delete(name, writer),
        }
    }

    // rule: refused-event
    /// Joins the writes of a batch, all or none. Answers by how much the changes grew, over all types.
    pub fn join_all(&mut self, alloc: Global, batch: Batch) -> Result<u128, Refusal>
        ensures joins { Gives (λ n. (n, self.new)) result (merging self.old batch) }
        ensures memory { IfErr result (λ e. e ≡ OutOfMemory → IsOk (merging self.old batch)) }
        ensures err { OnErr result (self.new ≡ self.old) }
    {
        if self.is_spent_by(&batch) {
            drop(batch);
            return Err(Refusal::CounterSpent);
        }
        let held = mem::replace(self, Catalogues::new(alloc));
        match Pending::start(alloc, held, batch) {
            Ok(pending) => {
                let grown = pending.grown();
                put(self, pending.finish());
                Ok(grown)
            }
            Err(held) => {
                put(self, held);
                Err(Refusal::OutOfMemory)
            }
        }
    }

    // rule: refused-event
    // Whether a batch makes more changes of some type than can be counted. It takes no memory.
    fn is_spent_by(&self, batch: &Batch) -> bool
        ensures { result ≡ is_spent self.now batch.now }
    {
        self.cluster.catalogue().is_spent_by(&batch.cluster)
            || self.endpoint.catalogue().is_spent_by(&batch.endpoint)
            || self.listener.catalogue().is_spent_by(&batch.listener)
            || self.route.catalogue().is_spent_by(&batch.route)
            || self.secret.catalogue().is_spent_by(&batch.secret)
    }

    // rule: tombstones
    /// All that is held, deletions included, of each type in ascending order of names. No body is copied.
    pub fn entries(&self, alloc: Global) -> Result<Batch, Refusal>
        ensures ok { IfOk result (λ b. b ≡ all_entries self.now) }
        ensures refused { IfErr result (λ e. e ≡ OutOfMemory) }
    {
        let (cluster, endpoint, listener, route, secret) = five(
            writes_of(alloc, self.cluster.catalogue()),
            writes_of(alloc, self.endpoint.catalogue()),
            writes_of(alloc, self.listener.catalogue()),
            writes_of(alloc, self.route.catalogue()),
            writes_of(alloc, self.secret.catalogue()),
        )?;
        Ok(Batch {
            cluster,
            endpoint,
            listener,
            route,
            secret,
        })
    }

    /// All that is held of one type, as a batch. No body is copied.
    pub fn entries_of(&self, alloc: Global, kind: TypeName) -> Result<Batch, Refusal>
        ensures ok { IfOk result (λ b. b ≡ with_at (each []) kind (finmap.values (at self.now kind).entries)) }
        ensures refused { IfErr result (λ e. e ≡ OutOfMemory) }
    {
        let mut batch = Batch::new(alloc);
        match kind {
            TypeName::Cluster => batch.cluster = writes_of(alloc, self.cluster.catalogue())?,
            TypeName::Endpoint => batch.endpoint = writes_of(alloc, self.endpoint.catalogue())?,
            TypeName::Listener => batch.listener = writes_of(alloc, self.listener.catalogue())?,
            TypeName::Route => batch.route = writes_of(alloc, self.route.catalogue())?,
            TypeName::Secret => batch.secret = writes_of(alloc, self.secret.catalogue())?,
        }
        Ok(batch)
    }

    // rule: marks
    /// The entries that changed after these counts of changes, deletions included, of each type in ascending order of names.
    /// For m such entries it takes some m log n steps, however many are held. No body is copied. Refused only by
    /// `OutOfMemory`.
    pub fn since(&self, alloc: Global, marks: Marks) -> Result<Batch, Refusal>
        ensures ok { IfOk result (λ b. b ≡ changed_since self.now (counts_of marks)) }
        ensures refused { IfErr result (λ e. e ≡ OutOfMemory) }
    {
        let (cluster, endpoint, listener, route, secret) = five(
            changed_after(alloc, self.cluster.catalogue(), marks.cluster),
            changed_after(alloc, self.endpoint.catalogue(), marks.endpoint),
            changed_after(alloc, self.listener.catalogue(), marks.listener),
            changed_after(alloc, self.route.catalogue(), marks.route),
            changed_after(alloc, self.secret.catalogue(), marks.secret),
        )?;
        Ok(Batch {
            cluster,
            endpoint,
            listener,
            route,
            secret,
        })
    }

    // rule: marks
    /// The counts of changes of all types.
    pub fn marks(&self) -> Marks
        ensures cluster { result.cluster ≡ self.now.cluster.changes }
        ensures endpoint { result.endpoint ≡ self.now.endpoint.changes }
        ensures listener { result.listener ≡ self.now.listener.changes }
        ensures route { result.route ≡ self.now.route.changes }
        ensures secret { result.secret ≡ self.now.secret.changes }
    {
        Marks {
            cluster: self.cluster.catalogue().changes(),
            endpoint: self.endpoint.catalogue().changes(),
            listener: self.listener.catalogue().changes(),
            route: self.route.catalogue().changes(),
            secret: self.secret.catalogue().changes(),
        }
    }

    /// How many writes of the type added or replaced an entry.
    pub fn changes(&self, kind: TypeName) -> u64
        ensures { result ≡ (at self.now kind).changes }
    {
        match kind {
            TypeName::Cluster => self.cluster.catalogue().changes(),
            TypeName::Endpoint => self.endpoint.catalogue().changes(),
            TypeName::Listener => self.listener.catalogue().changes(),
            TypeName::Route => self.route.catalogue().changes(),
            TypeName::Secret => self.secret.catalogue().changes(),
        }
    }

    /// Equal catalogues, with memory of their own. Refused only by `OutOfMemory`.
    pub fn try_copy(&self, alloc: Global) -> Result<Catalogues, Refusal>
        ensures ok { IfOk result (λ c. c ≡ self.now) }
        ensures refused { IfErr result (λ e. e ≡ OutOfMemory) }
    {
        let (cluster, endpoint, listener, route, secret) = five(
            self.cluster.try_copy(alloc),
            self.endpoint.try_copy(alloc),
            self.listener.try_copy(alloc),
            self.route.try_copy(alloc),
            self.secret.try_copy(alloc),
        )?;
        Ok(Catalogues {
            cluster,
            endpoint,
            listener,
            route,
            secret,
        })
    }
}

// A catalogue that holds nothing.
fn nothing<T: ResourceType>(alloc: Global) -> Published<T>
    ensures { result ≡ nothing_held }
{
    Published::of(alloc, Catalogue::new(alloc))
}

// Joins a write to the catalogue of its type, whose entry may have changed.
fn join_one<T: ResourceType>(catalogue: &mut Published<T>, write: Write<T>) -> Result<(), Refusal>
    ensures joins { Gives (λ _. catalogue.new) result
        (unless_refused
        ((nat_lt max_counter (joined catalogue.old (write ∷ [])).changes, CounterSpent) ∷ [])
        (joined catalogue.old (write ∷ []))) }
    ensures memory { IfErr result (λ e. e ≡ OutOfMemory → nat_lt max_counter (joined catalogue.old (write ∷ [])).changes ≡ false) }
    ensures err { OnErr result (catalogue.new ≡ catalogue.old) }
{
    catalogue.join_write(write)?;
    Ok(())
}

// rule: tombstones
// All that a catalogue holds.
fn writes_of<T: ResourceType>(
    alloc: Global,
    catalogue: &Catalogue<T>,
) -> Result<Vec<Write<T>>, Refusal>
    ensures ok { IfOk result (λ v. v.items ≡ finmap.values catalogue.now.entries) }
    ensures refused { IfErr result (λ e. e ≡ OutOfMemory) }
{
    let entries = catalogue.entries(alloc)?;
    let mut writes = Vec::new(alloc);
    for write in &entries {
        writes.push(write.try_copy(alloc)?)?;
    }
    Ok(writes)
}
