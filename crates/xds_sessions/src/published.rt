// The catalogue of one type, with what many clients are told of it.
ghost use Rattle.std.specs.Prelude.{◌≡◌, ◌≤◌, ◌∷◌, [], IfSome, IsOk, IfOk, IfErr, OnErr};
ghost use Rattle.std.specs.FinMap as finmap;
ghost use Rattle.xds_resource.specs.Refusals.{Gives};
ghost use Rattle.xds_resource.specs.Stamps.{max_counter};
ghost use Rattle.xds_catalogue.specs.Joins.{joined, joining};
ghost use Rattle.xds_catalogue.specs.Local.{putting, deleting};
ghost use Rattle.xds_ledger.specs.declared.variant.VariantName.TheVariants as variants;
ghost use Rattle.xds_ledger.specs.Offers as ledgers;
ghost use Rattle.xds_sessions.specs.SotwPolls as sotw;
ghost use Rattle.xds_sessions.specs.DeltaPolls as delta;
ghost use Rattle.xds_sessions.specs.Wildcards.{IsShared, SaysItsOffer, all_of};

use crate::delta_response::{Said, said_by};
use crate::sotw_response::stated_bodies;
use crate::wildcards::{Wildcard, Wildcards, names_of};
use std::alloc::Global;
use std::marker::Model;
use xds_catalogue::{Catalogue, PendingJoin};
use xds_interest::Interest;
use xds_ledger::{Beliefs, Due, Listed, SharedMap, VariantName, offer};
use xds_message::Bodies;
use xds_resource::{Groups, Refusal, Resource, ResourceType, Stamp, Write};

/// The catalogue of the type `T`. Contracts see what it holds. Beside it is kept what all clients of a cluster are told that
/// want everything and hold nothing, and what one was told that holds something: made once, shared by their responses, and let go
/// when something changes, or where it would be kept for more than 16 clusters.
pub struct Published<T: ResourceType> {
    catalogue: Catalogue<T>,
    wildcards: Wildcards,
    alloc: Global,
}

// Written out: docs/PROVING.md, "Drops".
impl<T: ResourceType> Drop for Published<T> {
    fn drop(self) {
        let Published {
            catalogue: _,
            wildcards: _,
            alloc: _,
        } = self;
    }
}

impl<T: ResourceType> Model for Published<T> {
    ghost use Rattle.xds_catalogue.specs.Holdings.{Holdings, holdings_code};
    ghost use Rattle.xds_sessions.specs.Wildcards.{Fits};

    ghost Value = { Holdings };

    ghost coded = { holdings_code };

    ghost view = { λ p. p.catalogue };

    ghost invariant = { λ p. Fits T.TYPE p.catalogue.entries p.wildcards };
}

// Puts a value in the place of another. Of a type parameter, a drop is one step to the proof.
fn put<V: Drop>(place: &mut V, value: V)
    ensures { place.new ≡ value }
{
    *place = value;
}

impl<T: ResourceType> Published<T> {
    /// A catalogue of which nothing was told yet.
    pub fn of(alloc: Global, catalogue: Catalogue<T>) -> Published<T>
        ensures { result ≡ catalogue }
    {
        Published {
            catalogue,
            wildcards: Wildcards::none(alloc),
            alloc,
        }
    }

    /// The catalogue.
    pub fn catalogue(&self) -> &Catalogue<T>
        ensures { result.now ≡ self.now }
    {
        &self.catalogue
    }

    // rule: best-writes
    /// Joins a write: it stands if it is greater than what stands under its name. Answers by how much the
    /// changes grew, 0 or 1.
    pub fn join_write(&mut self, write: Write<T>) -> Result<u64, Refusal>
        ensures joins { Gives (λ grown. (grown, self.new)) result (joining self.old (write ∷ [])) }
        ensures memory { IfErr result (λ e. e ≡ Refusal.OutOfMemory → IsOk (joining self.old (write ∷ []))) }
        ensures err { OnErr result (self.new ≡ self.old) }
    {
        put(&mut self.wildcards, Wildcards::none(self.alloc));
        self.catalogue.join_write(write)
    }

    // rule: best-writes
    /// Puts a resource with these groups, as a new write even where an equal body stands, and whatever groups that had.
    /// `writer` is the number of this replica, from 1.
    pub fn put(
        &mut self,
        resource: Resource<T>,
        groups: Groups,
        writer: u16,
    ) -> Result<Stamp, Refusal>
        requires { 1 ≤ writer }
        ensures puts { Gives (λ s. (s.counter, self.new)) result (putting self.old resource groups writer) }
        ensures memory { IfErr result (λ e. e ≡ Refusal.OutOfMemory → IsOk (putting self.old resource groups writer)) }
        ensures writer { IfOk result (λ s. s.writer ≡ writer) }
        ensures err { OnErr result (self.new ≡ self.old) }
    {
        put(&mut self.wildcards, Wildcards::none(self.alloc));
        self.catalogue.put(resource, groups, writer)
    }

    // rule: best-writes
    /// Deletes the live resource of a name; the write stays for good. `writer` is the number of this replica,
    /// from 1.
    pub fn delete(&mut self, name: &str, writer: u16) -> Result<Stamp, Refusal>
        requires { 1 ≤ writer }
        ensures deletes { Gives (λ s. (s.counter, self.new)) result (deleting self.old name.now writer) }
        ensures memory { IfErr result (λ e. e ≡ Refusal.OutOfMemory → IsOk (deleting self.old name.now writer)) }
        ensures writer { IfOk result (λ s. s.writer ≡ writer) }
        ensures err { OnErr result (self.new ≡ self.old) }
    {
        put(&mut self.wildcards, Wildcards::none(self.alloc));
        self.catalogue.delete(name, writer)
    }
    /// Joins writes, all or none, so that they can still be taken back. Where there is no memory, the catalogue comes back as it
    /// was.
    pub fn start_join(self, writes: Vec<Write<T>>) -> Result<PendingJoin<T>, Published<T>>
        requires { (joined self writes.items).changes ≤ max_counter }
        ensures ok { IfOk result (λ p. (p.before ≡ self) × (p.after ≡ joined self writes.items)) }
        ensures err { IfErr result (λ c. c ≡ self) }
    {
        let Published {
            catalogue,
            wildcards: _,
            alloc,
        } = self;
        match catalogue.start_join(writes) {
            Ok(pending) => Ok(pending),
            Err(catalogue) => Err(Published::of(alloc, catalogue)),
        }
    }

    /// An equal catalogue, with memory of its own. Refused only by `OutOfMemory`.
    pub fn try_copy(&self, alloc: Global) -> Result<Published<T>, Refusal>
        ensures ok { IfOk result (λ c. c ≡ self.now) }
        ensures err { IfErr result (λ e. e ≡ Refusal.OutOfMemory) }
    {
        let catalogue = self.catalogue.try_copy(alloc)?;
        Ok(Published::of(alloc, catalogue))
    }

    // Makes what all clients of this interest are offered that hold nothing.
    fn first_offer(
        &self,
        alloc: Global,
        variant: VariantName,
        interest: &Interest<T>,
    ) -> Result<SharedMap<Due>, Refusal>
        ensures ok { IfOk result (λ o. o ≡ ledgers.offer variant T.TYPE interest.now self.now.entries finmap.empty) }
        ensures refused { IfErr result (λ e. e ≡ Refusal.OutOfMemory) }
    {
        let nothing = Beliefs::new(alloc);
        let unlisted = Listed::new(alloc);
        let first = offer(
            alloc,
            variant,
            interest,
            &self.catalogue,
            &nothing,
            &unlisted,
        )?;
        Ok(first)
    }

    // rule: groups
    /// What clients of this cluster share that want everything, in the state of the world, if it was made.
    pub fn sotw_wildcard(&self, cluster: &str) -> Option<&Wildcard<Bodies>>
        ensures { IfSome result (λ w. IsShared variants.StateOfTheWorld T.TYPE (λ m s o x. x ≡ sotw.stated_bodies m s o) self.now.entries cluster.now w.now) }
    {
        self.wildcards.sotw.get(cluster)
    }

    /// The same of the incremental variant.
    pub fn delta_wildcard(&self, cluster: &str) -> Option<&Wildcard<Said>>
        ensures { IfSome result (λ w. IsShared variants.Delta T.TYPE (λ m s o x. x ≡ delta.said_by m o) self.now.entries cluster.now w.now) }
    {
        self.wildcards.delta.get(cluster)
    }

    // rule: groups
    /// Makes what clients of this cluster share that want everything, in the state of the world, if it isn't there.
    pub fn share_sotw(&mut self, alloc: Global, interest: &Interest<T>) -> Result<(), Refusal>
        requires { interest.now ≡ all_of interest.now.cluster }
        ensures { self.new ≡ self.old }
    {
        let cluster = interest.cluster();
        if self.wildcards.sotw.contains(cluster) {
            return Ok(());
        }
        let offer = self.first_offer(alloc, VariantName::StateOfTheWorld, interest)?;
        let stated = stated_bodies(alloc, &self.catalogue, interest, offer.as_map())?;
        let said = stated.shared(alloc)?;
        let names = names_of(alloc, offer.as_map())?;
        let made = Wildcard { offer, said, names };
        self.wildcards.make_room(alloc);
        self.wildcards.sotw.put(alloc, cluster, Some(made))
    }

    /// The same of the incremental variant.
    pub fn share_delta(&mut self, alloc: Global, interest: &Interest<T>) -> Result<(), Refusal>
        requires { interest.now ≡ all_of interest.now.cluster }
        ensures { self.new ≡ self.old }
    {
        let cluster = interest.cluster();
        if self.wildcards.delta.contains(cluster) {
            return Ok(());
        }
        let offer = self.first_offer(alloc, VariantName::Delta, interest)?;
        let stated = said_by(alloc, &self.catalogue, offer.as_map())?;
        let said = stated.shared(alloc)?;
        let names = names_of(alloc, offer.as_map())?;
        let made = Wildcard { offer, said, names };
        self.wildcards.make_room(alloc);
        self.wildcards.delta.put(alloc, cluster, Some(made))
    }

    /// What an incremental response says that a client of this cluster was told since the last change, if it is kept.
    pub fn delta_told(&self, cluster: &str) -> Option<&Wildcard<Said>>
        ensures { IfSome result (λ w. SaysItsOffer self.now.entries w.now) }
    {
        self.wildcards.told.get(cluster)
    }

    /// Keeps what an incremental response with this offer says, for clients of this cluster that are offered the same.
    pub fn share_told(
        &mut self,
        alloc: Global,
        cluster: &str,
        offer: SharedMap<Due>,
    ) -> Result<(), Refusal>
        ensures { self.new ≡ self.old }
    {
        let said = said_by(alloc, &self.catalogue, offer.as_map())?;
        let names = names_of(alloc, offer.as_map())?;
        let made = Wildcard { offer, said, names };
        self.wildcards.make_room(alloc);
        self.wildcards.told.put(alloc, cluster, Some(made))
    }
}
