// What is kept of the requests of an incremental (delta) stream.
ghost use Rattle.std.specs.Prelude.{◌≡◌, map, IfOk, IfErr, OnOk, OnErr};
ghost use Rattle.std.specs.String.{string_bytes};
ghost use Rattle.std.specs.FinSet as set;
ghost use Rattle.xds_resource.specs.declared.refusal.Refusal.TheVariants.{OutOfMemory};
ghost use Rattle.xds_interest.specs.Delta.{mention_of};
ghost use Rattle.xds_interest.specs.Asked.{unasked, delta_asked, star_after, wanted_by, widened, without_names, narrowed};
ghost use Rattle.xds_interest.specs.Touches.{delta_touch};

use crate::cluster::ClusterText;
use crate::interest::Interest;
use crate::lists::has_star_text;
use crate::names::NameSet;
use crate::touched::Touched;
use std::alloc::Global;
use std::marker::Model;
use xds_resource::{Refusal, ResourceType, TypeName};

/// What a delta stream has asked of the type `T` so far: the client's interest, and whether there
/// was a request. The first request is the star of a complete type if it subscribes nothing.
pub struct DeltaNames<T: ResourceType> {
    begun: bool,
    interest: Interest<T>,
}

// Written out: docs/PROVING.md, "Drops".
impl<T: ResourceType> Drop for DeltaNames<T> {
    fn drop(self) {
        let DeltaNames {
            begun: _,
            interest: _,
        } = self;
    }
}

impl<T: ResourceType> Model for DeltaNames<T> {
    ghost use Rattle.std.specs.Prelude.{false};
    ghost use Rattle.xds_interest.specs.Asked.{Asked, asked_code};

    ghost Value = { Asked };

    ghost coded = { asked_code };

    ghost view = { λ a. record { begun = a.begun; named = false; interest = a.interest } };
}

// rule: delta-names
// Whether the star stands after a request, where it stood before or not. What a request both
// subscribes and unsubscribes it subscribes.
fn star_after(before: bool, subscribe: &[String], unsubscribe: &[String]) -> bool
    ensures { result ≡ star_after (mention_of subscribe.now unsubscribe.now) before }
{
    has_star_text(subscribe) || (before && !has_star_text(unsubscribe))
}

// Whether a request mentions the star of the type.
fn touches_all(kind: TypeName, subscribe: &[String], unsubscribe: &[String]) -> bool
    ensures { result ≡ (delta_touch kind (mention_of subscribe.now unsubscribe.now)).all }
{
    kind.is_complete() && (has_star_text(subscribe) || has_star_text(unsubscribe))
}

impl<T: ResourceType> DeltaNames<T> {
    // rule: delta-names
    /// Before the first request of a client of this cluster, when it wants nothing.
    pub fn new(alloc: Global, cluster: ClusterText) -> Self
        ensures { result ≡ unasked cluster }
    {
        DeltaNames {
            begun: false,
            interest: Interest::nothing(alloc, cluster),
        }
    }

    pub fn interest(&self) -> &Interest<T>
        ensures { result.now ≡ self.now.interest }
    {
        &self.interest
    }

    /// Whether there was a request.
    pub fn has_begun(&self) -> bool
        ensures { result ≡ self.now.begun }
    {
        self.begun
    }

    // rule: delta-names, rule: star-covers
    // Whether the star stands after a request.
    fn has_star_after(&self, subscribe: &[String], unsubscribe: &[String]) -> bool
        ensures { result ≡ (delta_asked T.TYPE self.now (mention_of subscribe.now unsubscribe.now)).interest.star }
    {
        let before = if self.begun {
            self.interest.has_star()
        } else {
            subscribe.is_empty()
        };
        T::TYPE.is_complete() && star_after(before, subscribe, unsubscribe)
    }

    // rule: delta-names
    // The explicit names after a request.
    fn names_after(&self, subscribe: &[String], unsubscribe: &[String]) -> Result<NameSet, Refusal>
        ensures ok { IfOk result (λ s. s ≡ (delta_asked T.TYPE self.now (mention_of subscribe.now unsubscribe.now)).interest.names) }
        ensures err { IfErr result (λ e. e ≡ OutOfMemory) }
    {
        let mut names = self.interest.explicit().try_copy()?;
        names.remove_all(unsubscribe);
        names.insert_names(T::TYPE, subscribe)?;
        Ok(names)
    }

    // rule: delta-names
    /// What is kept after one request more. Refused only by `OutOfMemory`.
    pub fn after(
        &self,
        alloc: Global,
        subscribe: &[String],
        unsubscribe: &[String],
    ) -> Result<DeltaNames<T>, Refusal>
        ensures ok { IfOk result (λ n. n ≡ delta_asked T.TYPE self.now (mention_of subscribe.now unsubscribe.now)) }
        ensures err { IfErr result (λ e. e ≡ OutOfMemory) }
    {
        let star = self.has_star_after(subscribe, unsubscribe);
        let names = self.names_after(subscribe, unsubscribe)?;
        let cluster = self.interest.shared_cluster()?;
        Ok(DeltaNames {
            begun: true,
            interest: Interest::of_parts(star, names, cluster),
        })
    }

    // rule: delta-names
    /// The interest after one request more, but for the names that it doesn't mention, which are left out. Refused only by
    /// `OutOfMemory`.
    pub fn wanted_by(
        &self,
        alloc: Global,
        subscribe: &[String],
        unsubscribe: &[String],
    ) -> Result<Interest<T>, Refusal>
        ensures ok { IfOk result (λ i. i ≡ wanted_by T.TYPE self.now (mention_of subscribe.now unsubscribe.now)) }
        ensures err { IfErr result (λ e. e ≡ OutOfMemory) }
    {
        let star = self.has_star_after(subscribe, unsubscribe);
        let mut names = NameSet::new(alloc);
        names.insert_names(T::TYPE, subscribe)?;
        let cluster = self.interest.shared_cluster()?;
        Ok(Interest::of_parts(star, names, cluster))
    }

    // rule: delta-names
    /// Adds the explicit names of another interest, and answers those that were not there. Refused only by `OutOfMemory`,
    /// and then none is added.
    pub fn widen(&mut self, alloc: Global, wanted: &Interest<T>) -> Result<NameSet, Refusal>
        ensures ok { OnOk result (self.new ≡ widened self.old wanted.now.names) }
        ensures added { IfOk result (λ s. s ≡ set.difference wanted.now.names self.old.interest.names) }
        ensures err { OnErr result (self.new ≡ self.old) }
        ensures refused { IfErr result (λ e. e ≡ OutOfMemory) }
    {
        let added = self.interest.lacked(alloc, wanted)?;
        self.interest.add(&added)?;
        Ok(added)
    }

    /// Takes explicit names out; of those that `widen` answered it leaves what was there before. It takes no memory.
    pub fn take_back(&mut self, added: &NameSet)
        ensures { self.new ≡ without_names self.old added.now }
    {
        self.interest.take_out(added);
    }

    // rule: delta-names
    /// Takes the star of an interest, and takes those of some texts out that it doesn't name. With the answer of `wanted_by`, once
    /// `widen` added its names, it leaves what is kept after the request. It takes no memory.
    pub fn narrow(&mut self, wanted: &Interest<T>, unsubscribe: &[String])
        ensures { self.new ≡ narrowed self.old wanted.now (map string_bytes unsubscribe.now) }
    {
        self.interest.narrow(wanted, unsubscribe);
        self.begun = true;
    }

    /// The names that a request touches: each that it mentions, and every name if it mentions the
    /// star of a complete type. Refused only by `OutOfMemory`.
    pub fn touched_by(
        alloc: Global,
        subscribe: &[String],
        unsubscribe: &[String],
    ) -> Result<Touched, Refusal>
        ensures ok { IfOk result (λ t. t ≡ delta_touch T.TYPE (mention_of subscribe.now unsubscribe.now)) }
        ensures err { IfErr result (λ e. e ≡ OutOfMemory) }
    {
        let all = touches_all(T::TYPE, subscribe, unsubscribe);
        let mut names = NameSet::new(alloc);
        names.insert_names(T::TYPE, subscribe)?;
        names.insert_names(T::TYPE, unsubscribe)?;
        Ok(Touched::of_parts(all, names))
    }

    // rule: delta-names
    /// Takes one request more, and answers the names that it touches. Refused only by
    /// `OutOfMemory`, and then the request is not taken.
    pub fn take(
        &mut self,
        alloc: Global,
        subscribe: &[String],
        unsubscribe: &[String],
    ) -> Result<Touched, Refusal>
        ensures ok { OnOk result (self.new ≡ delta_asked T.TYPE self.old (mention_of subscribe.now unsubscribe.now)) }
        ensures touched { IfOk result (λ t. t ≡ delta_touch T.TYPE (mention_of subscribe.now unsubscribe.now)) }
        ensures err { OnErr result (self.new ≡ self.old) }
        ensures refused { IfErr result (λ e. e ≡ OutOfMemory) }
    {
        let touched = DeltaNames::<T>::touched_by(alloc, subscribe, unsubscribe)?;
        let next = self.after(alloc, subscribe, unsubscribe)?;
        *self = next;
        Ok(touched)
    }

    /// An equal value, with memory of its own. Refused only by `OutOfMemory`.
    pub fn try_copy(&self, alloc: Global) -> Result<DeltaNames<T>, Refusal>
        ensures ok { IfOk result (λ a. a ≡ self.now) }
        ensures err { IfErr result (λ e. e ≡ OutOfMemory) }
    {
        let interest = self.interest.try_copy(alloc)?;
        Ok(DeltaNames {
            begun: self.begun,
            interest,
        })
    }
}
