// What the two variants of a session differ in.
ghost use Rattle.std.specs.Prelude.{◌≡◌, IfSome, IfOk, IfErr};
ghost use Rattle.xds_resource.specs.declared.refusal.Refusal.TheVariants.{OutOfMemory};
ghost use Rattle.xds_interest.specs.Asked as askeds;
ghost use Rattle.xds_sessions.specs.DeltaPolls as delta_polls;
ghost use Rattle.xds_sessions.specs.SotwPolls as sotw_polls;
ghost use Rattle.xds_sessions.specs.Wildcards.{IsShared, all_of};

use crate::delta_response::{Said, response as delta_response, said_by};
use crate::published::Published;
use crate::sotw_response::{response as sotw_response, stated_bodies};
use crate::wildcards::Wildcard;
use std::alloc::Global;
use xds_catalogue::Catalogue;
use xds_interest::{ClusterText, DeltaNames, Interest, SotwNames};
use xds_ledger::{Delta, Due, SharedMap, StateOfTheWorld, Variant};
use xds_message::{Bodies, DeltaDraft, SotwDraft};
use xds_resource::{NameMap, Refusal, ResourceType};

/// What a variant decides of a session of one type: how it keeps what the requests asked for, and what a response says.
pub trait Speaks<T: ResourceType>: Variant {
    ghost use Rattle.std.specs.Prelude.{◌≡◌, ℕ, List, is_some};
    ghost use Rattle.std.specs.FinMap as finmap;
    ghost use Rattle.xds_resource.specs.declared.types.TypeName.{TypeName};
    ghost use Rattle.xds_interest.specs.Asked.{Asked};
    ghost use Rattle.xds_interest.specs.Interests.{Selection};
    ghost use Rattle.xds_catalogue.specs.Holdings.{Holdings, Entries};
    ghost use Rattle.xds_ledger.specs.Offers.{Offer};

    /// What is kept of the requests.
    type Names: Drop;

    /// A response before it is written.
    type Draft: Drop;

    /// What the responses of an offer have in common, whoever is told.
    type Said: Drop;

    // What the requests asked for.
    ghost asked: { Self.Names → Asked };

    // What the responses of an offer, to clients of an interest, have in common at these entries.
    ghost IsSaid: { Entries → Selection → Offer → Self.Said → Type 0 };

    // The response of the replica of a number to a client of this interest, with this offer, as the one of a number on its stream.
    ghost response: { ℕ → TypeName → Holdings → Selection → Offer → ℕ → Self.Draft };

    /// Before the first request of a client of this cluster.
    fn unasked(alloc: Global, cluster: ClusterText) -> Self::Names
        ensures { asked result ≡ askeds.unasked cluster };

    /// What the client wants.
    fn interest(names: &Self::Names) -> &Interest<T>
        ensures { result.now ≡ (asked names.now).interest };

    /// Whether there was a request.
    fn has_begun(names: &Self::Names) -> bool
        ensures { result ≡ (asked names.now).begun };

    /// An equal value, with memory of its own. Refused only by `OutOfMemory`.
    fn copied(alloc: Global, names: &Self::Names) -> Result<Self::Names, Refusal>
        ensures ok { IfOk result (λ n. asked n ≡ asked names.now) }
        ensures err { IfErr result (λ e. e ≡ OutOfMemory) };

    /// What the responses of this offer have in common. Refused only by `OutOfMemory`.
    fn said(
        alloc: Global,
        catalogue: &Catalogue<T>,
        interest: &Interest<T>,
        offer: &NameMap<Due>,
    ) -> Result<Self::Said, Refusal>
        ensures ok { IfOk result (λ x. IsSaid catalogue.now.entries interest.now offer.now x) }
        ensures refused { IfErr result (λ e. e ≡ OutOfMemory) };

    /// What clients of this cluster share that want everything and hold nothing, if it was made.
    fn wildcard<'a>(published: &'a Published<T>, cluster: &str) -> Option<&'a Wildcard<Self::Said>>
        ensures { IfSome result (λ w. IsShared Self.NAME T.TYPE IsSaid published.now.entries cluster.now w.now) };

    /// Makes it, if it isn't there.
    fn share(
        alloc: Global,
        published: &mut Published<T>,
        interest: &Interest<T>,
    ) -> Result<(), Refusal>
        requires { interest.now ≡ all_of interest.now.cluster }
        ensures { published.new ≡ published.old };

    /// What a client of this cluster was told since the last change, if it is kept, whatever clients want.
    fn told<'a>(published: &'a Published<T>, cluster: &str) -> Option<&'a Wildcard<Self::Said>>
        ensures said { IfSome result (λ w. (s : Selection) → IsSaid published.now.entries s w.now.offer w.now.said) }
        ensures names { IfSome result (λ w. (name : List ℕ) → is_some (finmap.get w.now.names name) ≡ is_some (finmap.get w.now.offer name)) };

    /// Keeps what a response with this offer says, as `told` answers it, where it is the same whatever clients want.
    fn share_told(
        alloc: Global,
        published: &mut Published<T>,
        cluster: &str,
        offer: SharedMap<Due>,
    ) -> Result<(), Refusal>
        ensures { published.new ≡ published.old };

    /// The response that says this, as the one of this number on its stream. Refused only by `OutOfMemory`.
    fn respond(
        alloc: Global,
        replica: u16,
        catalogue: &Catalogue<T>,
        interest: &Interest<T>,
        said: &Self::Said,
        number: u64,
    ) -> Result<Self::Draft, Refusal>
        ensures ok { IfOk result (λ d. (o : Offer) → IsSaid catalogue.now.entries interest.now o said.now → d ≡ response replica T.TYPE catalogue.now interest.now o number) }
        ensures refused { IfErr result (λ e. e ≡ OutOfMemory) };
}

impl<T: ResourceType> Speaks<T> for StateOfTheWorld {
    type Names = SotwNames<T>;

    type Draft = SotwDraft;

    type Said = Bodies;

    ghost asked = { λ n. n };

    ghost IsSaid = { λ m s o x. x ≡ sotw_polls.stated_bodies m s o };

    ghost response = { sotw_polls.response };

    fn unasked(alloc: Global, cluster: ClusterText) -> SotwNames<T> {
        SotwNames::new(alloc, cluster)
    }

    fn interest(names: &SotwNames<T>) -> &Interest<T> {
        names.interest()
    }

    fn has_begun(names: &SotwNames<T>) -> bool {
        names.has_begun()
    }

    fn copied(alloc: Global, names: &SotwNames<T>) -> Result<SotwNames<T>, Refusal> {
        names.try_copy(alloc)
    }

    fn said(
        alloc: Global,
        catalogue: &Catalogue<T>,
        interest: &Interest<T>,
        offer: &NameMap<Due>,
    ) -> Result<Bodies, Refusal> {
        stated_bodies(alloc, catalogue, interest, offer)
    }

    fn wildcard<'a>(published: &'a Published<T>, cluster: &str) -> Option<&'a Wildcard<Bodies>> {
        published.sotw_wildcard(cluster)
    }

    fn share(
        alloc: Global,
        published: &mut Published<T>,
        interest: &Interest<T>,
    ) -> Result<(), Refusal> {
        published.share_sotw(alloc, interest)
    }

    fn told<'a>(_published: &'a Published<T>, _cluster: &str) -> Option<&'a Wildcard<Bodies>> {
        None
    }

    fn share_told(
        _alloc: Global,
        _published: &mut Published<T>,
        _cluster: &str,
        _offer: SharedMap<Due>,
    ) -> Result<(), Refusal> {
        Ok(())
    }

    fn respond(
        alloc: Global,
        replica: u16,
        catalogue: &Catalogue<T>,
        interest: &Interest<T>,
        said: &Bodies,
        number: u64,
    ) -> Result<SotwDraft, Refusal> {
        sotw_response::<T>(alloc, replica, catalogue.changes(), interest, said, number)
    }
}

impl<T: ResourceType> Speaks<T> for Delta {
    type Names = DeltaNames<T>;

    type Draft = DeltaDraft;

    type Said = Said;

    ghost asked = { λ n. n };

    ghost IsSaid = { λ m s o x. x ≡ delta_polls.said_by m o };

    ghost response = { λ replica t h s o number. delta_polls.response replica t h o number };

    fn unasked(alloc: Global, cluster: ClusterText) -> DeltaNames<T> {
        DeltaNames::new(alloc, cluster)
    }

    fn interest(names: &DeltaNames<T>) -> &Interest<T> {
        names.interest()
    }

    fn has_begun(names: &DeltaNames<T>) -> bool {
        names.has_begun()
    }

    fn copied(alloc: Global, names: &DeltaNames<T>) -> Result<DeltaNames<T>, Refusal> {
        names.try_copy(alloc)
    }

    fn said(
        alloc: Global,
        catalogue: &Catalogue<T>,
        _interest: &Interest<T>,
        offer: &NameMap<Due>,
    ) -> Result<Said, Refusal> {
        said_by(alloc, catalogue, offer)
    }

    fn wildcard<'a>(published: &'a Published<T>, cluster: &str) -> Option<&'a Wildcard<Said>> {
        published.delta_wildcard(cluster)
    }

    fn share(
        alloc: Global,
        published: &mut Published<T>,
        interest: &Interest<T>,
    ) -> Result<(), Refusal> {
        published.share_delta(alloc, interest)
    }

    fn told<'a>(published: &'a Published<T>, cluster: &str) -> Option<&'a Wildcard<Said>> {
        published.delta_told(cluster)
    }

    fn share_told(
        alloc: Global,
        published: &mut Published<T>,
        cluster: &str,
        offer: SharedMap<Due>,
    ) -> Result<(), Refusal> {
        published.share_told(alloc, cluster, offer)
    }

    fn respond(
        alloc: Global,
        replica: u16,
        catalogue: &Catalogue<T>,
        _interest: &Interest<T>,
        said: &Said,
        number: u64,
    ) -> Result<DeltaDraft, Refusal> {
        delta_response::<T>(alloc, replica, catalogue.changes(), said, number)
    }
}
