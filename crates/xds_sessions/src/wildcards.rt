// What all clients are told that want everything of a type and are believed to hold nothing of it, by the text of their cluster.
ghost use Rattle.std.specs.Prelude.{◌≡◌, ◌<◌, ℕ, List, true, is_some, IfSome, IfOk, IfErr};
ghost use Rattle.std.specs.FinMap as finmap;
ghost use Rattle.xds_resource.specs.declared.refusal.Refusal.TheVariants.{OutOfMemory};
ghost use Rattle.xds_resource.specs.declared.types.TypeName.{TypeName};
ghost use Rattle.xds_catalogue.specs.Holdings.{Entries};
ghost use Rattle.xds_sessions.specs.Wildcards.{Fits, all_of, most_shared};

use crate::delta_response::Said;
use std::alloc::Global;
use xds_interest::Interest;
use xds_ledger::{Due, SharedMap};
use xds_message::Bodies;
use xds_resource::{NameMap, Refusal, ResourceType};

/// Whether an interest is in everything, and names nothing.
pub fn wants_all<T: ResourceType>(interest: &Interest<T>) -> bool
    ensures { result ≡ true → interest.now ≡ all_of interest.now.cluster }
{
    interest.has_star() && interest.names().len() == 0
}

/// An offer, what its responses say, whoever is told, and its names, which the lists of those share that are told.
pub struct Wildcard<S> {
    pub(crate) offer: SharedMap<Due>,
    pub(crate) said: S,
    pub(crate) names: SharedMap<u64>,
}

// Written out: docs/PROVING.md, "Drops".
impl<S: Drop> Drop for Wildcard<S> {
    fn drop(self) {
        let Wildcard {
            offer: _,
            said: _,
            names: _,
        } = self;
    }
}

/// The names, with one owner more, if the owners can be counted. It takes no memory.
pub(crate) fn shared_names<S: Drop>(wildcard: &Wildcard<S>) -> Option<SharedMap<u64>>
    ensures { IfSome result (λ m. m ≡ wildcard.now.names) }
{
    match wildcard.names.try_copy() {
        Ok(names) => Some(names),
        Err(_) => None,
    }
}

/// The names of an offer, for a list of what may be owed. Refused only by `OutOfMemory`.
pub(crate) fn names_of(alloc: Global, offer: &NameMap<Due>) -> Result<SharedMap<u64>, Refusal>
    ensures ok { IfOk result (λ m. (name : List ℕ) → is_some (finmap.get m name) ≡ is_some (finmap.get offer.now name)) }
    ensures refused { IfErr result (λ e. e ≡ OutOfMemory) }
{
    let mut names = NameMap::new(alloc);
    for (name, _due) in offer.iter() {
        names.put(alloc, name, Some(0))?;
    }
    SharedMap::new(alloc, names)
}

// The most clusters for which what clients share is kept, of one type and variant. Clients choose the texts of their clusters, so
// without a bound they would choose how much memory a replica takes.
const MOST_SHARED: usize = 16;

/// Those of both variants, by the text of the clients' cluster.
pub(crate) struct Wildcards {
    pub(crate) sotw: NameMap<Wildcard<Bodies>>,
    pub(crate) delta: NameMap<Wildcard<Said>>,
    // Beside these, what a client of the cluster was offered that holds something.
    pub(crate) told: NameMap<Wildcard<Said>>,
}

// Written out: docs/PROVING.md, "Drops".
impl Drop for Wildcards {
    fn drop(self) {
        let Wildcards {
            sotw: _,
            delta: _,
            told: _,
        } = self;
    }
}

impl Wildcards {
    /// None: they fit whatever is held.
    pub(crate) fn none(alloc: Global) -> Wildcards
        ensures fits { (t : TypeName) (m : Entries) → Fits t m result }
        ensures sotw { finmap.len result.sotw < most_shared }
        ensures delta { finmap.len result.delta < most_shared }
        ensures told { finmap.len result.told < most_shared }
    {
        Wildcards {
            sotw: NameMap::new(alloc),
            delta: NameMap::new(alloc),
            told: NameMap::new(alloc),
        }
    }

    /// Lets all go where there is no room for one cluster more.
    pub(crate) fn make_room(&mut self, alloc: Global)
        ensures fits { (t : TypeName) (m : Entries) → Fits t m self.old → Fits t m self.new }
        ensures sotw { finmap.len self.new.sotw < most_shared }
        ensures delta { finmap.len self.new.delta < most_shared }
        ensures told { finmap.len self.new.told < most_shared }
    {
        if !has_room(&self.sotw) || !has_room(&self.delta) || !has_room(&self.told) {
            *self = Wildcards::none(alloc);
        }
    }
}

// Whether what is shared of one cluster more may be kept.
fn has_room<S: Drop>(kept: &NameMap<Wildcard<S>>) -> bool
    ensures { result ≡ true → finmap.len kept.now < most_shared }
{
    how_many(kept) < MOST_SHARED
}

fn how_many<S: Drop>(kept: &NameMap<Wildcard<S>>) -> usize
    ensures { result ≡ finmap.len kept.now }
{
    kept.iter().len()
}
