// The response that an offer makes.
ghost use Rattle.std.specs.Prelude.{◌≡◌, decimal, IfOk, IfErr, OnOk};
ghost use Rattle.std.specs.FinMap as finmap;
ghost use Rattle.xds_resource.specs.declared.refusal.Refusal.TheVariants.{OutOfMemory};
ghost use Rattle.xds_ledger.specs.Texts as texts;
ghost use Rattle.xds_sessions.specs.DeltaParts.{nothing_said, said, said_all};
ghost use Rattle.xds_sessions.specs.DeltaPolls.{said_by};

use std::alloc::Global;
use std::marker::Model;
use xds_catalogue::Catalogue;
use xds_ledger::Due;
use xds_ledger::texts::{nonce_text, replica_version};
use xds_message::{DeltaDraft, DraftResource, Resources, copy_texts, push_resource};
use xds_resource::{NameMap, Refusal, ResourceType};

/// What a response says: the resources that it states, and the names that are gone. It depends on the offer and on what is held
/// alone, so that all clients which are offered the same share it.
pub struct Said {
    resources: Resources,
    removed: Vec<String>,
}

// Written out: docs/PROVING.md, "Drops".
impl Drop for Said {
    fn drop(self) {
        let Said {
            resources: _,
            removed: _,
        } = self;
    }
}

impl Model for Said {
    ghost use Rattle.std.specs.Prelude.{map, string_bytes};
    ghost use Rattle.xds_sessions.specs.DeltaPolls as polls;

    ghost Value = { polls.Said };

    ghost view = { λ s. record { resources = s.resources; removed = map string_bytes s.removed.items } };
}

impl Said {
    /// The same, as many responses will say it: how the resources' texts read together is made here. Refused only by `OutOfMemory`.
    pub(crate) fn shared(self, alloc: Global) -> Result<Said, Refusal>
        ensures ok { IfOk result (λ s. s ≡ self) }
        ensures refused { IfErr result (λ e. e ≡ OutOfMemory) }
    {
        let Said { resources, removed } = self;
        Ok(Said {
            resources: resources.shared(alloc)?,
            removed,
        })
    }
}

// What a response says, while it is gathered.
struct GatheredResponse {
    resources: Vec<DraftResource>,
    removed: Vec<String>,
}

// Written out: docs/PROVING.md, "Drops".
impl Drop for GatheredResponse {
    fn drop(self) {
        let GatheredResponse {
            resources: _,
            removed: _,
        } = self;
    }
}

impl Model for GatheredResponse {
    ghost use Rattle.std.specs.Prelude.{map, string_bytes};
    ghost use Rattle.xds_sessions.specs.DeltaPolls as polls;

    ghost Value = { polls.Said };

    ghost view = { λ g. record { resources = g.resources.items; removed = map string_bytes g.removed.items } };
}

impl GatheredResponse {
    fn new(alloc: Global) -> GatheredResponse
        ensures { result ≡ nothing_said }
    {
        GatheredResponse {
            resources: Vec::new(alloc),
            removed: Vec::new(alloc),
        }
    }

    // rule: no-live-removal, rule: best-writes
    // Adds what an offer says of a name: its live resource, or that it is gone.
    fn say<T: ResourceType>(
        &mut self,
        alloc: Global,
        catalogue: &Catalogue<T>,
        name: &str,
        due: &Due,
    ) -> Result<(), Refusal>
        ensures ok { OnOk result (self.new ≡ said catalogue.now.entries self.old name.now due.now) }
        ensures refused { IfErr result (λ e. e ≡ OutOfMemory) }
    {
        match due {
            Due::Stated(_) => match catalogue.get(name) {
                Some(write) => push_resource(alloc, &mut self.resources, write),
                None => Ok(()),
            },
            Due::Removed => Ok(self.removed.push(String::from_str(alloc, name)?)?),
        }
    }

    fn share(self) -> Result<Said, Refusal>
        ensures ok { IfOk result (λ s. s ≡ self) }
        ensures refused { IfErr result (λ e. e ≡ OutOfMemory) }
    {
        let GatheredResponse { resources, removed } = self;
        Ok(Said {
            resources: Resources::new(resources)?,
            removed,
        })
    }
}

// rule: best-writes
// What an offer says of each of its names, in ascending order of names.
fn say_all<T: ResourceType>(
    alloc: Global,
    catalogue: &Catalogue<T>,
    offer: &NameMap<Due>,
) -> Result<GatheredResponse, Refusal>
    ensures ok { IfOk result (λ g. g ≡ said_all catalogue.now.entries nothing_said (finmap.entries offer.now)) }
    ensures refused { IfErr result (λ e. e ≡ OutOfMemory) }
{
    let mut all = GatheredResponse::new(alloc);
    for (name, due) in offer.iter() {
        all.say(alloc, catalogue, name, due)?;
    }
    Ok(all)
}

/// What a response with this offer says.
pub(crate) fn said_by<T: ResourceType>(
    alloc: Global,
    catalogue: &Catalogue<T>,
    offer: &NameMap<Due>,
) -> Result<Said, Refusal>
    ensures ok { IfOk result (λ s. s ≡ said_by catalogue.now.entries offer.now) }
    ensures refused { IfErr result (λ e. e ≡ OutOfMemory) }
{
    let all = say_all(alloc, catalogue, offer)?;
    let shared = all.share()?;
    Ok(shared)
}

/// The response that says this, at this count of changes, as the response of this number on its stream.
pub(crate) fn response<T: ResourceType>(
    alloc: Global,
    replica: u16,
    changes: u64,
    said: &Said,
    number: u64,
) -> Result<DeltaDraft, Refusal>
    ensures ok { IfOk result (λ d. d ≡ record {
      kind = T.TYPE;
      system_version_info = texts.replica_version replica changes;
      nonce = decimal number;
      resources = said.now.resources;
      removed_resources = said.now.removed;
    }) }
    ensures refused { IfErr result (λ e. e ≡ OutOfMemory) }
{
    let version = replica_version(alloc, replica, changes)?;
    let nonce = nonce_text(alloc, number)?;
    let resources = said.resources.try_copy()?;
    let removed = copy_texts(alloc, &said.removed)?;
    Ok(DeltaDraft::new(T::TYPE, version, nonce, resources, removed))
}
