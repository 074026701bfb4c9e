// What changed in a catalogue after a number of changes.
ghost use Rattle.std.specs.Prelude.{◌≡◌, IfOk, IfErr};
ghost use Rattle.std.specs.FinMap as finmap;
ghost use Rattle.xds_resource.specs.declared.refusal.Refusal.TheVariants.{OutOfMemory};
ghost use Rattle.xds_events.specs.Since as since;

use std::alloc::Global;
use xds_catalogue::Catalogue;
use xds_resource::{NameMap, Refusal, ResourceType, Write};

// rule: tombstones, rule: marks
/// What stands under the names whose latest change is above the mark, deletions included, in ascending order of names.
pub(crate) fn changed_after<T: ResourceType>(
    alloc: Global,
    catalogue: &Catalogue<T>,
    mark: u64,
) -> Result<Vec<Write<T>>, Refusal>
    ensures ok { IfOk result (λ v. v.items ≡ since.changed_after catalogue.now mark) }
    ensures refused { IfErr result (λ e. e ≡ OutOfMemory) }
{
    let changed = by_name(alloc, catalogue, mark)?;
    values(alloc, &changed)
}

// rule: tombstones, rule: marks
// The same by their names.
fn by_name<T: ResourceType>(
    alloc: Global,
    catalogue: &Catalogue<T>,
    mark: u64,
) -> Result<NameMap<Write<T>>, Refusal>
    ensures ok { IfOk result (λ m. m ≡ finmap.retain_keys catalogue.now.entries (since.is_above catalogue.now mark)) }
    ensures refused { IfErr result (λ e. e ≡ OutOfMemory) }
{
    let mut changed = NameMap::new(alloc);
    let mut last = mark;
    while let Some((number, write)) = catalogue.next_change(last) {
        changed.put(alloc, write.name(), Some(write.try_copy(alloc)?))?;
        last = number;
    }
    Ok(changed)
}

// The values of a map, in ascending order of names.
fn values<T: ResourceType>(
    alloc: Global,
    changed: &NameMap<Write<T>>,
) -> Result<Vec<Write<T>>, Refusal>
    ensures ok { IfOk result (λ v. v.items ≡ finmap.values changed.now) }
    ensures refused { IfErr result (λ e. e ≡ OutOfMemory) }
{
    let mut writes = Vec::new(alloc);
    for (_name, write) in changed.iter() {
        writes.push(write.try_copy(alloc)?)?;
    }
    Ok(writes)
}
