// What is believed, as one map of its own, for what changes all of it.
ghost use Rattle.std.specs.Prelude.{◌≡◌, IfOk, IfErr, OnOk};
ghost use Rattle.std.specs.FinMap as finmap;
ghost use Rattle.xds_resource.specs.Names.{put_all, put_some};
ghost use Rattle.xds_resource.specs.declared.refusal.Refusal.TheVariants.{OutOfMemory};
ghost use Rattle.xds_ledger.specs.Overlay.{flat, unless_changed};

use crate::beliefs::once_told;
use crate::differences::{Differences, copy_of};
use crate::entry::{Due, Entry};
use crate::shared_map::SharedMap;
use std::alloc::Global;
use xds_resource::{NameMap, Refusal};

// Puts what an offer tells of a name, unless there is a difference.
fn put_unless_changed(
    alloc: Global,
    changed: &Differences,
    all: &mut NameMap<Entry>,
    name: &str,
    due: &Due,
) -> Result<(), Refusal>
    ensures ok { OnOk result (all.new ≡ put_some all.old name.now (unless_changed changed.now name.now due.now)) }
    ensures refused { IfErr result (λ e. e ≡ OutOfMemory) }
{
    if changed.contains(name) {
        return Ok(());
    }
    let entry = once_told(alloc, false, due)?;
    all.put(alloc, name, entry)
}

// What an offer tells where there is no difference.
fn unchanged(
    alloc: Global,
    offer: &NameMap<Due>,
    changed: &Differences,
) -> Result<NameMap<Entry>, Refusal>
    ensures ok { IfOk result (λ m. m ≡ put_all (unless_changed changed.now) finmap.empty (finmap.entries offer.now)) }
    ensures refused { IfErr result (λ e. e ≡ OutOfMemory) }
{
    let mut all = NameMap::new(alloc);
    for (name, due) in offer.iter() {
        put_unless_changed(alloc, changed, &mut all, name, due)?;
    }
    Ok(all)
}

// Puts what is believed by a difference, if something is.
fn put_changed(
    alloc: Global,
    all: &mut NameMap<Entry>,
    name: &str,
    entry: &Option<Entry>,
) -> Result<(), Refusal>
    ensures ok { OnOk result (all.new ≡ put_some all.old name.now entry.now) }
    ensures refused { IfErr result (λ e. e ≡ OutOfMemory) }
{
    let copy = copy_of(alloc, entry)?;
    all.put(alloc, name, copy)
}

// Puts what is believed by differences.
fn with_changed(
    alloc: Global,
    start: NameMap<Entry>,
    changed: &Differences,
) -> Result<NameMap<Entry>, Refusal>
    ensures ok { IfOk result (λ m. m ≡ put_all (λ name entry. entry) start (finmap.entries changed.now)) }
    ensures refused { IfErr result (λ e. e ≡ OutOfMemory) }
{
    let mut all = start;
    for (name, entry) in changed.iter() {
        put_changed(alloc, &mut all, name, entry)?;
    }
    Ok(all)
}

/// What an offer told, if there is one, with differences, as one map. Refused only by `OutOfMemory`.
pub fn flattened(
    alloc: Global,
    base: &Option<SharedMap<Due>>,
    changed: &Differences,
) -> Result<NameMap<Entry>, Refusal>
    ensures ok { IfOk result (λ m. m ≡ flat base.now changed.now) }
    ensures refused { IfErr result (λ e. e ≡ OutOfMemory) }
{
    match base {
        Some(offer) => with_changed(alloc, unchanged(alloc, offer.as_map(), changed)?, changed),
        None => with_changed(alloc, NameMap::new(alloc), changed),
    }
}
