// The map from names: what stands under each name, and the number of the change that put it there.
ghost use Rattle.std.specs.Prelude.{◌≡◌, map, false, OnOk, OnErr, IfOk, IfErr};
ghost use Rattle.std.specs.Option.{option_map};
ghost use Rattle.std.specs.List.{filter_map};
ghost use Rattle.std.specs.FinMap as finmap;
ghost use Rattle.xds_catalogue.specs.Holdings.{IsCatalogue};
ghost use Rattle.xds_catalogue.specs.Content.{content, live_at};
ghost use Rattle.xds_catalogue.specs.Tables.{no_names, with_name, with_former};

use std::alloc::{AllocError, Global};
use std::collections::BTreeMap;
use std::marker::Model;
use std::mem;
use xds_interest::Interest;
use xds_resource::{Refusal, ResourceType, Write};

// A write that stands, and the number of the change that put it there.
pub(crate) struct StandingWrite<T: ResourceType> {
    pub(crate) write: Write<T>,
    pub(crate) change: u64,
}

// Written out: docs/PROVING.md, "Drops".
impl<T: ResourceType> Drop for StandingWrite<T> {
    fn drop(self) {
        let StandingWrite {
            write: _,
            change: _,
        } = self;
    }
}

impl<T: ResourceType> Model for StandingWrite<T> {
    ghost use Rattle.xds_catalogue.specs.Tables.{NumberedWrite, numbered_code};

    ghost Value = { NumberedWrite };

    ghost coded = { numbered_code };

    ghost view = { λ e. record { write = e.write; change = e.change } };
}

impl<T: ResourceType> StandingWrite<T> {
    pub(crate) fn write(&self) -> &Write<T>
        ensures { result.now ≡ self.now.write }
    {
        &self.write
    }

    pub(crate) fn change(&self) -> u64
        ensures { result ≡ self.now.change }
    {
        self.change
    }
}

impl<T: ResourceType> Clone for StandingWrite<T> {
    ghost use Rattle.std.specs.Prelude.{◌≡◌};

    ghost is_clone = { λ e c. c ≡ e };

    fn clone(&self) -> Result<StandingWrite<T>, AllocError> {
        Ok(StandingWrite {
            write: self.write.clone()?,
            change: self.change,
        })
    }
}

pub(crate) struct WritesByName<T: ResourceType> {
    by_name: BTreeMap<String, StandingWrite<T>>,
    alloc: Global,
}

// Written out: docs/PROVING.md, "Drops".
impl<T: ResourceType> Drop for WritesByName<T> {
    fn drop(self) {
        let WritesByName {
            by_name: _,
            alloc: _,
        } = self;
    }
}

impl<T: ResourceType> Model for WritesByName<T> {
    ghost use Rattle.xds_catalogue.specs.Tables.{Named, named_code, named_by};

    ghost Value = { Named };

    ghost coded = { named_code };

    ghost view = { λ n. named_by n.by_name.entries };
}

impl<T: ResourceType> WritesByName<T> {
    pub(crate) fn new(alloc: Global) -> Self
        ensures { result ≡ no_names }
    {
        WritesByName {
            by_name: BTreeMap::new(alloc),
            alloc,
        }
    }

    pub(crate) fn get(&self, name: &str) -> Option<&StandingWrite<T>>
        ensures write { option_map (λ e. e.now.write) result ≡ finmap.get self.now.entries name.now }
        ensures change { option_map (λ e. e.now.change) result ≡ finmap.get self.now.latest name.now }
    {
        self.by_name.get(name)
    }

    // Puts an entry under its write's name, whatever stood there.
    pub(crate) fn put(&mut self, entry: StandingWrite<T>) -> Result<(), Refusal>
        ensures ok { OnOk result (self.new ≡ with_name self.old entry.write.name entry) }
        ensures err { OnErr result (self.new ≡ self.old) }
        ensures refused { IfErr result (λ e. e ≡ Refusal.OutOfMemory) }
    {
        let name = String::from_str(self.alloc, entry.write().name())?;
        drop(self.by_name.insert(name, entry)?);
        Ok(())
    }

    // Puts back what stood under a name, or nothing. It takes no memory.
    pub(crate) fn put_back(&mut self, name: &str, former: Option<StandingWrite<T>>)
        ensures { self.new ≡ with_former self.old name.now former }
    {
        match former {
            Some(entry) => {
                if let Some(held) = self.by_name.get_mut(name) {
                    drop(mem::replace(held, entry));
                } else {
                    drop(entry);
                }
            }
            None => drop(self.by_name.remove(name)),
        }
    }

    // rule: tombstones
    // What stands under each name, in ascending order of names.
    pub(crate) fn in_order(&self, alloc: Global) -> Result<Vec<&Write<T>>, Refusal>
        ensures ok { IfOk result (λ v. map (λ w. w.now) v.items ≡ finmap.values self.now.entries) }
        ensures err { IfErr result (λ e. e ≡ Refusal.OutOfMemory) }
    {
        let by_name = &self.by_name;
        let mut writes = Vec::new(alloc);
        for (_name, entry) in by_name {
            writes.push(entry.write())?;
        }
        Ok(writes)
    }

    // rule: tombstones
    // What stands live under a name.
    fn live(&self, name: &str) -> Option<&Write<T>>
        ensures { option_map (λ w. w.now) result ≡ live_at self.now.entries name.now }
    {
        let write = self.get(name)?.write();
        write.body()?;
        Some(write)
    }

    // rule: star-covers
    // The live writes of the explicit names of an interest without the star, in ascending order of names.
    pub(crate) fn shown(
        &self,
        alloc: Global,
        interest: &Interest<T>,
    ) -> Result<Vec<&Write<T>>, Refusal>
        requires named { IsCatalogue self.now.entries }
        requires no_star { interest.now.star ≡ false }
        ensures ok { IfOk result (λ v. map (λ w. w.now) v.items ≡ content self.now.entries interest.now) }
        ensures err { IfErr result (λ e. e ≡ Refusal.OutOfMemory) }
    {
        let names = interest.names();
        let mut shown = Vec::new(alloc);
        for name in names {
            if let Some(write) = self.live(name.as_str()) {
                shown.push(write)?;
            }
        }
        Ok(shown)
    }

    // rule: tombstones
    // What stands live under each of some names, in the order of these.
    pub(crate) fn live_under(
        &self,
        alloc: Global,
        names: &[&str],
    ) -> Result<Vec<&Write<T>>, Refusal>
        ensures ok { IfOk result (λ v. map (λ w. w.now) v.items ≡ filter_map (live_at self.now.entries) (map (λ n. n.now) names.now)) }
        ensures err { IfErr result (λ e. e ≡ Refusal.OutOfMemory) }
    {
        let mut live = Vec::with_capacity(alloc, names.len())?;
        for name in names {
            if let Some(write) = self.live(name) {
                live.push(write)?;
            }
        }
        Ok(live)
    }

    // An equal map, with memory of its own.
    pub(crate) fn try_copy(&self, alloc: Global) -> Result<WritesByName<T>, Refusal>
        ensures ok { IfOk result (λ n. n ≡ self.now) }
        ensures err { IfErr result (λ e. e ≡ Refusal.OutOfMemory) }
    {
        Ok(WritesByName {
            by_name: self.by_name.clone()?,
            alloc,
        })
    }
}
