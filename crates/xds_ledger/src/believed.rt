// What a client is believed to hold, by name: what it was told by an offer that others may hold, too, and a few
// differences.
ghost use Rattle.std.specs.Prelude.{◌≡◌, true, Some, is_some, IfOk, IfErr, OnOk, OnErr};
ghost use Rattle.std.specs.Option.{option_map};
ghost use Rattle.std.specs.FinMap as finmap;
ghost use Rattle.xds_resource.specs.declared.refusal.Refusal.TheVariants.{OutOfMemory};
ghost use Rattle.xds_resource.specs.Names.{put_some};
ghost use Rattle.xds_ledger.specs.Changes.{Lead};
ghost use Rattle.xds_ledger.specs.Overlay.{entry_of, told_by, overlaid};

use crate::differences::Differences;
use crate::entry::{Due, Entry};
use crate::flat::flattened;
use crate::shared_map::SharedMap;
use crate::storing::change;
use crate::told::{Believed, by_difference, told_in};
use std::alloc::Global;
use std::marker::Model;
use xds_resource::{NameMap, Refusal};

/// What is believed of some names. Contracts see the finite map from the bytes of the names.
pub struct Beliefs {
    // An offer that was accepted: what many clients may have been told.
    base: Option<SharedMap<Due>>,
    // The names of which something else is believed.
    changed: Differences,
}

// Written out: docs/PROVING.md, "Drops".
impl Drop for Beliefs {
    fn drop(self) {
        let Beliefs {
            base: _,
            changed: _,
        } = self;
    }
}

impl Model for Beliefs {
    ghost use Rattle.std.specs.Coded.{coded_ℕ, coded_list};
    ghost use Rattle.std.specs.FinMap as finmap;
    ghost use Rattle.xds_ledger.specs.Owed as owed;
    ghost use Rattle.xds_ledger.specs.Owed.{entry_code};
    ghost use Rattle.xds_ledger.specs.Overlay.{overlaid, told_by};

    ghost Value = { owed.Beliefs };

    ghost coded = { finmap.code (coded_list coded_ℕ) entry_code };

    ghost view = { λ b. overlaid (told_by b.base) b.changed };
}

// The same offer, with one owner more.
fn shared(base: &Option<SharedMap<Due>>) -> Result<Option<SharedMap<Due>>, Refusal>
    ensures ok { IfOk result (λ b. b ≡ base.now) }
    ensures refused { IfErr result (λ e. e ≡ OutOfMemory) }
{
    match base {
        Some(offer) => Ok(Some(offer.try_copy()?)),
        None => Ok(None),
    }
}

// The offer, if there is one.
fn told_of(base: &Option<SharedMap<Due>>) -> Option<&NameMap<Due>>
    ensures { option_map (λ m. m.now) result ≡ base.now }
{
    match base {
        Some(offer) => Some(offer.as_map()),
        None => None,
    }
}

impl Beliefs {
    pub fn new(alloc: Global) -> Beliefs
        ensures { result ≡ finmap.empty }
    {
        Beliefs {
            base: None,
            changed: Differences::new(alloc),
        }
    }

    /// What an offer told, but for some differences. Any offer and any differences will do.
    pub fn of_offer(offer: SharedMap<Due>, changed: Differences) -> Beliefs
        ensures { result ≡ overlaid (told_by (Some offer)) changed }
    {
        Beliefs {
            base: Some(offer),
            changed,
        }
    }

    pub fn get(&self, name: &str) -> Option<Believed<'_>>
        ensures { option_map entry_of result ≡ finmap.get self.now name.now }
    {
        match self.changed.get(name) {
            Some(entry) => by_difference(entry),
            None => told_in(&self.base, name),
        }
    }

    pub fn contains(&self, name: &str) -> bool
        ensures { result ≡ is_some (finmap.get self.now name.now) }
    {
        self.get(name).is_some()
    }

    /// Whether nothing is believed, as far as that is seen at once.
    pub fn is_empty(&self) -> bool
        ensures { result ≡ true → self.now ≡ finmap.empty }
    {
        match &self.base {
            Some(_) => false,
            None => self.changed.is_empty(),
        }
    }

    // What an offer told, if one was accepted as it was, and the differences from it.
    pub(crate) fn parts(&self) -> (Option<&NameMap<Due>>, &Differences)
        ensures { overlaid (told_by (option_map (λ m. m.now) result.0)) result.1.now ≡ self.now }
    {
        (told_of(&self.base), &self.changed)
    }

    /// How many names were told, and how many differ.
    pub(crate) fn sizes(&self) -> (u64, u64) {
        let told = match &self.base {
            Some(offer) => offer.as_map().iter().len() as u64,
            None => 0,
        };
        (told, self.changed.iter().len() as u64)
    }

    /// How many names were told or differ: no fewer than those of which something is believed, if they can be counted.
    pub(crate) fn how_many(&self) -> u64 {
        let (told, different) = self.sizes();
        told.saturating_add(different)
    }

    /// Puts an entry at a name, if there is one to put. Refused only by `OutOfMemory`.
    pub fn put(&mut self, alloc: Global, name: &str, entry: Option<Entry>) -> Result<(), Refusal>
        ensures ok { OnOk result (self.new ≡ put_some self.old name.now entry) }
        ensures err { OnErr result (self.new ≡ self.old) }
        ensures refused { IfErr result (λ e. e ≡ OutOfMemory) }
    {
        match entry {
            Some(entry) => self.changed.put(alloc, name, Some(Some(entry))),
            None => Ok(()),
        }
    }

    /// Makes the changes, all or none. It looks at the names that they speak of alone. Refused only by `OutOfMemory`.
    pub fn change(&mut self, alloc: Global, changes: NameMap<Option<Entry>>) -> Result<(), Refusal>
        ensures ok { OnOk result (Lead changes self.old self.new) }
        ensures err { OnErr result (self.new ≡ self.old) }
        ensures refused { IfErr result (λ e. e ≡ OutOfMemory) }
    {
        change(alloc, &self.base, &mut self.changed, changes)
    }

    /// All that is believed, in one map. Refused only by `OutOfMemory`.
    pub fn flattened(&self, alloc: Global) -> Result<NameMap<Entry>, Refusal>
        ensures ok { IfOk result (λ m. m ≡ self.now) }
        ensures refused { IfErr result (λ e. e ≡ OutOfMemory) }
    {
        let all = flattened(alloc, &self.base, &self.changed)?;
        Ok(all)
    }

    /// Equal beliefs, with the same offer, and differences of their own. Refused only by `OutOfMemory`.
    pub fn try_copy(&self, alloc: Global) -> Result<Beliefs, Refusal>
        ensures ok { IfOk result (λ b. b ≡ self.now) }
        ensures refused { IfErr result (λ e. e ≡ OutOfMemory) }
    {
        let base = shared(&self.base)?;
        let changed = self.changed.try_copy(alloc)?;
        Ok(Beliefs { base, changed })
    }
}
