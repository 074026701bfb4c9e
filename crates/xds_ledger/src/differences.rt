// Differences from what many were told, by name, as a map that changes in place.
ghost use Rattle.std.specs.Prelude.{◌≡◌, true, is_some, IfOk, IfErr, OnOk, OnErr};
ghost use Rattle.std.specs.Option.{option_map};
ghost use Rattle.std.specs.FinMap as finmap;
ghost use Rattle.xds_resource.specs.declared.refusal.Refusal.TheVariants.{OutOfMemory};
ghost use Rattle.xds_resource.specs.Names.{pairs, put_some};
ghost use Rattle.xds_ledger.specs.Storing.{replaced};

use crate::entry::Entry;
use std::alloc::Global;
use std::collections::BTreeMap;
use std::collections::btree_map::Iter;
use std::marker::Model;
use xds_resource::Refusal;

/// What is believed of some names in place of what many were told: an entry, or none. Contracts see the finite map from
/// the bytes of the names.
pub struct Differences {
    by_name: BTreeMap<String, Option<Entry>>,
}

// Written out: docs/PROVING.md, "Drops".
impl Drop for Differences {
    fn drop(self) {
        let Differences { by_name: _ } = self;
    }
}

impl Model for Differences {
    ghost use Rattle.std.specs.Coded.{coded_ℕ, coded_list, coded_option};
    ghost use Rattle.std.specs.FinMap as finmap;
    ghost use Rattle.xds_resource.specs.Names.{pairs};
    ghost use Rattle.xds_ledger.specs.Overlay as overlay;
    ghost use Rattle.xds_ledger.specs.Owed.{entry_code};

    ghost Value = { overlay.Differences };

    ghost coded = { finmap.code (coded_list coded_ℕ) (coded_option entry_code) };

    ghost view = { λ d. finmap.from_entries (pairs d.by_name.entries) };
}

// Puts a value in the place of another. Of a type parameter, a drop is one step to the proof.
pub(crate) fn put_at<V: Drop>(place: &mut V, value: V)
    ensures { place.new ≡ value }
{
    *place = value;
}

/// A copy of what is believed of a name. Refused only by `OutOfMemory`.
pub fn copy_of(alloc: Global, entry: &Option<Entry>) -> Result<Option<Entry>, Refusal>
    ensures ok { IfOk result (λ e. e ≡ entry.now) }
    ensures refused { IfErr result (λ e. e ≡ OutOfMemory) }
{
    match entry {
        Some(entry) => Ok(Some(entry.try_copy(alloc)?)),
        None => Ok(None),
    }
}

// Puts a copy of a difference.
fn put_copy(
    alloc: Global,
    copy: &mut Differences,
    name: &str,
    entry: &Option<Entry>,
) -> Result<(), Refusal>
    ensures ok { OnOk result (copy.new ≡ finmap.insert copy.old name.now entry.now) }
    ensures refused { IfErr result (λ e. e ≡ OutOfMemory) }
{
    let difference = copy_of(alloc, entry)?;
    copy.put(alloc, name, Some(difference))
}

impl Differences {
    /// No difference.
    pub fn new(alloc: Global) -> Differences
        ensures { result ≡ finmap.empty }
    {
        Differences {
            by_name: BTreeMap::new(alloc),
        }
    }

    pub fn get(&self, name: &str) -> Option<&Option<Entry>>
        ensures { option_map (λ e. e.now) result ≡ finmap.get self.now name.now }
    {
        self.by_name.get(name)
    }

    pub fn contains(&self, name: &str) -> bool
        ensures { result ≡ is_some (finmap.get self.now name.now) }
    {
        self.get(name).is_some()
    }

    /// Whether there is none.
    pub fn is_empty(&self) -> bool
        ensures { result ≡ true → self.now ≡ finmap.empty }
    {
        match self.iter().next() {
            Some(_) => false,
            None => true,
        }
    }

    /// The names with their differences, in ascending order of names.
    pub fn iter(&self) -> Iter<'_, String, Option<Entry>>
        ensures { pairs result ≡ finmap.entries self.now }
    {
        self.by_name.iter()
    }

    /// Puts a difference at a name, if there is one to put. Refused only by `OutOfMemory`.
    pub fn put(
        &mut self,
        alloc: Global,
        name: &str,
        entry: Option<Option<Entry>>,
    ) -> Result<(), Refusal>
        ensures ok { OnOk result (self.new ≡ put_some self.old name.now entry) }
        ensures err { OnErr result (self.new ≡ self.old) }
        ensures refused { IfErr result (λ e. e ≡ OutOfMemory) }
    {
        if let Some(entry) = entry {
            let name = String::from_str(alloc, name)?;
            drop(self.by_name.insert(name, entry)?);
        }
        Ok(())
    }

    /// Writes over the difference of a name, if it has one. It takes no memory.
    pub fn replace(&mut self, name: &str, entry: Option<Entry>)
        ensures { self.new ≡ replaced self.old name.now entry }
    {
        if let Some(held) = self.by_name.get_mut(name) {
            put_at(held, entry);
        }
    }

    pub fn remove(&mut self, name: &str)
        ensures { self.new ≡ finmap.remove self.old name.now }
    {
        self.by_name.remove(name);
    }

    /// Equal differences, with memory of their own. Refused only by `OutOfMemory`.
    pub fn try_copy(&self, alloc: Global) -> Result<Differences, Refusal>
        ensures ok { IfOk result (λ d. d ≡ self.now) }
        ensures refused { IfErr result (λ e. e ≡ OutOfMemory) }
    {
        let mut copy = Differences::new(alloc);
        for (name, entry) in self.iter() {
            put_copy(alloc, &mut copy, name, entry)?;
        }
        Ok(copy)
    }
}
