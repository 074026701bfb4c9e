// Maps from names, in ascending byte order of the names.
ghost use Rattle.std.specs.Prelude.{◌≡◌, is_some, IfOk, IfErr, OnOk, OnErr, string_bytes};
ghost use Rattle.std.specs.Option.{option_map};
ghost use Rattle.std.specs.FinMap as finmap;
ghost use Rattle.xds_resource.specs.Names.{pairs, put_some};

use crate::refusal::Refusal;
use std::alloc::Global;
use std::collections::BTreeMap;
use std::collections::btree_map::Iter;
use std::marker::Model;

/// Values by name. Contracts see the finite map from the bytes of the names.
pub struct NameMap<V> {
    by_name: BTreeMap<String, V>,
}

// Written out: docs/PROVING.md, "Drops".
impl<V: Drop> Drop for NameMap<V> {
    fn drop(self) {
        let NameMap { by_name: _ } = self;
    }
}

impl<V> Model for NameMap<V> {
    ghost use Rattle.std.specs.Coded.{coded_ℕ, coded_list};
    ghost use Rattle.std.specs.FinMap as finmap;
    ghost use Rattle.xds_resource.specs.Writes.{text_cmp};
    ghost use Rattle.xds_resource.specs.Names.{pairs};

    ghost Value = { finmap.FinMap text_cmp V };

    ghost coded = { finmap.code (coded_list coded_ℕ) V.code };

    ghost view = { λ m. finmap.from_entries (pairs m.by_name.entries) };
}

impl<V: Drop> NameMap<V> {
    /// A map with no name.
    pub fn new(alloc: Global) -> NameMap<V>
        ensures { result ≡ finmap.empty }
    {
        NameMap {
            by_name: BTreeMap::new(alloc),
        }
    }

    pub fn get(&self, name: &str) -> Option<&V>
        ensures { option_map (λ v. v.now) result ≡ finmap.get self.now name.now }
    {
        self.by_name.get(name)
    }

    pub fn contains(&self, name: &str) -> bool
        ensures { result ≡ is_some (finmap.get self.now name.now) }
    {
        self.get(name).is_some()
    }

    /// Puts a value at a name, in the place of the one that is there. Refused only by `OutOfMemory`.
    pub fn insert(&mut self, name: String, value: V) -> Result<Option<V>, Refusal>
        ensures ok { IfOk result (λ old. (self.new ≡ finmap.insert self.old (string_bytes name) value)) }
        ensures old { IfOk result (λ old. old ≡ finmap.get self.old (string_bytes name)) }
        ensures err { OnErr result (self.new ≡ self.old) }
        ensures refused { IfErr result (λ e. e ≡ Refusal.OutOfMemory) }
    {
        match self.by_name.insert(name, value) {
            Ok(old) => Ok(old),
            Err(_) => Err(Refusal::OutOfMemory),
        }
    }

    /// Puts a value at a name, if there is one to put. Refused only by `OutOfMemory`.
    pub fn put(&mut self, alloc: Global, name: &str, value: Option<V>) -> Result<(), Refusal>
        ensures ok { OnOk result (self.new ≡ put_some self.old name.now value) }
        ensures err { OnErr result (self.new ≡ self.old) }
        ensures refused { IfErr result (λ e. e ≡ Refusal.OutOfMemory) }
    {
        if let Some(value) = value {
            self.insert(String::from_str(alloc, name)?, value)?;
        }
        Ok(())
    }

    /// Takes a name out, and answers what stood at it.
    pub fn remove(&mut self, name: &str) -> Option<V>
        ensures removed { self.new ≡ finmap.remove self.old name.now }
        ensures old { result ≡ finmap.get self.old name.now }
    {
        self.by_name.remove(name)
    }

    /// The names with their values, in ascending order of names.
    pub fn iter(&self) -> Iter<'_, String, V>
        ensures { pairs result ≡ finmap.entries self.now }
    {
        self.by_name.iter()
    }
}
