// What a client holds of one type, by name, as a map that changes in place.
ghost use Rattle.std.specs.Prelude.{◌≡◌, is_some, IfErr, OnOk, OnErr};
ghost use Rattle.std.specs.Option.{option_map};
ghost use Rattle.std.specs.FinMap as finmap;
ghost use Rattle.xds_resource.specs.declared.refusal.Refusal.TheVariants.{OutOfMemory};
ghost use Rattle.xds_resource.specs.Names.{pairs, put_some};
ghost use Rattle.xds_cache.specs.InPlace.{replaced};

use crate::holding::Holding;
use std::alloc::Global;
use std::collections::BTreeMap;
use std::collections::btree_map::Iter;
use std::marker::Model;
use xds_resource::Refusal;

/// What is held, by name. Contracts see the finite map from the bytes of the names.
pub struct Cache {
    by_name: BTreeMap<String, Holding>,
}

// Written out: docs/PROVING.md, "Drops".
impl Drop for Cache {
    fn drop(self) {
        let Cache { by_name: _ } = self;
    }
}

impl Model for Cache {
    ghost use Rattle.std.specs.Coded.{coded_ℕ, coded_list};
    ghost use Rattle.std.specs.FinMap as finmap;
    ghost use Rattle.xds_resource.specs.Names.{pairs};
    ghost use Rattle.xds_cache.specs.Shelves as shelves;
    ghost use Rattle.xds_cache.specs.Shelves.{holding_code};

    ghost Value = { shelves.Cache };

    ghost coded = { finmap.code (coded_list coded_ℕ) holding_code };

    ghost view = { λ c. finmap.from_entries (pairs c.by_name.entries) };
}

// Puts a value in the place of another. Of a type parameter, a drop is one step to the proof.
fn put_at<V: Drop>(place: &mut V, value: V)
    ensures { place.new ≡ value }
{
    *place = value;
}

impl Cache {
    /// A cache in which nothing is held.
    pub fn new(alloc: Global) -> Cache
        ensures { result ≡ finmap.empty }
    {
        Cache {
            by_name: BTreeMap::new(alloc),
        }
    }

    pub fn get(&self, name: &str) -> Option<&Holding>
        ensures { option_map (λ v. v.now) result ≡ finmap.get self.now name.now }
    {
        self.by_name.get(name)
    }

    pub fn contains(&self, name: &str) -> bool
        ensures { result ≡ is_some (finmap.get self.now name.now) }
    {
        self.get(name).is_some()
    }

    /// The names with what is held of them, in ascending order of names.
    pub fn iter(&self) -> Iter<'_, String, Holding>
        ensures { pairs result ≡ finmap.entries self.now }
    {
        self.by_name.iter()
    }

    /// Puts a holding at a name, if there is one to put. Refused only by `OutOfMemory`.
    pub(crate) fn put(
        &mut self,
        alloc: Global,
        name: &str,
        holding: Option<Holding>,
    ) -> Result<(), Refusal>
        ensures ok { OnOk result (self.new ≡ put_some self.old name.now holding) }
        ensures err { OnErr result (self.new ≡ self.old) }
        ensures refused { IfErr result (λ e. e ≡ OutOfMemory) }
    {
        if let Some(holding) = holding {
            let name = String::from_str(alloc, name)?;
            drop(self.by_name.insert(name, holding)?);
        }
        Ok(())
    }

    /// Writes over what is held of a name, if something is. It takes no memory.
    pub(crate) fn replace(&mut self, name: &str, holding: Holding)
        ensures { self.new ≡ replaced self.old name.now holding }
    {
        if let Some(held) = self.by_name.get_mut(name) {
            put_at(held, holding);
        }
    }

    /// Takes a name out. It takes no memory.
    pub(crate) fn remove(&mut self, name: &str)
        ensures { self.new ≡ finmap.remove self.old name.now }
    {
        self.by_name.remove(name);
    }
}
