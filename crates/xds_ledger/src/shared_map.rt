// A map that is made once, and held by all that share it.
ghost use Rattle.std.specs.Prelude.{◌≡◌, is_some, IfOk, IfErr};
ghost use Rattle.std.specs.Option.{option_map};
ghost use Rattle.std.specs.FinMap as finmap;
ghost use Rattle.xds_resource.specs.declared.refusal.Refusal.TheVariants.{OutOfMemory};

use std::alloc::Global;
use std::marker::Model;
use std::sync::Arc;
use xds_resource::{NameMap, Refusal};

/// A map from names that can't change any more. Contracts see the finite map from the bytes of the names.
pub struct SharedMap<V> {
    map: Arc<NameMap<V>>,
}

// Written out: docs/PROVING.md, "Drops".
impl<V: Drop> Drop for SharedMap<V> {
    fn drop(self) {
        let SharedMap { map: _ } = self;
    }
}

impl<V> Model for SharedMap<V> {
    ghost use Rattle.std.specs.Arc.{arc_value};
    ghost use Rattle.std.specs.Coded.{coded_ℕ, coded_list};
    ghost use Rattle.std.specs.FinMap as finmap;
    ghost use Rattle.xds_resource.specs.Writes.{text_cmp};

    ghost Value = { finmap.FinMap text_cmp V };

    ghost coded = { finmap.code (coded_list coded_ℕ) V.code };

    ghost view = { λ s. arc_value s.map };
}

impl<V: Drop> SharedMap<V> {
    /// What a map says, from now on shared. Refused only by `OutOfMemory`.
    pub fn new(alloc: Global, map: NameMap<V>) -> Result<SharedMap<V>, Refusal>
        ensures ok { IfOk result (λ s. s ≡ map) }
        ensures refused { IfErr result (λ e. e ≡ OutOfMemory) }
    {
        match Arc::new(alloc, map) {
            Ok(map) => Ok(SharedMap { map }),
            Err(_) => Err(Refusal::OutOfMemory),
        }
    }

    /// The map.
    pub fn as_map(&self) -> &NameMap<V>
        ensures { result.now ≡ self.now }
    {
        &self.map
    }

    pub fn get(&self, name: &str) -> Option<&V>
        ensures { option_map (λ v. v.now) result ≡ finmap.get self.now name.now }
    {
        self.map.get(name)
    }

    pub fn contains(&self, name: &str) -> bool
        ensures { result ≡ is_some (finmap.get self.now name.now) }
    {
        self.map.contains(name)
    }

    /// The same map with one owner more. It takes no memory, and is refused only where the owners can't be counted, by
    /// `OutOfMemory`.
    pub fn try_copy(&self) -> Result<SharedMap<V>, Refusal>
        ensures ok { IfOk result (λ s. s ≡ self.now) }
        ensures refused { IfErr result (λ e. e ≡ OutOfMemory) }
    {
        match Arc::try_clone(&self.map) {
            Ok(map) => Ok(SharedMap { map }),
            Err(_) => Err(Refusal::OutOfMemory),
        }
    }
}
