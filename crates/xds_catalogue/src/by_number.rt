// Values by number.
ghost use Rattle.std.specs.Prelude.{◌≡◌, false, is_some, IsSome, IfOk, IfErr, IfSome, IfNone, OnOk, OnErr};
ghost use Rattle.std.specs.Option.{option_map};
ghost use Rattle.std.specs.FinMap as finmap;
ghost use Rattle.xds_resource.specs.declared.refusal.Refusal.TheVariants.{OutOfMemory};
ghost use Rattle.xds_catalogue.specs.Tables.{by_number};

use std::alloc::Global;
use std::collections::BTreeMap;
use std::collections::btree_map::Iter;
use std::marker::Model;
use std::mem;
use xds_resource::Refusal;

/// A finite map from numbers, in ascending order. Contracts see the finite map.
pub struct ByNumber<V> {
    values: BTreeMap<u64, V>,
}

// Written out: docs/PROVING.md, "Drops".
impl<V: Drop> Drop for ByNumber<V> {
    fn drop(self) {
        let ByNumber { values: _ } = self;
    }
}

impl<V> Model for ByNumber<V> {
    ghost use Rattle.std.specs.Coded.{coded_ℕ};
    ghost use Rattle.std.specs.Ordering.{nat_cmp};
    ghost use Rattle.std.specs.FinMap as finmap;
    ghost use Rattle.xds_catalogue.specs.Tables.{by_number};

    ghost Value = { finmap.FinMap nat_cmp V };

    ghost coded = { finmap.code coded_ℕ V.code };

    ghost view = { λ m. by_number (λ v. v) m.values.entries };
}

impl<V: Drop> ByNumber<V> {
    /// No value at any number.
    pub fn new(alloc: Global) -> ByNumber<V>
        ensures { result ≡ finmap.empty }
    {
        ByNumber {
            values: BTreeMap::new(alloc),
        }
    }

    /// The value at a number.
    pub fn get(&self, number: u64) -> Option<&V>
        ensures { option_map (λ v. v.now) result ≡ finmap.get self.now number }
    {
        self.values.get(&number)
    }

    /// Puts a value at a number. Refused only by `OutOfMemory`.
    pub fn insert(&mut self, number: u64, value: V) -> Result<(), Refusal>
        ensures ok { OnOk result (self.new ≡ finmap.insert self.old number value) }
        ensures err { OnErr result (self.new ≡ self.old) }
        ensures refused { IfErr result (λ e. e ≡ OutOfMemory) }
    {
        drop(self.values.insert(number, value)?);
        Ok(())
    }

    /// Takes a number out, and answers whether it was there.
    pub fn remove(&mut self, number: u64) -> bool
        ensures removed { self.new ≡ finmap.remove self.old number }
        ensures old { result ≡ is_some (finmap.get self.old number) }
        ensures none { result ≡ false → self.new ≡ self.old }
    {
        self.values.remove(&number).is_some()
    }

    /// Takes the value at a number out.
    pub fn take_out(&mut self, number: u64) -> Option<V>
        ensures taken { self.new ≡ finmap.remove self.old number }
        ensures old { result ≡ finmap.get self.old number }
    {
        self.values.remove(&number)
    }

    /// Puts a value at a number that has one, in its place. It takes no memory.
    pub fn set(&mut self, number: u64, value: V)
        requires { IsSome (finmap.get self.old number) }
        ensures { self.new ≡ finmap.insert self.old number value }
    {
        if let Some(held) = self.values.get_mut(&number) {
            *held = value;
        }
    }

    /// Puts a value at a number that has one, and answers that one. It takes no memory; at a number that has none it
    /// does nothing.
    pub fn replace(&mut self, number: u64, value: V) -> Option<V>
        ensures old { result ≡ finmap.get self.old number }
        ensures found { IfSome result (λ v. self.new ≡ finmap.insert self.old number value) }
        ensures none { IfNone result (self.new ≡ self.old) }
    {
        let held = self.values.get_mut(&number)?;
        Some(mem::replace(held, value))
    }

    /// The numbers with their values, in ascending order.
    pub fn iter(&self) -> Iter<'_, u64, V>
        ensures { result ≡ finmap.entries self.now }
    {
        self.values.iter()
    }
}
