// The map from the number of an entry's latest change to its name.
ghost use Rattle.std.specs.Prelude.{◌≡◌, ◌≤◌, ◌<◌, ◌^◌, ℕ, Some, None, IsSome, IfSome, IfNone, OnOk, OnErr, IfOk, IfErr};
ghost use Rattle.std.specs.Arc.{arc_str_bytes};
ghost use Rattle.std.specs.FinMap as finmap;

use std::alloc::Global;
use std::collections::BTreeMap;
use std::marker::Model;
use std::sync::ArcStr;
use xds_resource::Refusal;

pub(crate) struct NamesByNumber {
    names: BTreeMap<u64, ArcStr<Global>>,
}

// Written out: docs/PROVING.md, "Drops".
impl Drop for NamesByNumber {
    fn drop(self) {
        let NamesByNumber { names: _ } = self;
    }
}

impl Model for NamesByNumber {
    ghost use Rattle.std.specs.Prelude.{ℕ, List};
    ghost use Rattle.std.specs.Coded.{coded_ℕ, coded_list};
    ghost use Rattle.std.specs.Ordering.{nat_cmp};
    ghost use Rattle.std.specs.Arc.{arc_str_bytes};
    ghost use Rattle.std.specs.FinMap as finmap;
    ghost use Rattle.xds_catalogue.specs.Tables.{by_number};

    ghost Value = { finmap.FinMap nat_cmp (List ℕ) };

    ghost coded = { finmap.code coded_ℕ (coded_list coded_ℕ) };

    ghost view = { λ n. by_number arc_str_bytes n.names.entries };
}

impl NamesByNumber {
    pub(crate) fn new(alloc: Global) -> Self
        ensures { result ≡ finmap.empty }
    {
        NamesByNumber {
            names: BTreeMap::new(alloc),
        }
    }

    pub(crate) fn insert(&mut self, number: u64, name: ArcStr<Global>) -> Result<(), Refusal>
        ensures ok { OnOk result (self.new ≡ finmap.insert self.old number (arc_str_bytes name)) }
        ensures err { OnErr result (self.new ≡ self.old) }
        ensures refused { IfErr result (λ e. e ≡ Refusal.OutOfMemory) }
    {
        drop(self.names.insert(number, name)?);
        Ok(())
    }

    pub(crate) fn remove(&mut self, number: u64)
        ensures { self.new ≡ finmap.remove self.old number }
    {
        drop(self.names.remove(&number));
    }

    // rule: marks
    // The least number from this one on, with its name.
    pub(crate) fn first_from(&self, start: u64) -> Option<(u64, &str)>
        ensures found { IfSome result (λ p. finmap.get self.now p.0 ≡ Some p.1.now) }
        ensures from { IfSome result (λ p. start ≤ p.0) }
        ensures least { IfSome result (λ p. (k : ℕ) → start ≤ k → IsSome (finmap.get self.now k) → p.0 ≤ k) }
        ensures none { IfNone result ((k : ℕ) → start ≤ k → finmap.get self.now k ≡ None) }
    {
        let (number, name) = self.names.range(start..).next()?;
        Some((*number, name.as_str()))
    }

    pub(crate) fn try_copy(&self) -> Result<NamesByNumber, Refusal>
        ensures ok { IfOk result (λ n. n ≡ self.now) }
        ensures err { IfErr result (λ e. e ≡ Refusal.OutOfMemory) }
    {
        Ok(NamesByNumber {
            names: self.names.clone()?,
        })
    }
}
