// The names that a request touches.
ghost use Rattle.std.specs.Prelude.{◌≡◌, map, IfOk, IfErr};
ghost use Rattle.std.specs.String.{string_bytes, string_cmp};
ghost use Rattle.std.specs.List.Sorted.{IsStrictlySortedBy};
ghost use Rattle.std.specs.FinSet as set;
ghost use Rattle.xds_resource.specs.declared.refusal.Refusal.TheVariants.{OutOfMemory};
ghost use Rattle.xds_interest.specs.Touches.{touches, no_touch};

use crate::names::NameSet;
use std::alloc::Global;
use std::collections::btree_set::Iter;
use std::marker::Model;
use xds_resource::Refusal;

/// The names that a request touches: each of some names, or every name. A server answers them anew.
pub struct Touched {
    all: bool,
    names: NameSet,
}

// Written out: docs/PROVING.md, "Drops".
impl Drop for Touched {
    fn drop(self) {
        let Touched { all: _, names: _ } = self;
    }
}

impl Model for Touched {
    ghost use Rattle.xds_interest.specs.Touches.{Touch, touch_code};

    ghost Value = { Touch };

    ghost coded = { touch_code };

    ghost view = { λ t. record { all = t.all; names = t.names } };
}

impl Touched {
    pub(crate) fn of_parts(all: bool, names: NameSet) -> Touched
        ensures { result ≡ record { all = all; names = names } }
    {
        Touched { all, names }
    }

    /// No name. It takes no memory.
    pub fn nothing(alloc: Global) -> Touched
        ensures { result ≡ no_touch }
    {
        Touched::of_parts(false, NameSet::new(alloc))
    }

    /// Whether the name is touched.
    pub fn touches(&self, name: &str) -> bool
        ensures { result ≡ touches self.now name.now }
    {
        self.all || self.names.contains(name)
    }

    /// Whether every name is touched.
    pub fn all(&self) -> bool
        ensures { result ≡ self.now.all }
    {
        self.all
    }

    /// The names that are touched in any case, in ascending order.
    pub fn names(&self) -> Iter<'_, String>
        ensures names { set.from_list (map string_bytes result) ≡ self.now.names }
        ensures ascending { IsStrictlySortedBy string_cmp result }
    {
        self.names.iter()
    }

    /// The same names, with memory of their own. Refused only by `OutOfMemory`.
    pub fn try_copy(&self, alloc: Global) -> Result<Touched, Refusal>
        ensures ok { IfOk result (λ t. t ≡ self.now) }
        ensures err { IfErr result (λ e. e ≡ OutOfMemory) }
    {
        let names = self.names.try_copy()?;
        Ok(Touched {
            all: self.all,
            names,
        })
    }
}
