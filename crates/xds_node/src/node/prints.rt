// Fingerprints of names, and sets of them.
ghost use Rattle.std.specs.Prelude.{◌≡◌, ◌≢◌, ◌++◌, MatchBool, IfSome};
ghost use Rattle.std.specs.Bool.{OnTrue};
ghost use Rattle.std.specs.List.{list_all, list_any};
ghost use Rattle.std.specs.FinSet as set;
ghost use Rattle.xds_node.specs.Prints.{mixed, print, shares};

use std::alloc::Global;
use std::marker::Model;
use xds_resource::TypeName;

/// As many are put among others one by one at most.
const FEW: usize = 16;

/// What FNV-1a of 64 bits begins with, and multiplies by.
const FIRST_PRINT: u64 = 0xcbf2_9ce4_8422_2325;

const PRIME: u64 = 0x0100_0000_01b3;

/// A set of fingerprints. Contracts see the finite set of numbers.
pub struct Prints {
    // Ascending.
    sorted: Vec<u64>,
}

// Written out: docs/PROVING.md, "Drops".
impl Drop for Prints {
    fn drop(self) {
        let Prints { sorted: _ } = self;
    }
}

impl Model for Prints {
    ghost use Rattle.std.specs.Coded.{coded_ℕ};
    ghost use Rattle.std.specs.List.Sorted.{IsNonDecreasing};
    ghost use Rattle.std.specs.Ordering.{nat_cmp};
    ghost use Rattle.std.specs.FinSet as set;

    ghost Value = { set.FinSet nat_cmp };

    ghost coded = { set.code coded_ℕ };

    ghost view = { λ p. set.from_list p.sorted.items };

    ghost invariant = { λ p. IsNonDecreasing p.sorted.items };
}

impl Prints {
    /// None.
    pub fn none(alloc: Global) -> Prints
        ensures { result ≡ set.empty }
    {
        Prints {
            sorted: Vec::new(alloc),
        }
    }

    /// Those of a list.
    pub fn of(prints: Vec<u64>) -> Prints
        ensures { result ≡ set.from_list prints.items }
    {
        let mut sorted = prints;
        sorted.sort_unstable();
        Prints { sorted }
    }

    /// Whether there is none.
    pub fn is_empty(&self) -> bool
        ensures { MatchBool result (self.now ≡ set.empty) (self.now ≢ set.empty) }
    {
        self.sorted.as_slice().is_empty()
    }

    /// How many there are.
    pub fn len(&self) -> usize {
        self.sorted.len()
    }

    // rule: wake-ups
    /// Whether it is among them.
    pub fn contains(&self, print: u64) -> bool
        ensures { result ≡ set.contains self.now print }
    {
        self.sorted.binary_search(&print).is_ok()
    }

    /// Whether those of another are all among them.
    pub fn has_all(&self, more: &Prints) -> bool
        ensures { result ≡ set.is_subset more.now self.now }
    {
        self.has_each(more.sorted.as_slice())
    }

    fn has_each(&self, prints: &[u64]) -> bool
        ensures { result ≡ list_all (set.contains self.now) prints.now }
    {
        for print in prints {
            if !self.contains(*print) {
                return false;
            }
        }
        true
    }

    // rule: wake-ups
    /// Whether one is in both.
    pub fn meets(&self, other: &Prints) -> bool
        ensures { result ≡ shares self.now other.now }
    {
        self.has_any(other.sorted.as_slice())
    }

    fn has_any(&self, prints: &[u64]) -> bool
        ensures { result ≡ list_any (set.contains self.now) prints.now }
    {
        for print in prints {
            if self.contains(*print) {
                return true;
            }
        }
        false
    }

    // rule: wake-ups
    /// Puts those of another in. Answers whether there was memory for them.
    pub fn unite(&mut self, more: &Prints, alloc: Global) -> bool
        ensures { OnTrue result (self.new ≡ set.union self.old more.now) }
    {
        if more.len() <= FEW {
            return self.insert_each(more.sorted.as_slice());
        }
        match self.united(more, alloc) {
            Some(all) => {
                *self = all;
                true
            }
            None => false,
        }
    }

    // Puts those of a list in.
    fn insert_each(&mut self, prints: &[u64]) -> bool
        ensures { OnTrue result (self.new ≡ set.union self.old (set.from_list prints.now)) }
    {
        for print in prints {
            if !self.insert(*print) {
                return false;
            }
        }
        true
    }

    // Puts one in. Answers whether there was memory for it.
    fn insert(&mut self, print: u64) -> bool
        ensures { OnTrue result (self.new ≡ set.insert self.old print) }
    {
        match self.sorted.binary_search(&print) {
            Ok(_) => true,
            Err(place) => self.sorted.insert(place, print).is_ok(),
        }
    }

    // All of both, each once. None where there is no memory.
    fn united(&self, more: &Prints, alloc: Global) -> Option<Prints>
        ensures { IfSome result (λ all. all ≡ set.union self.now more.now) }
    {
        let mut sorted = joined(alloc, self.sorted.as_slice(), more.sorted.as_slice())?;
        sorted.sort_unstable();
        sorted.dedup();
        Some(Prints { sorted })
    }

    /// Takes all out.
    pub fn clear(&mut self)
        ensures { self.new ≡ set.empty }
    {
        self.sorted.clear();
    }
}

// Two lists as one, if there is memory for that.
fn joined(alloc: Global, one: &[u64], other: &[u64]) -> Option<Vec<u64>>
    ensures { IfSome result (λ v. v.items ≡ one.now ++ other.now) }
{
    let mut all = Vec::new(alloc);
    all.extend_from_slice(one).ok()?;
    all.extend_from_slice(other).ok()?;
    Some(all)
}

// rule: wake-ups
/// The fingerprint of a name of a type: FNV-1a of the type's word and of the name.
pub fn fingerprint(kind: TypeName, name: &str) -> u64
    ensures { result ≡ print kind name.now }
{
    mixed(mixed(FIRST_PRINT, kind.word()), name)
}

// A fingerprint with the bytes of a text more.
fn mixed(print: u64, text: &str) -> u64
    ensures { result ≡ mixed print text.now }
{
    let mut sum = print;
    for byte in text.as_bytes() {
        sum = (sum ^ u64::from(*byte)).wrapping_mul(PRIME);
    }
    sum
}
