// Sets of names, which interests and touched names are made of.
ghost use Rattle.std.specs.Prelude.{◌≡◌, true, map, IfOk, IfErr, OnOk, OnErr};
ghost use Rattle.std.specs.String.{string_bytes, string_cmp};
ghost use Rattle.std.specs.List.Sorted.{IsStrictlySortedBy};
ghost use Rattle.std.specs.FinSet as set;
ghost use Rattle.xds_resource.specs.declared.refusal.Refusal.TheVariants.{OutOfMemory};
ghost use Rattle.xds_interest.specs.Interests.{names_among};

use crate::lists::{has_star, in_order, is_star};
use std::alloc::Global;
use std::collections::BTreeSet;
use std::collections::btree_set::Iter;
use std::marker::Model;
use xds_resource::{Refusal, TypeName};

/// A set of names, in ascending byte order. Contracts see the finite set of their bytes.
pub struct NameSet {
    names: BTreeSet<String>,
}

// Written out: docs/PROVING.md, "Drops".
impl Drop for NameSet {
    fn drop(self) {
        let NameSet { names: _ } = self;
    }
}

impl Model for NameSet {
    ghost use Rattle.std.specs.Prelude.{map};
    ghost use Rattle.std.specs.String.{string_bytes};
    ghost use Rattle.std.specs.Coded.{coded_ℕ, coded_list};
    ghost use Rattle.std.specs.FinSet as set;
    ghost use Rattle.xds_resource.specs.Writes.{text_cmp};

    ghost Value = { set.FinSet text_cmp };

    ghost coded = { set.code (coded_list coded_ℕ) };

    ghost view = { λ s. set.from_list (map string_bytes s.names.keys) };
}

impl NameSet {
    pub(crate) fn new(alloc: Global) -> NameSet
        ensures { result ≡ set.empty }
    {
        NameSet {
            names: BTreeSet::new(alloc),
        }
    }

    pub(crate) fn contains(&self, name: &str) -> bool
        ensures { result ≡ set.contains self.now name.now }
    {
        self.names.contains(name)
    }

    // The names in ascending order.
    pub(crate) fn iter(&self) -> Iter<'_, String>
        ensures names { set.from_list (map string_bytes result) ≡ self.now }
        ensures ascending { IsStrictlySortedBy string_cmp result }
    {
        self.names.iter()
    }

    // rule: star-covers
    // Whether the texts of a request of the type that are names are those of the set. It isn't told of each such list, but of one that
    // has them in ascending order, each once, for which it takes no memory; and of one that has as many texts as the set names, for
    // which it takes a block of references, where there is one.
    pub(crate) fn are_listed(&self, alloc: Global, kind: TypeName, texts: &[String]) -> bool
        ensures { result ≡ true → self.now ≡ set.from_list (names_among kind (map string_bytes texts.now)) }
    {
        self.are_in_turn(kind, texts) || self.are_shuffled(alloc, kind, texts)
    }

    // Whether the texts that are names, in their order, are the names of the set in ascending order.
    fn are_in_turn(&self, kind: TypeName, texts: &[String]) -> bool
        ensures { result ≡ true → self.now ≡ set.from_list (names_among kind (map string_bytes texts.now)) }
    {
        let mut left = self.iter();
        for text in texts {
            if is_star(kind, text) {
                continue;
            }
            let Some(name) = left.next() else {
                return false;
            };
            if name.as_str() != text.as_str() {
                return false;
            }
        }
        left.next().is_none()
    }

    // The same of texts once they are in order, of which none is the star.
    fn are_shuffled(&self, alloc: Global, kind: TypeName, texts: &[String]) -> bool
        ensures { result ≡ true → self.now ≡ set.from_list (names_among kind (map string_bytes texts.now)) }
    {
        if self.names.len() != texts.len() || has_star(kind, texts) {
            return false;
        }
        let Ok(ordered) = in_order(alloc, texts) else {
            return false;
        };
        self.are_these(&ordered)
    }

    // Whether these are the names of the set in ascending order.
    fn are_these(&self, texts: &[&str]) -> bool
        ensures { result ≡ true → self.now ≡ set.from_list (map (λ s. s.now) texts.now) }
    {
        let mut passed = 0;
        for name in self.iter() {
            if passed == texts.len() || name.as_str() != texts[passed] {
                return false;
            }
            passed += 1;
        }
        passed == texts.len()
    }

    // Puts a copy of a name in.
    pub(crate) fn insert(&mut self, name: &String) -> Result<(), Refusal>
        ensures ok { OnOk result (self.new ≡ set.insert self.old (string_bytes name.now)) }
        ensures err { OnErr result (self.new ≡ self.old) }
        ensures refused { IfErr result (λ e. e ≡ OutOfMemory) }
    {
        let copy = name.clone()?;
        self.names.insert(copy)?;
        Ok(())
    }

    pub(crate) fn remove(&mut self, name: &str)
        ensures { self.new ≡ set.remove self.old name.now }
    {
        self.names.remove(name);
    }

    // rule: star-covers
    // Puts in the texts of a request of the type that are names. After an `Err` some of them may be in.
    pub(crate) fn insert_names(&mut self, kind: TypeName, texts: &[String]) -> Result<(), Refusal>
        ensures ok { OnOk result (self.new ≡ set.union self.old (set.from_list (names_among kind (map string_bytes texts.now)))) }
        ensures refused { IfErr result (λ e. e ≡ OutOfMemory) }
    {
        for text in texts {
            if !is_star(kind, text) {
                self.insert(text)?;
            }
        }
        Ok(())
    }

    // Takes the texts of a list out.
    pub(crate) fn remove_all(&mut self, texts: &[String])
        ensures { self.new ≡ set.difference self.old (set.from_list (map string_bytes texts.now)) }
    {
        for text in texts {
            self.remove(text);
        }
    }

    // Puts in the names of one set that another lacks. After an `Err` some of them may be in.
    pub(crate) fn insert_difference(
        &mut self,
        from: &NameSet,
        other: &NameSet,
    ) -> Result<(), Refusal>
        ensures ok { OnOk result (self.new ≡ set.union self.old (set.difference from.now other.now)) }
        ensures refused { IfErr result (λ e. e ≡ OutOfMemory) }
    {
        for name in from.iter() {
            if other.contains(name) {
                continue;
            }
            self.insert(name)?;
        }
        Ok(())
    }

    // Puts in the names of another set. After an `Err` some of them may be in, and nothing else.
    fn insert_all(&mut self, from: &NameSet) -> Result<(), Refusal>
        ensures ok { OnOk result (self.new ≡ set.union self.old from.now) }
        ensures others { set.difference self.new from.now ≡ set.difference self.old from.now }
        ensures refused { IfErr result (λ e. e ≡ OutOfMemory) }
    {
        for name in from.iter() {
            self.insert(name)?;
        }
        Ok(())
    }

    // Takes out the names of another set. It takes no memory.
    pub(crate) fn take_out(&mut self, from: &NameSet)
        ensures { self.new ≡ set.difference self.old from.now }
    {
        for name in from.iter() {
            self.remove(name);
        }
    }

    // Puts in the names of another set, all or none; none of them may be in.
    pub(crate) fn add(&mut self, from: &NameSet) -> Result<(), Refusal>
        requires { set.difference self.old from.now ≡ self.old }
        ensures ok { OnOk result (self.new ≡ set.union self.old from.now) }
        ensures err { OnErr result (self.new ≡ self.old) }
        ensures refused { IfErr result (λ e. e ≡ OutOfMemory) }
    {
        if let Err(refusal) = self.insert_all(from) {
            self.take_out(from);
            return Err(refusal);
        }
        Ok(())
    }

    // rule: delta-names
    // Takes out the texts of a list that a set lacks. It takes no memory.
    pub(crate) fn remove_but(&mut self, texts: &[String], kept: &NameSet)
        ensures { self.new ≡ set.difference self.old (set.difference (set.from_list (map string_bytes texts.now)) kept.now) }
    {
        for text in texts {
            if kept.contains(text) {
                continue;
            }
            self.remove(text);
        }
    }

    pub(crate) fn try_copy(&self) -> Result<NameSet, Refusal>
        ensures ok { IfOk result (λ s. s ≡ self.now) }
        ensures err { IfErr result (λ e. e ≡ OutOfMemory) }
    {
        let names = self.names.clone()?;
        Ok(NameSet { names })
    }
}
