// The interest of one client in one type.
ghost use Rattle.std.specs.Prelude.{◌≡◌, true, map, [], ◌∷◌, IfOk, IfErr, OnOk, OnErr};
ghost use Rattle.std.specs.String.{string_bytes, string_cmp};
ghost use Rattle.std.specs.List.Sorted.{IsStrictlySortedBy};
ghost use Rattle.std.specs.FinSet as set;
ghost use Rattle.xds_resource.specs.declared.refusal.Refusal.TheVariants.{OutOfMemory};
ghost use Rattle.xds_interest.specs.Interests.{reaches, covers, is_open_to, in_cluster};
ghost use Rattle.xds_interest.specs.SotW.{sotw_interest};
ghost use Rattle.xds_interest.specs.Asked.{nothing, list_says};
ghost use Rattle.xds_interest.specs.Touches.{sotw_touch};

use crate::cluster::ClusterText;
use crate::lists::has_star_text;
use crate::names::NameSet;
use crate::touched::Touched;
use std::alloc::Global;
use std::collections::btree_set::Iter;
use std::marker::{Model, PhantomData};
use xds_resource::{Groups, Refusal, ResourceType, TypeName};

/// Which resources of the type `T` a client wants: those of explicit names, and all of them if it
/// has the star. Only a complete type has a star; of an incomplete type `*` is a name as any other.
/// The star doesn't cover a write that lists groups unless the client's cluster is among them.
pub struct Interest<T: ResourceType> {
    star: bool,
    names: NameSet,
    cluster: ClusterText,
    kind: PhantomData<T>,
}

// Written out: docs/PROVING.md, "Drops".
impl<T: ResourceType> Drop for Interest<T> {
    fn drop(self) {
        let Interest {
            star: _,
            names: _,
            cluster: _,
            kind: _,
        } = self;
    }
}

impl<T: ResourceType> Model for Interest<T> {
    ghost use Rattle.xds_interest.specs.Interests.{Selection, selection_code};

    ghost Value = { Selection };

    ghost coded = { selection_code };

    ghost view = { λ i. record { star = i.star; names = i.names; cluster = i.cluster } };
}

// rule: listed-names, rule: star-covers
/// Whether a stream's first list is the star, since it names nothing or names `*`.
pub fn opens_star(kind: TypeName, names: &[String]) -> bool
    ensures { result ≡ (sotw_interest kind (map string_bytes names.now ∷ [])).star }
{
    kind.is_complete() && (names.is_empty() || has_star_text(names))
}

// rule: listed-names, rule: star-covers
// Whether the star stands after a list, where one before it named something or none did.
fn star_after(kind: TypeName, named: bool, names: &[String]) -> bool
    ensures { result ≡ (list_says kind named (map string_bytes names.now)).star }
{
    kind.is_complete() && ((!named && names.is_empty()) || has_star_text(names))
}

// rule: star-covers, rule: groups
// Whether the star of a client of this cluster covers a write of these groups.
fn is_open_to(groups: &Groups, cluster: &str) -> bool
    ensures { result ≡ is_open_to groups.now cluster.now }
{
    groups.is_empty() || groups.has(cluster)
}

impl<T: ResourceType> Interest<T> {
    /// The interest of a client of this cluster that wants nothing.
    pub fn nothing(alloc: Global, cluster: ClusterText) -> Interest<T>
        ensures { result ≡ nothing cluster }
    {
        Interest::of_parts(false, NameSet::new(alloc), cluster)
    }

    pub(crate) fn of_parts(star: bool, names: NameSet, cluster: ClusterText) -> Interest<T>
        ensures { result ≡ record { star = star; names = names; cluster = cluster } }
    {
        Interest {
            star,
            names,
            cluster,
            kind: PhantomData,
        }
    }

    // rule: listed-names
    /// The interest of a client of this cluster whose first request lists these names. No name at
    /// all is the star of a complete type, and nothing of an incomplete one.
    ///
    /// Refused only by `OutOfMemory`.
    pub fn of_list(
        alloc: Global,
        names: &[String],
        cluster: ClusterText,
    ) -> Result<Interest<T>, Refusal>
        ensures ok { IfOk result (λ i. i ≡ in_cluster cluster (sotw_interest T.TYPE (map string_bytes names.now ∷ []))) }
        ensures err { IfErr result (λ e. e ≡ OutOfMemory) }
    {
        let star = opens_star(T::TYPE, names);
        let mut explicit = NameSet::new(alloc);
        explicit.insert_names(T::TYPE, names)?;
        Ok(Interest::of_parts(star, explicit, cluster))
    }

    // rule: listed-names
    // Whether the interest is that of a client that sends this list, where a list before it named something or none did. It isn't
    // told of each such list (`NameSet::are_listed`).
    pub(crate) fn is_after(&self, alloc: Global, named: bool, names: &[String]) -> bool
        ensures { result ≡ true → in_cluster self.now.cluster (list_says T.TYPE named (map string_bytes names.now)) ≡ self.now }
    {
        self.star == star_after(T::TYPE, named, names)
            && self.names.are_listed(alloc, T::TYPE, names)
    }

    /// Whether the client wants a resource of this name, of some groups or other: as one of its
    /// explicit names, or by the star.
    pub fn reaches(&self, name: &str) -> bool
        ensures { result ≡ reaches self.now name.now }
    {
        self.star || self.names.contains(name)
    }

    // rule: star-covers, rule: groups
    /// Whether the client sees a resource of this name and these groups: as one of its explicit
    /// names, or by the star where there are no groups or the client's cluster is among them.
    pub fn covers(&self, name: &str, groups: &Groups) -> bool
        ensures { result ≡ covers self.now name.now groups.now }
    {
        self.names.contains(name) || (self.star && is_open_to(groups, self.cluster.as_str()))
    }

    /// The text of the client's cluster, empty where it has none.
    pub fn cluster(&self) -> &str
        ensures { result.now ≡ self.now.cluster }
    {
        self.cluster.as_str()
    }

    pub(crate) fn shared_cluster(&self) -> Result<ClusterText, Refusal>
        ensures ok { IfOk result (λ c. c ≡ self.now.cluster) }
        ensures err { IfErr result (λ e. e ≡ OutOfMemory) }
    {
        self.cluster.try_copy()
    }

    /// Whether the client wants all resources of the type.
    pub fn has_star(&self) -> bool
        ensures { result ≡ self.now.star }
    {
        self.star
    }

    /// The explicit names, in ascending order.
    pub fn names(&self) -> Iter<'_, String>
        ensures names { set.from_list (map string_bytes result) ≡ self.now.names }
        ensures ascending { IsStrictlySortedBy string_cmp result }
    {
        self.names.iter()
    }

    pub(crate) fn explicit(&self) -> &NameSet
        ensures { result.now ≡ self.now.names }
    {
        &self.names
    }

    // The explicit names of another interest that aren't explicit here.
    pub(crate) fn lacked(&self, alloc: Global, wanted: &Interest<T>) -> Result<NameSet, Refusal>
        ensures ok { IfOk result (λ s. s ≡ set.difference wanted.now.names self.now.names) }
        ensures err { IfErr result (λ e. e ≡ OutOfMemory) }
    {
        let mut lacked = NameSet::new(alloc);
        lacked.insert_difference(&wanted.names, &self.names)?;
        Ok(lacked)
    }

    // Adds explicit names, all or none; none of them may be there.
    pub(crate) fn add(&mut self, names: &NameSet) -> Result<(), Refusal>
        requires { set.difference self.old.names names.now ≡ self.old.names }
        ensures ok { OnOk result (self.new ≡ record self.old { names = set.union self.old.names names.now }) }
        ensures err { OnErr result (self.new ≡ self.old) }
        ensures refused { IfErr result (λ e. e ≡ OutOfMemory) }
    {
        self.names.add(names)
    }

    // Takes explicit names out. It takes no memory.
    pub(crate) fn take_out(&mut self, names: &NameSet)
        ensures { self.new ≡ record self.old { names = set.difference self.old.names names.now } }
    {
        self.names.take_out(names);
    }

    // rule: delta-names
    // Takes the star of another interest, and those of some texts out that it doesn't name. It takes no memory.
    pub(crate) fn narrow(&mut self, wanted: &Interest<T>, texts: &[String])
        ensures { self.new ≡ record self.old { star = wanted.now.star; names = set.difference self.old.names (set.difference (set.from_list (map string_bytes texts.now)) wanted.now.names) } }
    {
        self.names.remove_but(texts, &wanted.names);
        self.star = wanted.star;
    }

    /// The names that a state-of-the-world list touches, which leads from this interest to the
    /// next: those that are explicit in one of the two alone, and every name if the star stands in
    /// one of them alone. Refused only by `OutOfMemory`.
    pub fn touched_until(&self, alloc: Global, next: &Interest<T>) -> Result<Touched, Refusal>
        ensures ok { IfOk result (λ t. t ≡ sotw_touch self.now next.now) }
        ensures err { IfErr result (λ e. e ≡ OutOfMemory) }
    {
        let mut touched = NameSet::new(alloc);
        touched.insert_difference(&self.names, &next.names)?;
        touched.insert_difference(&next.names, &self.names)?;
        Ok(Touched::of_parts(self.star != next.star, touched))
    }

    /// An equal interest, with memory of its own. Refused only by `OutOfMemory`.
    pub fn try_copy(&self, alloc: Global) -> Result<Interest<T>, Refusal>
        ensures ok { IfOk result (λ i. i ≡ self.now) }
        ensures err { IfErr result (λ e. e ≡ OutOfMemory) }
    {
        let names = self.names.try_copy()?;
        let cluster = self.cluster.try_copy()?;
        Ok(Interest {
            star: self.star,
            names,
            cluster,
            kind: PhantomData,
        })
    }
}
