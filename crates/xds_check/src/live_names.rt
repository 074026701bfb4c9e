// The names of the live writes, by whom the star covers them for.
ghost use Rattle.std.specs.Prelude.{◌≡◌, map, string_bytes, OnOk, IfErr};
ghost use Rattle.std.specs.FinMap as finmap;
ghost use Rattle.xds_resource.specs.declared.refusal.Refusal.TheVariants.{OutOfMemory};
ghost use Rattle.xds_check.specs.LiveNames.{no_names, in_group, with_name, with_name_in, with_name_of, with_name_in_each, are_among as are_among_of, has_starred};

use std::alloc::Global;
use std::marker::Model;
use xds_resource::{Groups, NameMap, Refusal};

/// The names of live writes: of those without groups, and by group of those that have some. Contracts see both.
pub(crate) struct LiveNames {
    everyone: NameMap<bool>,
    by_group: NameMap<NameMap<bool>>,
}

// Written out: docs/PROVING.md, "Drops".
impl Drop for LiveNames {
    fn drop(self) {
        let LiveNames {
            everyone: _,
            by_group: _,
        } = self;
    }
}

impl Model for LiveNames {
    ghost use Rattle.xds_check.specs.LiveNames.{LiveNames, live_names_code};

    ghost Value = { LiveNames };

    ghost coded = { live_names_code };

    ghost view = { λ x. record { everyone = x.everyone; by_group = x.by_group } };
}

impl LiveNames {
    /// No name.
    pub(crate) fn new(alloc: Global) -> LiveNames
        ensures { result ≡ no_names }
    {
        LiveNames {
            everyone: NameMap::new(alloc),
            by_group: NameMap::new(alloc),
        }
    }

    // rule: tombstones, rule: groups
    /// Puts in the name of a write of these groups, or takes it out where it doesn't live. Refused only by `OutOfMemory`.
    pub(crate) fn set(
        &mut self,
        alloc: Global,
        name: &str,
        groups: &Groups,
        lives: bool,
    ) -> Result<(), Refusal>
        ensures ok { OnOk result (self.new ≡ with_name_of lives name.now groups.now self.old) }
        ensures refused { IfErr result (λ e. e ≡ OutOfMemory) }
    {
        if groups.is_empty() {
            return set_name(alloc, &mut self.everyone, name, lives);
        }
        set_in_each(alloc, &mut self.by_group, groups.texts(), name, lives)
    }

    // rule: star-covers, rule: groups, rule: whole-response
    /// Whether all names that the star covers for a client of a cluster stand among those of a response.
    pub(crate) fn are_in(&self, cluster: &str, stated: &NameMap<bool>) -> bool
        ensures { result ≡ has_starred self.now cluster.now stated.now }
    {
        are_among(&self.everyone, stated) && are_among_in(&self.by_group, cluster, stated)
    }
}

// rule: tombstones
// Puts a name in, or takes it out.
fn set_name(
    alloc: Global,
    names: &mut NameMap<bool>,
    name: &str,
    lives: bool,
) -> Result<(), Refusal>
    ensures ok { OnOk result (names.new ≡ with_name lives name.now names.old) }
    ensures refused { IfErr result (λ e. e ≡ OutOfMemory) }
{
    if lives {
        names.put(alloc, name, Some(true))
    } else {
        drop(names.remove(name));
        Ok(())
    }
}

// The names of a group, taken out.
fn take_out(alloc: Global, by_group: &mut NameMap<NameMap<bool>>, group: &str) -> NameMap<bool>
    ensures names { result ≡ in_group by_group.old group.now }
    ensures taken { by_group.new ≡ finmap.remove by_group.old group.now }
{
    match by_group.remove(group) {
        Some(names) => names,
        None => NameMap::new(alloc),
    }
}

// Puts a name into a group, or takes it out.
fn set_in(
    alloc: Global,
    by_group: &mut NameMap<NameMap<bool>>,
    group: &str,
    name: &str,
    lives: bool,
) -> Result<(), Refusal>
    ensures ok { OnOk result (by_group.new ≡ with_name_in lives name.now by_group.old group.now) }
    ensures refused { IfErr result (λ e. e ≡ OutOfMemory) }
{
    let mut names = take_out(alloc, by_group, group);
    match set_name(alloc, &mut names, name, lives) {
        Ok(()) => by_group.put(alloc, group, Some(names)),
        Err(refusal) => {
            drop(names);
            Err(refusal)
        }
    }
}

// rule: groups
// Puts a name into each of some groups, or takes it out.
fn set_in_each(
    alloc: Global,
    by_group: &mut NameMap<NameMap<bool>>,
    groups: &[String],
    name: &str,
    lives: bool,
) -> Result<(), Refusal>
    ensures ok { OnOk result (by_group.new ≡ with_name_in_each lives name.now by_group.old (map string_bytes groups.now)) }
    ensures refused { IfErr result (λ e. e ≡ OutOfMemory) }
{
    for group in groups {
        set_in(alloc, by_group, group.as_str(), name, lives)?;
    }
    Ok(())
}

// rule: whole-response
// Whether all of some names stand among others.
fn are_among(names: &NameMap<bool>, others: &NameMap<bool>) -> bool
    ensures { result ≡ are_among_of names.now others.now }
{
    for (name, _mark) in names.iter() {
        if !others.contains(name.as_str()) {
            return false;
        }
    }
    true
}

// Whether all names of a group stand among others.
fn are_among_in(by_group: &NameMap<NameMap<bool>>, group: &str, others: &NameMap<bool>) -> bool
    ensures { result ≡ are_among_of (in_group by_group.now group.now) others.now }
{
    match by_group.get(group) {
        Some(names) => are_among(names, others),
        None => true,
    }
}
