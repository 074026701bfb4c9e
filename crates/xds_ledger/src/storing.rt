// Changes of what is believed, made in place among differences, all or none: what needs memory comes first, and is
// undone by removals.
ghost use Rattle.std.specs.Prelude.{◌≡◌, ℕ, List, [], ◌∷◌, ◌++◌, Some, None, unwrap_or, map, string_bytes, IfOk, IfErr, OnOk, OnErr};
ghost use Rattle.std.specs.FinMap as finmap;
ghost use Rattle.xds_resource.specs.declared.refusal.Refusal.TheVariants.{OutOfMemory};
ghost use Rattle.xds_resource.specs.Names.{put_each};
ghost use Rattle.xds_ledger.specs.Overlay.{tells, told_in};
ghost use Rattle.xds_ledger.specs.Storing.{is_new, new_names, removed_all, stored, stored_all};

use crate::differences::Differences;
use crate::entry::{Due, Entry};
use crate::shared_map::SharedMap;
use crate::told::tells;
use std::alloc::Global;
use xds_resource::{NameMap, Refusal};

// Puts a copy of a name behind others.
fn push_name(alloc: Global, names: &mut Vec<String>, name: &str) -> Result<(), Refusal>
    ensures ok { OnOk result (map string_bytes names.new.items ≡ map string_bytes names.old.items ++ name.now ∷ []) }
    ensures err { IfErr result (λ e. e ≡ OutOfMemory) }
{
    names.push(String::from_str(alloc, name)?)?;
    Ok(())
}

// The names of which the changes speak.
fn names_of(alloc: Global, changes: &NameMap<Option<Entry>>) -> Result<Vec<String>, Refusal>
    ensures ok { IfOk result (λ v. map string_bytes v.items ≡ finmap.keys changes.now) }
    ensures err { IfErr result (λ e. e ≡ OutOfMemory) }
{
    let mut names = Vec::new(alloc);
    for (name, _change) in changes.iter() {
        push_name(alloc, &mut names, name)?;
    }
    Ok(names)
}

// Whether a change makes a difference where there is none.
fn is_new(
    base: &Option<SharedMap<Due>>,
    differences: &Differences,
    changes: &NameMap<Option<Entry>>,
    name: &str,
) -> bool
    ensures { result
        ≡ is_new (tells base.now name.now) (finmap.get changes.now name.now) (finmap.get differences.now name.now) }
{
    match changes.get(name) {
        Some(Some(_)) => !differences.contains(name),
        Some(None) => tells(base, name) && !differences.contains(name),
        None => false,
    }
}

// Those of the names for which the changes make a difference where there is none.
fn new_names<'a>(
    alloc: Global,
    base: &Option<SharedMap<Due>>,
    differences: &Differences,
    changes: &NameMap<Option<Entry>>,
    names: &'a [String],
) -> Result<Vec<&'a str>, Refusal>
    ensures ok { IfOk result (λ v. map (λ n. n.now) v.items
        ≡ new_names base.now changes.now differences.now (map string_bytes names.now)) }
    ensures err { IfErr result (λ e. e ≡ OutOfMemory) }
{
    let mut new = Vec::new(alloc);
    for name in names {
        if is_new(base, differences, changes, name) {
            new.push(name.as_str())?;
        }
    }
    Ok(new)
}

// Takes out the differences of some names. It takes no memory.
fn remove_all(differences: &mut Differences, names: &[&str])
    ensures { differences.new ≡ removed_all differences.old (map (λ n. n.now) names.now) }
{
    for name in names {
        differences.remove(name);
    }
}

// Makes a difference for each of some names that have none.
fn add_all(alloc: Global, differences: &mut Differences, names: &[&str]) -> Result<(), Refusal>
    requires { removed_all differences.now (map (λ n. n.now) names.now) ≡ differences.now }
    ensures ok { OnOk result (differences.new
        ≡ put_each (λ name. Some None) differences.old (map (λ n. n.now) names.now)) }
    ensures err { OnErr result (differences.new ≡ differences.old) }
    ensures refused { IfErr result (λ e. e ≡ OutOfMemory) }
{
    for name in names {
        if let Err(refusal) = differences.put(alloc, name, Some(None)) {
            remove_all(differences, names);
            return Err(refusal);
        }
    }
    Ok(())
}

// Lets a name have no entry: by a difference where an offer tells one, and else by none. It takes no memory.
fn drop_told(base: &Option<SharedMap<Due>>, differences: &mut Differences, name: &str)
    ensures { differences.new ≡ stored base.now differences.old name.now (Some None) }
{
    if tells(base, name) {
        differences.replace(name, None);
    } else {
        differences.remove(name);
    }
}

// Makes the change of a name that has a difference, or is to have none. It takes no memory.
fn store(
    base: &Option<SharedMap<Due>>,
    differences: &mut Differences,
    name: &str,
    change: Option<Option<Entry>>,
)
    ensures { differences.new ≡ stored base.now differences.old name.now change }
{
    match change {
        Some(Some(entry)) => differences.replace(name, Some(entry)),
        Some(None) => drop_told(base, differences, name),
        None => {}
    }
}

// Stores what the changes say of each of some names.
fn store_all(
    base: &Option<SharedMap<Due>>,
    differences: &mut Differences,
    changes: NameMap<Option<Entry>>,
    names: &[String],
)
    ensures { differences.new ≡ stored_all base.now differences.old changes (map string_bytes names.now) }
{
    let mut left = changes;
    for name in names {
        let change = left.remove(name);
        store(base, differences, name, change);
    }
}

/// Makes the changes, all or none, among differences from what an offer told, if there is one. Refused only by
/// `OutOfMemory`.
pub fn change(
    alloc: Global,
    base: &Option<SharedMap<Due>>,
    differences: &mut Differences,
    changes: NameMap<Option<Entry>>,
) -> Result<(), Refusal>
    ensures ok { OnOk result ((name : List ℕ) → unwrap_or (finmap.get differences.new name) (told_in base.now name)
        ≡ unwrap_or (finmap.get changes name) (unwrap_or (finmap.get differences.old name) (told_in base.now name))) }
    ensures err { OnErr result (differences.new ≡ differences.old) }
    ensures refused { IfErr result (λ e. e ≡ OutOfMemory) }
{
    let names = names_of(alloc, &changes)?;
    let new = new_names(alloc, base, differences, &changes, &names)?;
    add_all(alloc, differences, &new)?;
    store_all(base, differences, changes, &names);
    Ok(())
}
