// Changes what is held in place by a response that isn't the whole, all or nothing: what needs memory comes first, and
// removals undo it.
ghost use Rattle.std.specs.Prelude.{◌≡◌, false, map, string_bytes, IfOk, IfErr, OnOk, OnErr};
ghost use Rattle.std.specs.FinMap as finmap;
ghost use Rattle.xds_resource.specs.declared.refusal.Refusal.TheVariants.{OutOfMemory};
ghost use Rattle.xds_resource.specs.Names.{put_some, put_each};
ghost use Rattle.xds_cache.specs.Deliveries.{cache_after};
ghost use Rattle.xds_cache.specs.InPlace.{HoldsWanted, is_new as is_new_by, new_names as new_by, removed_all, cleared, cleared_all, stored, stored_all};

use crate::cache::Cache;
use crate::holding::Holding;
use crate::wants::{Wants, is_wanted, push_text};
use std::alloc::Global;
use xds_resource::{NameMap, Refusal, TypeName};

// The names of which something is stated.
fn names_of(alloc: Global, stated: &NameMap<Holding>) -> Result<Vec<String>, Refusal>
    ensures ok { IfOk result (λ v. map string_bytes v.items ≡ finmap.keys stated.now) }
    ensures err { IfErr result (λ e. e ≡ OutOfMemory) }
{
    let mut names = Vec::new(alloc);
    for (name, _holding) in stated.iter() {
        push_text(alloc, &mut names, name)?;
    }
    Ok(names)
}

// Whether a name is wanted, and nothing is held of it.
fn is_new(kind: TypeName, wants: &Wants, cache: &Cache, name: &str) -> bool
    ensures { result ≡ is_new_by kind wants.now cache.now name.now }
{
    is_wanted(kind, wants, name) && !cache.contains(name)
}

// Finds those of the names that are wanted, and of which nothing is held.
fn new_names<'a>(
    alloc: Global,
    kind: TypeName,
    wants: &Wants,
    cache: &Cache,
    names: &'a [String],
) -> Result<Vec<&'a str>, Refusal>
    ensures ok { IfOk result (λ v. map (λ n. n.now) v.items ≡ new_by kind wants.now cache.now (map string_bytes names.now)) }
    ensures err { IfErr result (λ e. e ≡ OutOfMemory) }
{
    let mut new = Vec::new(alloc);
    for name in names {
        if is_new(kind, wants, cache, name) {
            new.push(name.as_str())?;
        }
    }
    Ok(new)
}

// Takes out some names. It takes no memory.
fn remove_all(cache: &mut Cache, names: &[&str])
    ensures { cache.new ≡ removed_all cache.old (map (λ n. n.now) names.now) }
{
    for name in names {
        cache.remove(name);
    }
}

// A copy of what is stated of a name.
fn copy_stated(stated: &NameMap<Holding>, name: &str) -> Result<Option<Holding>, Refusal>
    ensures ok { IfOk result (λ h. h ≡ finmap.get stated.now name.now) }
    ensures err { IfErr result (λ e. e ≡ OutOfMemory) }
{
    match stated.get(name) {
        Some(holding) => Ok(Some(holding.try_copy()?)),
        None => Ok(None),
    }
}

// Puts a copy of what is stated of a name.
fn add(
    alloc: Global,
    cache: &mut Cache,
    stated: &NameMap<Holding>,
    name: &str,
) -> Result<(), Refusal>
    ensures ok { OnOk result (cache.new ≡ put_some cache.old name.now (finmap.get stated.now name.now)) }
    ensures err { OnErr result (cache.new ≡ cache.old) }
    ensures refused { IfErr result (λ e. e ≡ OutOfMemory) }
{
    let copy = copy_stated(stated, name)?;
    cache.put(alloc, name, copy)
}

// rule: whole-or-nothing
// Puts a copy of what is stated of each of some names, of which nothing is held: all or nothing.
fn add_all(
    alloc: Global,
    cache: &mut Cache,
    stated: &NameMap<Holding>,
    names: &[&str],
) -> Result<(), Refusal>
    requires { removed_all cache.now (map (λ n. n.now) names.now) ≡ cache.now }
    ensures ok { OnOk result (cache.new ≡ put_each (finmap.get stated.now) cache.old (map (λ n. n.now) names.now)) }
    ensures err { OnErr result (cache.new ≡ cache.old) }
    ensures refused { IfErr result (λ e. e ≡ OutOfMemory) }
{
    for name in names {
        if let Err(refusal) = add(alloc, cache, stated, name) {
            remove_all(cache, names);
            return Err(refusal);
        }
    }
    Ok(())
}

// Takes out a name, unless something is stated of it. It takes no memory.
fn clear(cache: &mut Cache, stated: &NameMap<Holding>, name: &str)
    ensures { cache.new ≡ cleared stated.now cache.old name.now }
{
    if !stated.contains(name) {
        cache.remove(name);
    }
}

// Takes out the names that are removed and of which nothing is stated. It takes no memory.
fn clear_all(cache: &mut Cache, removed: &Wants, stated: &NameMap<Holding>)
    ensures { cache.new ≡ cleared_all stated.now cache.old (finmap.keys removed.now) }
{
    for (name, _) in removed.iter() {
        clear(cache, stated, name);
    }
}

// Writes what is stated of a name over what is held of it, if something is. It takes no memory.
fn store(cache: &mut Cache, name: &str, holding: Option<Holding>)
    ensures { cache.new ≡ stored cache.old name.now holding }
{
    if let Some(holding) = holding {
        cache.replace(name, holding);
    }
}

// Writes what is stated of each of some names over what is held of it, if something is. It takes no memory.
fn store_all(cache: &mut Cache, stated: NameMap<Holding>, names: &[String])
    ensures { cache.new ≡ stored_all stated cache.old (map string_bytes names.now) }
{
    let mut left = stated;
    for name in names {
        let holding = left.remove(name);
        store(cache, name, holding);
    }
}

// rule: whole-or-nothing
/// Makes what is held what it is after a response that states this, isn't the whole and removes these names, where all
/// that is held is wanted. It changes all or nothing, and looks at the names of which the response speaks alone.
/// Refused only by `OutOfMemory`.
pub(crate) fn change(
    alloc: Global,
    kind: TypeName,
    wants: &Wants,
    cache: &mut Cache,
    removed: &Wants,
    stated: NameMap<Holding>,
) -> Result<(), Refusal>
    requires { HoldsWanted kind wants.now cache.now }
    ensures ok { OnOk result (cache.new ≡ cache_after kind wants.now false removed.now stated cache.old) }
    ensures err { OnErr result (cache.new ≡ cache.old) }
    ensures refused { IfErr result (λ e. e ≡ OutOfMemory) }
{
    let names = names_of(alloc, &stated)?;
    let new = new_names(alloc, kind, wants, cache, &names)?;
    add_all(alloc, cache, &stated, &new)?;
    clear_all(cache, removed, &stated);
    store_all(cache, stated, &names);
    Ok(())
}
