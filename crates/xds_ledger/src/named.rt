// What is owed to a client without the star of the names that changed since a mark, found by name: an owed name is one
// of its explicit names, or one that is believed held. So where these are fewer than the changes, they are looked up.
ghost use Rattle.std.specs.Prelude.{◌≡◌, ℕ, List, map, string_bytes, true, false, None, if◌then◌else◌, IsSome, IfOk, IfErr, OnOk};
ghost use Rattle.std.specs.List.{list_any};
ghost use Rattle.std.specs.Option.{option_map};
ghost use Rattle.std.specs.FinMap as finmap;
ghost use Rattle.xds_resource.specs.declared.refusal.Refusal.TheVariants.{OutOfMemory};
ghost use Rattle.xds_resource.specs.Names.{pairs, put_all, put_each, put_some};
ghost use Rattle.xds_catalogue.specs.Holdings.{IsNumbered};
ghost use Rattle.xds_ledger.specs.Owed.{is_owed};
ghost use Rattle.xds_ledger.specs.Listed.{is_since};
ghost use Rattle.xds_ledger.specs.Named as named;
ghost use Rattle.xds_ledger.specs.Named.{is_owed_since, told_entries};

use crate::believed::Beliefs;
use crate::entry::Due;
use crate::owed::name_owed;
use crate::variant::VariantName;
use std::alloc::Global;
use std::collections::btree_map::Iter;
use std::collections::btree_set::Iter as Names;
use xds_catalogue::Catalogue;
use xds_interest::Interest;
use xds_resource::{NameMap, Refusal, ResourceType};

/// Whether what is owed of the changes above a mark is found by fewer looks by name than by a walk through them.
pub(crate) fn looks_by_name<T: ResourceType>(
    interest: &Interest<T>,
    catalogue: &Catalogue<T>,
    beliefs: &Beliefs,
    mark: u64,
) -> bool
    ensures star { result ≡ true → interest.now.star ≡ false }
    ensures numbered { IsNumbered catalogue.now }
{
    let changes = catalogue.changes_since(mark);
    !interest.has_star() && how_many_named(interest, beliefs) < changes
}

// How many explicit names there are, and names that are told or differ.
fn how_many_named<T: ResourceType>(interest: &Interest<T>, beliefs: &Beliefs) -> u64 {
    let explicit = interest.names().len() as u64;
    explicit.saturating_add(beliefs.how_many())
}

// rule: owed
// The number of a name's latest change, if that is above the mark and something is owed of the name.
fn owed_number<T: ResourceType>(
    variant: VariantName,
    interest: &Interest<T>,
    catalogue: &Catalogue<T>,
    beliefs: &Beliefs,
    mark: u64,
    name: &str,
) -> Option<u64>
    ensures { result ≡ named.owed_number variant T.TYPE interest.now catalogue.now beliefs.now mark name.now }
{
    let number = catalogue.latest_change(name)?;
    if mark < number && name_owed(variant, interest, catalogue, beliefs, name) {
        Some(number)
    } else {
        None
    }
}

// rule: owed
// Whether a name changed since a mark and something is owed of it. It takes no memory.
fn is_owed_since<T: ResourceType>(
    variant: VariantName,
    interest: &Interest<T>,
    catalogue: &Catalogue<T>,
    beliefs: &Beliefs,
    mark: u64,
    name: &str,
) -> bool
    ensures { result ≡ is_owed_since variant T.TYPE interest.now catalogue.now beliefs.now mark name.now }
{
    match catalogue.latest_change(name) {
        Some(number) => { mark < number && name_owed(variant, interest, catalogue, beliefs, name) }
        None => false,
    }
}

// ---- all of them

// Puts that number.
fn put_number<T: ResourceType>(
    alloc: Global,
    variant: VariantName,
    interest: &Interest<T>,
    catalogue: &Catalogue<T>,
    beliefs: &Beliefs,
    mark: u64,
    kept: &mut NameMap<u64>,
    name: &str,
) -> Result<(), Refusal>
    ensures ok { OnOk result (kept.new ≡ put_some kept.old name.now (named.owed_number variant T.TYPE interest.now catalogue.now beliefs.now mark name.now)) }
    ensures refused { IfErr result (λ e. e ≡ OutOfMemory) }
{
    let number = owed_number(variant, interest, catalogue, beliefs, mark, name);
    kept.put(alloc, name, number)
}

// rule: owed
// Those of some names.
fn names_since<T: ResourceType>(
    alloc: Global,
    variant: VariantName,
    interest: &Interest<T>,
    catalogue: &Catalogue<T>,
    beliefs: &Beliefs,
    mark: u64,
    names: Names<'_, String>,
) -> Result<NameMap<u64>, Refusal>
    ensures ok { IfOk result (λ m. m ≡ put_each (named.owed_number variant T.TYPE interest.now catalogue.now beliefs.now mark) finmap.empty (map string_bytes names.entry)) }
    ensures refused { IfErr result (λ e. e ≡ OutOfMemory) }
{
    let mut kept = NameMap::new(alloc);
    for name in names {
        put_number(
            alloc, variant, interest, catalogue, beliefs, mark, &mut kept, name,
        )?;
    }
    Ok(kept)
}

// rule: owed
// Adds those of the names of a map.
fn keys_since<T: ResourceType, V: Drop>(
    alloc: Global,
    variant: VariantName,
    interest: &Interest<T>,
    catalogue: &Catalogue<T>,
    beliefs: &Beliefs,
    mark: u64,
    start: NameMap<u64>,
    names: Iter<'_, String, V>,
) -> Result<NameMap<u64>, Refusal>
    ensures ok { IfOk result (λ m. m ≡ put_all (λ name value. named.owed_number variant T.TYPE interest.now catalogue.now beliefs.now mark name) start (pairs names.entry)) }
    ensures refused { IfErr result (λ e. e ≡ OutOfMemory) }
{
    let mut kept = start;
    for (name, _value) in names {
        put_number(
            alloc, variant, interest, catalogue, beliefs, mark, &mut kept, name,
        )?;
    }
    Ok(kept)
}

// Adds those of the names that are told, if some are.
fn told_since<T: ResourceType>(
    alloc: Global,
    variant: VariantName,
    interest: &Interest<T>,
    catalogue: &Catalogue<T>,
    beliefs: &Beliefs,
    mark: u64,
    start: NameMap<u64>,
    told: Option<&NameMap<Due>>,
) -> Result<NameMap<u64>, Refusal>
    ensures ok { IfOk result (λ m. m ≡ put_all (λ name value. named.owed_number variant T.TYPE interest.now catalogue.now beliefs.now mark name) start (told_entries (option_map (λ m. m.now) told.entry))) }
    ensures refused { IfErr result (λ e. e ≡ OutOfMemory) }
{
    match told {
        Some(told) => keys_since(
            alloc,
            variant,
            interest,
            catalogue,
            beliefs,
            mark,
            start,
            told.iter(),
        ),
        None => Ok(start),
    }
}

// rule: owed
/// Those of the names that changed since a mark that something is owed of, with the numbers of their latest changes.
pub(crate) fn owed_by_name<T: ResourceType>(
    alloc: Global,
    variant: VariantName,
    interest: &Interest<T>,
    catalogue: &Catalogue<T>,
    beliefs: &Beliefs,
    mark: u64,
) -> Result<NameMap<u64>, Refusal>
    requires { interest.now.star ≡ false }
    ensures ok { IfOk result (λ m. (name : List ℕ) → finmap.get m name ≡ (if is_since catalogue.now mark name
        then (if is_owed variant T.TYPE interest.now catalogue.now.entries beliefs.now name then finmap.get catalogue.now.latest name else None) else None)) }
    ensures refused { IfErr result (λ e. e ≡ OutOfMemory) }
{
    let (told, changed) = beliefs.parts();
    let names = interest.names();
    let explicit = names_since(alloc, variant, interest, catalogue, beliefs, mark, names)?;
    let of_told = told_since(
        alloc, variant, interest, catalogue, beliefs, mark, explicit, told,
    )?;
    let all = keys_since(
        alloc,
        variant,
        interest,
        catalogue,
        beliefs,
        mark,
        of_told,
        changed.iter(),
    )?;
    Ok(all)
}

// ---- whether there is one

// rule: owed
// Whether one of some names changed since the mark, and something is owed of it.
fn name_owed_since<T: ResourceType>(
    variant: VariantName,
    interest: &Interest<T>,
    catalogue: &Catalogue<T>,
    beliefs: &Beliefs,
    mark: u64,
    names: Names<'_, String>,
) -> bool
    ensures { result ≡ list_any (is_owed_since variant T.TYPE interest.now catalogue.now beliefs.now mark) (map string_bytes names.entry) }
{
    for name in names {
        if is_owed_since(variant, interest, catalogue, beliefs, mark, name) {
            return true;
        }
    }
    false
}

// rule: owed
// Whether one of the names of a map is.
fn key_owed_since<T: ResourceType, V: Drop>(
    variant: VariantName,
    interest: &Interest<T>,
    catalogue: &Catalogue<T>,
    beliefs: &Beliefs,
    mark: u64,
    names: Iter<'_, String, V>,
) -> bool
    ensures { result ≡ list_any (λ e. is_owed_since variant T.TYPE interest.now catalogue.now beliefs.now mark e.0) (pairs names.entry) }
{
    for (name, _value) in names {
        if is_owed_since(variant, interest, catalogue, beliefs, mark, name) {
            return true;
        }
    }
    false
}

// Whether one of the names that are told is, if some are.
fn told_owed_since<T: ResourceType>(
    variant: VariantName,
    interest: &Interest<T>,
    catalogue: &Catalogue<T>,
    beliefs: &Beliefs,
    mark: u64,
    told: Option<&NameMap<Due>>,
) -> bool
    ensures { result ≡ list_any (λ e. is_owed_since variant T.TYPE interest.now catalogue.now beliefs.now mark e.0) (told_entries (option_map (λ m. m.now) told.entry)) }
{
    match told {
        Some(told) => key_owed_since(variant, interest, catalogue, beliefs, mark, told.iter()),
        None => false,
    }
}

// rule: owed
// Whether one of the names is of which something is told or differs.
fn believed_owed_since<T: ResourceType>(
    variant: VariantName,
    interest: &Interest<T>,
    catalogue: &Catalogue<T>,
    beliefs: &Beliefs,
    mark: u64,
) -> bool
    ensures found { result ≡ true → (name : List ℕ) × (is_owed_since variant T.TYPE interest.now catalogue.now beliefs.now mark name ≡ true) }
    ensures none { result ≡ false → (name : List ℕ) → IsSome (finmap.get beliefs.now name) → is_owed_since variant T.TYPE interest.now catalogue.now beliefs.now mark name ≡ false }
{
    let (told, changed) = beliefs.parts();
    if key_owed_since(variant, interest, catalogue, beliefs, mark, changed.iter()) {
        return true;
    }
    told_owed_since(variant, interest, catalogue, beliefs, mark, told)
}

// rule: owed
/// Whether something is owed of a name that changed since a mark. It takes no memory.
pub(crate) fn is_owed_by_name<T: ResourceType>(
    variant: VariantName,
    interest: &Interest<T>,
    catalogue: &Catalogue<T>,
    beliefs: &Beliefs,
    mark: u64,
) -> bool
    requires { interest.now.star ≡ false }
    ensures found { result ≡ true → (name : List ℕ) × (is_owed variant T.TYPE interest.now catalogue.now.entries beliefs.now name ≡ true) }
    ensures none { result ≡ false → (name : List ℕ) → is_since catalogue.now mark name ≡ true → is_owed variant T.TYPE interest.now catalogue.now.entries beliefs.now name ≡ false }
{
    let names = interest.names();
    if name_owed_since(variant, interest, catalogue, beliefs, mark, names) {
        return true;
    }
    believed_owed_since(variant, interest, catalogue, beliefs, mark)
}
