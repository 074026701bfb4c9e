// What a response says, from what was told and what the catalogue holds.
ghost use Rattle.std.specs.Prelude.{◌≡◌, ℕ, List, Some, true, false, map, if◌then◌else◌, IfOk, IfErr, OnOk};
ghost use Rattle.std.specs.Option.{option_or};
ghost use Rattle.std.specs.FinMap as finmap;
ghost use Rattle.xds_resource.specs.declared.refusal.Refusal.TheVariants.{OutOfMemory};
ghost use Rattle.xds_resource.specs.Names.{put_all, put_some};
ghost use Rattle.xds_catalogue.specs.Holdings.{IsNumbered};
ghost use Rattle.xds_ledger.specs.Offers.{offer};
ghost use Rattle.xds_ledger.specs.OfferParts.{put_writes, stated, told_of};
ghost use Rattle.xds_ledger.specs.Listed.{Fits, is_since};
ghost use Rattle.xds_ledger.specs.Owed.{Beliefs};
ghost use Rattle.xds_ledger.specs.Variants.{is_whole};

use crate::believed::Beliefs;
use crate::entry::Due;
use crate::listed::Listed;
use crate::owed::{due_of, is_owed, present};
use crate::shared_map::SharedMap;
use crate::variant::VariantName;
use crate::version::Version;
use std::alloc::Global;
use xds_catalogue::Catalogue;
use xds_interest::Interest;
use xds_resource::{NameMap, Refusal, ResourceType, Write};

// States a live write at its version.
fn put_stated<T: ResourceType>(
    alloc: Global,
    said: &mut NameMap<Due>,
    write: &Write<T>,
) -> Result<(), Refusal>
    ensures ok { OnOk result (said.new ≡ put_some said.old write.now.name (stated write.now)) }
    ensures err { IfErr result (λ e. e ≡ OutOfMemory) }
{
    let version = Version::of_stamp(alloc, write.stamp())?;
    said.put(alloc, write.name(), Some(Due::Stated(version)))
}

// rule: whole-response
// States these writes, live and covered, each at its version.
fn all_stated<T: ResourceType>(alloc: Global, writes: &[&Write<T>]) -> Result<NameMap<Due>, Refusal>
    ensures ok { IfOk result (λ m. m ≡ put_writes stated finmap.empty (map (λ w. w.now) writes.now)) }
    ensures err { IfErr result (λ e. e ≡ OutOfMemory) }
{
    let mut said = NameMap::new(alloc);
    for write in writes {
        put_stated(alloc, &mut said, write)?;
    }
    Ok(said)
}

// rule: whole-response
// A response that is the whole: it states what is present.
fn wholly<T: ResourceType>(
    alloc: Global,
    interest: &Interest<T>,
    catalogue: &Catalogue<T>,
) -> Result<NameMap<Due>, Refusal>
    ensures ok { IfOk result (λ m. (v : VariantName) → (b : Beliefs) → is_whole v T.TYPE ≡ true → m ≡ offer v T.TYPE interest.now catalogue.now.entries b) }
    ensures err { IfErr result (λ e. e ≡ OutOfMemory) }
{
    let shown = catalogue.content(alloc, interest)?;
    let stated = all_stated(alloc, &shown)?;
    Ok(stated)
}

// rule: owed, rule: whole-response
// Puts what is owed of a name and can be told.
fn put_owed<T: ResourceType>(
    alloc: Global,
    variant: VariantName,
    interest: &Interest<T>,
    catalogue: &Catalogue<T>,
    beliefs: &Beliefs,
    said: &mut NameMap<Due>,
    name: &str,
) -> Result<(), Refusal>
    ensures ok { OnOk result (said.new ≡ put_some said.old name.now (told_of variant T.TYPE interest.now catalogue.now.entries beliefs.now name.now)) }
    ensures err { IfErr result (λ e. e ≡ OutOfMemory) }
{
    let entry = beliefs.get(name);
    let stamp = present(interest, catalogue, name);
    if !is_owed(variant, T::TYPE, entry, stamp) {
        return Ok(());
    }
    let due = due_of(alloc, entry, stamp)?;
    said.put(alloc, name, due)
}

// Adds what is owed of some names and can be told.
fn with_due<T: ResourceType>(
    alloc: Global,
    variant: VariantName,
    interest: &Interest<T>,
    catalogue: &Catalogue<T>,
    beliefs: &Beliefs,
    due: NameMap<Due>,
    names: &NameMap<u64>,
) -> Result<NameMap<Due>, Refusal>
    ensures ok { IfOk result (λ m. m ≡ put_all (λ name number. told_of variant T.TYPE interest.now catalogue.now.entries beliefs.now name) due (finmap.entries names.now)) }
    ensures err { IfErr result (λ e. e ≡ OutOfMemory) }
{
    let mut said = due;
    for (name, _number) in names.iter() {
        put_owed(
            alloc, variant, interest, catalogue, beliefs, &mut said, name,
        )?;
    }
    Ok(said)
}

// What is owed of the listed names and can be told.
fn listed_due<T: ResourceType>(
    alloc: Global,
    variant: VariantName,
    interest: &Interest<T>,
    catalogue: &Catalogue<T>,
    beliefs: &Beliefs,
    listed: &Listed,
) -> Result<NameMap<Due>, Refusal>
    ensures ok { IfOk result (λ m. m ≡ put_all (λ name number. told_of variant T.TYPE interest.now catalogue.now.entries beliefs.now name) finmap.empty (finmap.entries listed.now.names)) }
    ensures err { IfErr result (λ e. e ≡ OutOfMemory) }
{
    let (base, added) = listed.names();
    let none = NameMap::new(alloc);
    let due = with_due(alloc, variant, interest, catalogue, beliefs, none, added)?;
    match base {
        Some(base) => with_due(alloc, variant, interest, catalogue, beliefs, due, base),
        None => Ok(due),
    }
}

// Adds what is owed of the names that changed since a mark, and can be told.
fn with_changed<T: ResourceType>(
    alloc: Global,
    variant: VariantName,
    interest: &Interest<T>,
    catalogue: &Catalogue<T>,
    beliefs: &Beliefs,
    mark: u64,
    due: NameMap<Due>,
) -> Result<NameMap<Due>, Refusal>
    ensures ok { IfOk result (λ m. (name : List ℕ) → finmap.get m name ≡ (if is_since catalogue.now mark name then option_or (told_of variant T.TYPE interest.now catalogue.now.entries beliefs.now name) (finmap.get due name) else finmap.get due name)) }
    ensures numbered { IfOk result (λ m. IsNumbered catalogue.now) }
    ensures err { IfErr result (λ e. e ≡ OutOfMemory) }
{
    let mut said = due;
    let mut after = mark;
    while let Some((number, write)) = catalogue.next_change(after) {
        put_owed(
            alloc,
            variant,
            interest,
            catalogue,
            beliefs,
            &mut said,
            write.name(),
        )?;
        after = number;
    }
    Ok(said)
}

// rule: owed, rule: whole-response
// What a response says: what is present, where it is the whole, and else what is owed and can be told, of the listed
// names and of those that changed since the mark.
fn said<T: ResourceType>(
    alloc: Global,
    variant: VariantName,
    interest: &Interest<T>,
    catalogue: &Catalogue<T>,
    beliefs: &Beliefs,
    listed: &Listed,
) -> Result<NameMap<Due>, Refusal>
    requires { Fits variant T.TYPE interest.now catalogue.now beliefs.now listed.now }
    ensures ok { IfOk result (λ m. m ≡ offer variant T.TYPE interest.now catalogue.now.entries beliefs.now) }
    ensures err { IfErr result (λ e. e ≡ OutOfMemory) }
{
    if variant.is_whole(T::TYPE) {
        return wholly(alloc, interest, catalogue);
    }
    let said = partly(alloc, variant, interest, catalogue, beliefs, listed)?;
    Ok(said)
}

// rule: owed
/// What is owed and can be told, of the listed names and of those that changed since the mark: what a response says that isn't the
/// whole, where the list suffices.
pub(crate) fn partly<T: ResourceType>(
    alloc: Global,
    variant: VariantName,
    interest: &Interest<T>,
    catalogue: &Catalogue<T>,
    beliefs: &Beliefs,
    listed: &Listed,
) -> Result<NameMap<Due>, Refusal>
    ensures ok { IfOk result (λ m. is_whole variant T.TYPE ≡ false → Fits variant T.TYPE interest.now catalogue.now beliefs.now listed.now
        → m ≡ offer variant T.TYPE interest.now catalogue.now.entries beliefs.now) }
    ensures err { IfErr result (λ e. e ≡ OutOfMemory) }
{
    let due = listed_due(alloc, variant, interest, catalogue, beliefs, listed)?;
    let mark = listed.mark();
    let said = with_changed(alloc, variant, interest, catalogue, beliefs, mark, due)?;
    Ok(said)
}

// rule: whole-response
/// The offer of a response: what is present, where a response is the whole, and else what is owed and can be told. It
/// looks at the listed names and at those that changed since the mark, or where it is the whole, at all that is
/// present.
pub fn offer<T: ResourceType>(
    alloc: Global,
    variant: VariantName,
    interest: &Interest<T>,
    catalogue: &Catalogue<T>,
    beliefs: &Beliefs,
    listed: &Listed,
) -> Result<SharedMap<Due>, Refusal>
    requires { Fits variant T.TYPE interest.now catalogue.now beliefs.now listed.now }
    ensures ok { IfOk result (λ m. m ≡ offer variant T.TYPE interest.now catalogue.now.entries beliefs.now) }
    ensures err { IfErr result (λ e. e ≡ OutOfMemory) }
{
    let all = said(alloc, variant, interest, catalogue, beliefs, listed)?;
    SharedMap::new(alloc, all)
}
