// What a client is owed of one name.
ghost use Rattle.std.specs.Prelude.{◌≡◌, ℕ, List, IfOk, IfErr, option_map, true, false};
ghost use Rattle.std.specs.List.{list_any};
ghost use Rattle.std.specs.FinMap as finmap;
ghost use Rattle.std.specs.Option.{option_map_or};
ghost use Rattle.xds_resource.specs.Stamps.{version_text};
ghost use Rattle.xds_resource.specs.declared.refusal.Refusal.TheVariants.{OutOfMemory};
ghost use Rattle.xds_ledger.specs.Owed.{present, owed, is_owed, something_owed};
ghost use Rattle.xds_ledger.specs.Listed.{Fits, is_since};
ghost use Rattle.xds_ledger.specs.Overlay.{entry_of};
ghost use Rattle.xds_catalogue.specs.Holdings.{IsNumbered};
ghost use Rattle.xds_ledger.specs.Variants.{is_told};

use crate::believed::Beliefs;
use crate::entry::Due;
use crate::listed::Listed;
use crate::named::{is_owed_by_name, looks_by_name};
use crate::told::Believed;
use crate::variant::VariantName;
use crate::version::Version;
use std::alloc::Global;
use xds_catalogue::Catalogue;
use xds_interest::Interest;
use xds_resource::{NameMap, Refusal, ResourceType, Stamp, TypeName};

// rule: tombstones, rule: owed, rule: covered-only
// The stamp at which a name is present: of the live write that the interest covers. It takes no memory.
pub fn present<T: ResourceType>(
    interest: &Interest<T>,
    catalogue: &Catalogue<T>,
    name: &str,
) -> Option<Stamp>
    ensures { option_map (λ s. version_text s.counter s.writer) result ≡ present interest.now catalogue.now.entries name.now }
{
    let write = catalogue.get(name)?;
    if !interest.covers(name, write.groups()) {
        return None;
    }
    match write.body() {
        Some(_) => Some(write.stamp()),
        None => None,
    }
}

// rule: owed
// Whether something is owed of a name that can be told. It takes no memory.
pub fn is_owed(
    variant: VariantName,
    kind: TypeName,
    entry: Option<Believed<'_>>,
    present: Option<Stamp>,
) -> bool
    ensures { result ≡ option_map_or (is_told variant kind) (owed (option_map entry_of entry.entry) (option_map (λ s. version_text s.counter s.writer) present)) false }
{
    match (entry, present) {
        (None, None) => false,
        (None, Some(_)) => true,
        (Some(_), None) => variant.tells_removals(kind),
        (Some(Believed::Unsure), Some(_)) => true,
        (Some(Believed::Told(version)), Some(stamp)) => !version.is_of(stamp),
    }
}

// rule: owed, rule: no-live-removal
// What is owed of a name.
pub fn due_of(
    alloc: Global,
    entry: Option<Believed<'_>>,
    present: Option<Stamp>,
) -> Result<Option<Due>, Refusal>
    ensures ok { IfOk result (λ d. d ≡ owed (option_map entry_of entry.entry) (option_map (λ s. version_text s.counter s.writer) present)) }
    ensures err { IfErr result (λ e. e ≡ OutOfMemory) }
{
    match (entry, present) {
        (None, None) => Ok(None),
        (Some(_), None) => Ok(Some(Due::Removed)),
        (Some(Believed::Told(version)), Some(stamp)) if version.is_of(stamp) => Ok(None),
        (_, Some(stamp)) => Ok(Some(Due::Stated(Version::of_stamp(alloc, stamp)?))),
    }
}

// rule: owed
// Whether something is owed of a name that can be told, from the whole. It takes no memory.
pub(crate) fn name_owed<T: ResourceType>(
    variant: VariantName,
    interest: &Interest<T>,
    catalogue: &Catalogue<T>,
    beliefs: &Beliefs,
    name: &str,
) -> bool
    ensures { result ≡ is_owed variant T.TYPE interest.now catalogue.now.entries beliefs.now name.now }
{
    is_owed(
        variant,
        T::TYPE,
        beliefs.get(name),
        present(interest, catalogue, name),
    )
}

// rule: owed
// Whether something is owed of one of some names.
fn owed_among<T: ResourceType>(
    variant: VariantName,
    interest: &Interest<T>,
    catalogue: &Catalogue<T>,
    beliefs: &Beliefs,
    names: &NameMap<u64>,
) -> bool
    ensures { result ≡ list_any (λ e. is_owed variant T.TYPE interest.now catalogue.now.entries beliefs.now e.0) (finmap.entries names.now) }
{
    for (name, _number) in names.iter() {
        if name_owed(variant, interest, catalogue, beliefs, name) {
            return true;
        }
    }
    false
}

// rule: owed
// Whether something is owed of a listed name.
fn listed_owed<T: ResourceType>(
    variant: VariantName,
    interest: &Interest<T>,
    catalogue: &Catalogue<T>,
    beliefs: &Beliefs,
    listed: &Listed,
) -> bool
    ensures { result ≡ list_any (λ e. is_owed variant T.TYPE interest.now catalogue.now.entries beliefs.now e.0) (finmap.entries listed.now.names) }
{
    let (base, added) = listed.names();
    if owed_among(variant, interest, catalogue, beliefs, added) {
        return true;
    }
    match base {
        Some(base) => owed_among(variant, interest, catalogue, beliefs, base),
        None => false,
    }
}

// rule: owed
// Whether something is owed of a name that changed since a mark.
fn changed_owed<T: ResourceType>(
    variant: VariantName,
    interest: &Interest<T>,
    catalogue: &Catalogue<T>,
    beliefs: &Beliefs,
    mark: u64,
) -> bool
    ensures found { result ≡ true → (name : List ℕ) × (is_owed variant T.TYPE interest.now catalogue.now.entries beliefs.now name ≡ true) }
    ensures none { result ≡ false → (name : List ℕ) → is_since catalogue.now mark name ≡ true → is_owed variant T.TYPE interest.now catalogue.now.entries beliefs.now name ≡ false }
    ensures numbered { result ≡ false → IsNumbered catalogue.now }
{
    if looks_by_name(interest, catalogue, beliefs, mark) {
        return is_owed_by_name(variant, interest, catalogue, beliefs, mark);
    }
    is_owed_by_change(variant, interest, catalogue, beliefs, mark)
}

// rule: owed
// The same by a walk through the changes above the mark.
fn is_owed_by_change<T: ResourceType>(
    variant: VariantName,
    interest: &Interest<T>,
    catalogue: &Catalogue<T>,
    beliefs: &Beliefs,
    mark: u64,
) -> bool
    ensures found { result ≡ true → (name : List ℕ) × (is_owed variant T.TYPE interest.now catalogue.now.entries beliefs.now name ≡ true) }
    ensures none { result ≡ false → (name : List ℕ) → is_since catalogue.now mark name ≡ true → is_owed variant T.TYPE interest.now catalogue.now.entries beliefs.now name ≡ false }
    ensures numbered { result ≡ false → IsNumbered catalogue.now }
{
    let mut after = mark;
    while let Some((number, write)) = catalogue.next_change(after) {
        if name_owed(variant, interest, catalogue, beliefs, write.name()) {
            return true;
        }
        after = number;
    }
    false
}

// rule: owed
/// Whether something is owed of some name that can be told: of a listed one, or of one that changed since the mark. It
/// takes no memory.
pub fn something_owed<T: ResourceType>(
    variant: VariantName,
    interest: &Interest<T>,
    catalogue: &Catalogue<T>,
    beliefs: &Beliefs,
    listed: &Listed,
) -> bool
    requires { Fits variant T.TYPE interest.now catalogue.now beliefs.now listed.now }
    ensures { result ≡ something_owed variant T.TYPE interest.now catalogue.now.entries beliefs.now }
{
    if listed_owed(variant, interest, catalogue, beliefs, listed) {
        return true;
    }
    changed_owed(variant, interest, catalogue, beliefs, listed.mark())
}
