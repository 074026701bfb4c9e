// Whether a response would say again what the client refused, name by name.
ghost use Rattle.std.specs.Prelude.{◌≡◌, ℕ, List, option_map, if◌then◌else◌, true, false};
ghost use Rattle.std.specs.List.{list_all};
ghost use Rattle.std.specs.FinMap as finmap;
ghost use Rattle.xds_resource.specs.Stamps.{version_text};
ghost use Rattle.xds_catalogue.specs.Holdings.{IsNumbered};
ghost use Rattle.xds_ledger.specs.Listed.{Fits, is_since};
ghost use Rattle.xds_ledger.specs.Offers.{offer, same_offer};
ghost use Rattle.xds_ledger.specs.Overlay.{entry_of};
ghost use Rattle.xds_ledger.specs.Repeats.{due_said, has_what_is_said, said_of as due_of, still_says};

use crate::believed::Beliefs;
use crate::entry::Due;
use crate::listed::Listed;
use crate::owed::present;
use crate::told::Believed;
use crate::variant::VariantName;
use xds_catalogue::Catalogue;
use xds_interest::Interest;
use xds_resource::{NameMap, ResourceType, Stamp, TypeName};

// What a response says of a name.
#[derive(Clone, Copy, Debug)]
enum Saying {
    Nothing,
    Stated(Stamp),
    Removed,
}

// rule: refused-offer
// What a response says of a name, from its entry and the write that is present. It takes no memory.
fn said_of(
    variant: VariantName,
    kind: TypeName,
    entry: Option<Believed<'_>>,
    present: Option<Stamp>,
) -> Saying
    ensures { due_said result ≡ due_of variant kind (option_map entry_of entry.entry) (option_map (λ s. version_text s.counter s.writer) present) }
{
    match (entry, present) {
        (_, Some(stamp)) if variant.is_whole(kind) => Saying::Stated(stamp),
        (Some(Believed::Told(version)), Some(stamp)) if version.is_of(stamp) => Saying::Nothing,
        (_, Some(stamp)) => Saying::Stated(stamp),
        (Some(_), None) if variant.is_delta() => Saying::Removed,
        (_, None) => Saying::Nothing,
    }
}

// rule: refused-offer
// Whether an offer says of a name what a response would say now.
fn still_says<T: ResourceType>(
    refused: &NameMap<Due>,
    variant: VariantName,
    interest: &Interest<T>,
    catalogue: &Catalogue<T>,
    beliefs: &Beliefs,
    name: &str,
) -> bool
    ensures { result ≡ still_says refused.now variant T.TYPE interest.now catalogue.now.entries beliefs.now name.now }
{
    let stamp = present(interest, catalogue, name);
    match (
        said_of(variant, T::TYPE, beliefs.get(name), stamp),
        refused.get(name),
    ) {
        (Saying::Nothing, None) => true,
        (Saying::Stated(stamp), Some(Due::Stated(version))) => version.is_of(stamp),
        (Saying::Removed, Some(Due::Removed)) => true,
        _ => false,
    }
}

// rule: refused-offer
// Whether an offer speaks of a name, or a response would say nothing of it now. It takes no memory.
fn has_what_is_said<T: ResourceType>(
    refused: &NameMap<Due>,
    variant: VariantName,
    interest: &Interest<T>,
    catalogue: &Catalogue<T>,
    beliefs: &Beliefs,
    name: &str,
) -> bool
    ensures { result ≡ has_what_is_said refused.now variant T.TYPE interest.now catalogue.now.entries beliefs.now name.now }
{
    refused.contains(name) || still_says(refused, variant, interest, catalogue, beliefs, name)
}

// rule: refused-offer
// Whether it does so of each name that it speaks of.
fn still_says_where_said<T: ResourceType>(
    refused: &NameMap<Due>,
    variant: VariantName,
    interest: &Interest<T>,
    catalogue: &Catalogue<T>,
    beliefs: &Beliefs,
) -> bool
    ensures { result ≡ list_all (λ e. still_says refused.now variant T.TYPE interest.now catalogue.now.entries beliefs.now e.0) (finmap.entries refused.now) }
{
    for (name, _due) in refused.iter() {
        if !still_says(refused, variant, interest, catalogue, beliefs, name) {
            return false;
        }
    }
    true
}

// rule: refused-offer
// Whether an offer speaks of each of some names that a response would say something of.
fn has_what_is_said_among<T: ResourceType>(
    refused: &NameMap<Due>,
    variant: VariantName,
    interest: &Interest<T>,
    catalogue: &Catalogue<T>,
    beliefs: &Beliefs,
    names: &NameMap<u64>,
) -> bool
    ensures { result ≡ list_all (λ e. has_what_is_said refused.now variant T.TYPE interest.now catalogue.now.entries beliefs.now e.0) (finmap.entries names.now) }
{
    for (name, _number) in names.iter() {
        if !has_what_is_said(refused, variant, interest, catalogue, beliefs, name) {
            return false;
        }
    }
    true
}

// rule: refused-offer
// The same of each listed name.
fn has_what_is_said_where_listed<T: ResourceType>(
    refused: &NameMap<Due>,
    variant: VariantName,
    interest: &Interest<T>,
    catalogue: &Catalogue<T>,
    beliefs: &Beliefs,
    listed: &Listed,
) -> bool
    ensures { result ≡ list_all (λ e. has_what_is_said refused.now variant T.TYPE interest.now catalogue.now.entries beliefs.now e.0) (finmap.entries listed.now.names) }
{
    let (base, added) = listed.names();
    if !has_what_is_said_among(refused, variant, interest, catalogue, beliefs, added) {
        return false;
    }
    match base {
        Some(base) => has_what_is_said_among(refused, variant, interest, catalogue, beliefs, base),
        None => true,
    }
}

// rule: refused-offer
// The same of each name that changed since a mark.
fn has_what_is_said_where_changed<T: ResourceType>(
    refused: &NameMap<Due>,
    variant: VariantName,
    interest: &Interest<T>,
    catalogue: &Catalogue<T>,
    beliefs: &Beliefs,
    mark: u64,
) -> bool
    ensures all { result ≡ true → (name : List ℕ) → is_since catalogue.now mark name ≡ true
        → has_what_is_said refused.now variant T.TYPE interest.now catalogue.now.entries beliefs.now name ≡ true }
    ensures one { result ≡ false → (name : List ℕ) × (has_what_is_said refused.now variant T.TYPE interest.now catalogue.now.entries beliefs.now name ≡ false) }
    ensures numbered { result ≡ true → IsNumbered catalogue.now }
{
    let mut after = mark;
    while let Some((number, write)) = catalogue.next_change(after) {
        if !has_what_is_said(refused, variant, interest, catalogue, beliefs, write.name()) {
            return false;
        }
        after = number;
    }
    true
}

// rule: refused-offer
/// Whether a response would say what an offer says. Where responses aren't the whole, only the names of the offer, the
/// listed ones and those that changed since the mark are looked at. It takes no memory.
pub fn repeats<T: ResourceType>(
    refused: &NameMap<Due>,
    variant: VariantName,
    interest: &Interest<T>,
    catalogue: &Catalogue<T>,
    beliefs: &Beliefs,
    listed: &Listed,
) -> bool
    requires { Fits variant T.TYPE interest.now catalogue.now beliefs.now listed.now }
    ensures { result ≡ same_offer (offer variant T.TYPE interest.now catalogue.now.entries beliefs.now) refused.now }
{
    if !still_says_where_said(refused, variant, interest, catalogue, beliefs) {
        return false;
    }
    if !has_what_is_said_where_listed(refused, variant, interest, catalogue, beliefs, listed) {
        return false;
    }
    let mark = first_mark(variant.is_whole(T::TYPE), listed);
    has_what_is_said_where_changed(refused, variant, interest, catalogue, beliefs, mark)
}

// rule: refused-offer
// The mark from which on changes are looked at: a whole response speaks of every name.
fn first_mark(whole: bool, listed: &Listed) -> u64
    ensures { result ≡ (if whole then 0 else listed.now.mark) }
{
    if whole { 0 } else { listed.mark() }
}
