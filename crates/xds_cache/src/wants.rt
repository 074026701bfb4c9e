// The texts that a client asks for. In a complete type `*` is the star.
ghost use Rattle.std.specs.Prelude.{◌≡◌, [], ◌∷◌, ◌++◌, map, string_bytes, IfOk, IfErr, OnOk};
ghost use Rattle.std.specs.FinMap as finmap;
ghost use Rattle.xds_resource.specs.declared.refusal.Refusal.TheVariants.{OutOfMemory};
ghost use Rattle.xds_resource.specs.Names.{put_all};
ghost use Rattle.xds_cache.specs.Shelves.{texts, is_wanted as is_wanted_by, wants_some as some_wanted, wants_of as set_of, wants_after as set_after};
ghost use Rattle.xds_cache.specs.Parts.{unless_dropped as dropping};

use std::alloc::Global;
use xds_resource::{NameMap, Refusal, TypeName};

/// A set of texts.
pub type Wants = NameMap<()>;

/// The texts of a list.
pub fn wants_of(alloc: Global, names: &[String]) -> Result<Wants, Refusal>
    ensures ok { IfOk result (λ w. w ≡ set_of (map string_bytes names.now)) }
    ensures err { IfErr result (λ e. e ≡ OutOfMemory) }
{
    let mut wants = NameMap::new(alloc);
    for name in names {
        wants.put(alloc, name.as_str(), Some(()))?;
    }
    Ok(wants)
}

// rule: delta-names
// A text that was wanted, unless it is unsubscribed.
fn unless_dropped(unsubscribe: &Wants, name: &str) -> Option<()>
    ensures { result ≡ dropping unsubscribe.now name.now tt }
{
    if unsubscribe.contains(name) {
        None
    } else {
        Some(())
    }
}

// rule: delta-names
// The texts that were wanted, but for those that are unsubscribed.
fn without(alloc: Global, before: &Wants, unsubscribe: &Wants) -> Result<Wants, Refusal>
    ensures ok { IfOk result (λ w. w ≡ put_all (dropping unsubscribe.now) finmap.empty (finmap.entries before.now)) }
    ensures err { IfErr result (λ e. e ≡ OutOfMemory) }
{
    let mut left = NameMap::new(alloc);
    for (name, _) in before.iter() {
        left.put(alloc, name, unless_dropped(unsubscribe, name))?;
    }
    Ok(left)
}

// rule: delta-names
/// What is wanted after a change. A text that is both subscribed and unsubscribed is wanted.
pub fn wants_after(
    alloc: Global,
    before: &Wants,
    subscribe: &Wants,
    unsubscribe: &Wants,
) -> Result<Wants, Refusal>
    ensures ok { IfOk result (λ w. w ≡ set_after subscribe.now unsubscribe.now before.now) }
    ensures err { IfErr result (λ e. e ≡ OutOfMemory) }
{
    let mut after = without(alloc, before, unsubscribe)?;
    for (name, _) in subscribe.iter() {
        after.put(alloc, name, Some(()))?;
    }
    Ok(after)
}

// Puts a copy of a text behind others.
pub(crate) fn push_text(alloc: Global, texts: &mut Vec<String>, text: &str) -> Result<(), Refusal>
    ensures ok { OnOk result (map string_bytes texts.new.items ≡ map string_bytes texts.old.items ++ text.now ∷ []) }
    ensures err { IfErr result (λ e. e ≡ OutOfMemory) }
{
    texts.push(String::from_str(alloc, text)?)?;
    Ok(())
}

/// The texts in ascending order, as requests list them.
pub fn texts_of(alloc: Global, wants: &Wants) -> Result<Vec<String>, Refusal>
    ensures ok { IfOk result (λ v. map string_bytes v.items ≡ texts wants.now) }
    ensures err { IfErr result (λ e. e ≡ OutOfMemory) }
{
    let mut texts = Vec::new(alloc);
    for (name, _) in wants.iter() {
        push_text(alloc, &mut texts, name.as_str())?;
    }
    Ok(texts)
}

/// Whether something is wanted.
pub fn wants_some(wants: &Wants) -> bool
    ensures { result ≡ some_wanted wants.now }
{
    wants.iter().next().is_some()
}

// rule: star-covers
/// Whether the resource of a name is wanted: by its name, or by the star.
pub fn is_wanted(kind: TypeName, wants: &Wants, name: &str) -> bool
    ensures { result ≡ is_wanted_by kind wants.now name.now }
{
    wants.contains(name) || (kind.is_complete() && wants.contains("*"))
}
