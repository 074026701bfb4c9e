// What an answer and a request change of what is believed: for each name that they speak of, what is believed from then
// on. Nothing else is looked at.
ghost use Rattle.std.specs.Prelude.{◌≡◌, false, Some, map, string_bytes, is_some, option_map, IfOk, IfErr, OnOk};
ghost use Rattle.std.specs.FinMap as finmap;
ghost use Rattle.xds_resource.specs.declared.refusal.Refusal.TheVariants.{OutOfMemory};
ghost use Rattle.xds_resource.specs.Names.{put_some, put_all};
ghost use Rattle.xds_resource.specs.Writes.{text_cmp};
ghost use Rattle.xds_interest.specs.Interests.{reaches};
ghost use Rattle.xds_ledger.specs.Changes as specs;
ghost use Rattle.xds_ledger.specs.Changes.{Lead, believed_now, left_touched, changes_left, changes_unsure, change_as};
ghost use Rattle.xds_ledger.specs.Believing.{was_touched, beliefs_after};
ghost use Rattle.xds_ledger.specs.Owed as owed;
ghost use Rattle.xds_ledger.specs.Parts as parts;

use crate::beliefs::{made_unsure, once_told};
use crate::believed::Beliefs;
use crate::entry::{Due, Entry};
use crate::names::Names;
use crate::sent::Sent;
use crate::version::Version;
use std::alloc::Global;
use std::collections::btree_set::Iter;
use xds_interest::{Interest, Touched};
use xds_resource::{NameMap, Refusal, ResourceType};

// What an accepted response changes of a name that it speaks of.
fn put_told(
    alloc: Global,
    sent: &Sent,
    changes: &mut NameMap<Option<Entry>>,
    name: &str,
    due: &Due,
) -> Result<(), Refusal>
    ensures ok { OnOk result (changes.new ≡ put_some changes.old name.now
        (Some (parts.told_unless_touched (was_touched sent.now name.now) due.now))) }
    ensures err { IfErr result (λ e. e ≡ OutOfMemory) }
{
    let entry = once_told(alloc, sent.was_touched(name), due)?;
    changes.put(alloc, name, Some(entry))
}

// rule: accept-reject
/// What an accepted response changes that isn't the whole.
pub fn changes_told(alloc: Global, sent: &Sent) -> Result<NameMap<Option<Entry>>, Refusal>
    ensures ok { IfOk result (λ m. m ≡ specs.changes_told sent.now) }
    ensures err { IfErr result (λ e. e ≡ OutOfMemory) }
{
    let mut changes = NameMap::new(alloc);
    for (name, due) in sent.offer.as_map().iter() {
        put_told(alloc, sent, &mut changes, name, due)?;
    }
    Ok(changes)
}

// Whether something is believed of a name once the changes are made.
fn is_believed(beliefs: &Beliefs, changes: &NameMap<Option<Entry>>, name: &str) -> bool
    ensures { result ≡ is_some (believed_now changes.now beliefs.now name.now) }
{
    match changes.get(name) {
        Some(entry) => entry.is_some(),
        None => beliefs.contains(name),
    }
}

// What a request changes of a touched name that it doesn't mention.
fn put_left<T: ResourceType>(
    alloc: Global,
    interest: &Interest<T>,
    beliefs: &Beliefs,
    changes: &mut NameMap<Option<Entry>>,
    name: &str,
) -> Result<(), Refusal>
    ensures ok { OnOk result (changes.new ≡ finmap.insert changes.old name.now
        (left_touched (reaches interest.now name.now) (believed_now changes.old beliefs.now name.now))) }
    ensures err { IfErr result (λ e. e ≡ OutOfMemory) }
{
    let left = if interest.reaches(name) && is_believed(beliefs, changes, name) {
        Some(Entry::Unsure)
    } else {
        None
    };
    changes.put(alloc, name, Some(left))
}

// What a request changes of the touched names, but for those that it mentions.
fn changes_left<T: ResourceType>(
    alloc: Global,
    interest: &Interest<T>,
    touched: Iter<'_, String>,
    beliefs: &Beliefs,
    changes: NameMap<Option<Entry>>,
) -> Result<NameMap<Option<Entry>>, Refusal>
    ensures ok { IfOk result (λ m. m ≡ changes_left interest.now beliefs.now changes (map string_bytes touched.entry)) }
    ensures err { IfErr result (λ e. e ≡ OutOfMemory) }
{
    let mut next = changes;
    for name in touched {
        put_left(alloc, interest, beliefs, &mut next, name)?;
    }
    Ok(next)
}

// What a request changes of a name that it mentions.
fn put_unsure<T: ResourceType>(
    alloc: Global,
    interest: &Interest<T>,
    touched: &Touched,
    changes: &mut NameMap<Option<Entry>>,
    name: &str,
) -> Result<(), Refusal>
    ensures ok { OnOk result (changes.new ≡ put_some changes.old name.now
        (option_map Some (parts.made_unsure interest.now touched.now name.now))) }
    ensures err { IfErr result (λ e. e ≡ OutOfMemory) }
{
    match made_unsure(interest, touched, name) {
        Some(entry) => changes.put(alloc, name, Some(Some(entry))),
        None => Ok(()),
    }
}

// What a request changes of the names that it mentions.
fn changes_unsure<T: ResourceType>(
    alloc: Global,
    interest: &Interest<T>,
    touched: &Touched,
    mentioned: Iter<'_, String>,
    changes: NameMap<Option<Entry>>,
) -> Result<NameMap<Option<Entry>>, Refusal>
    ensures ok { IfOk result (λ m.
        m ≡ changes_unsure interest.now touched.now changes (map string_bytes mentioned.entry)) }
    ensures err { IfErr result (λ e. e ≡ OutOfMemory) }
{
    let mut next = changes;
    for name in mentioned {
        put_unsure(alloc, interest, touched, &mut next, name)?;
    }
    Ok(next)
}

// What a request changes of the names that the client says it holds at a version.
fn changes_resumed(
    alloc: Global,
    versions: &[(&str, &str)],
    changes: NameMap<Option<Entry>>,
) -> Result<NameMap<Option<Entry>>, Refusal>
    ensures ok { IfOk result (λ m. m ≡ put_all change_as changes (map (λ p. (p.0.now, p.1.now)) versions.now)) }
    ensures err { IfErr result (λ e. e ≡ OutOfMemory) }
{
    let mut next = changes;
    for (name, version) in versions {
        let told = Entry::Told(Version::from_text(alloc, version)?);
        next.put(alloc, name, Some(Some(told)))?;
    }
    Ok(next)
}

/// What a request changes that doesn't touch every name, after the changes that its answer makes: they leave what the
/// rebuilt map would have.
pub fn changes_after<T: ResourceType>(
    alloc: Global,
    names: Names<'_, T>,
    beliefs: &Beliefs,
    changes: NameMap<Option<Entry>>,
) -> Result<NameMap<Option<Entry>>, Refusal>
    requires some { names.touched.all ≡ false }
    ensures ok { (before : owed.Beliefs) → Lead changes beliefs.now before
        → IfOk result (λ m. Lead m beliefs.now (beliefs_after names.entry before)) }
    ensures err { IfErr result (λ e. e ≡ OutOfMemory) }
{
    let Names {
        interest,
        touched,
        mentioned,
        versions,
    } = names;
    let left = changes_left(alloc, interest, touched.names(), beliefs, changes)?;
    let unsure = changes_unsure(alloc, interest, touched, mentioned, left)?;
    let next = changes_resumed(alloc, versions, unsure)?;
    Ok(next)
}
