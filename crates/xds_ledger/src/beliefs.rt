// What the server believes that a client holds, after an answer and after a request. Each function makes the whole
// anew, so that a refusal leaves what was.
ghost use Rattle.std.specs.Prelude.{◌≡◌, ℕ, List, map, string_bytes, IfOk, IfErr, OnOk};
ghost use Rattle.std.specs.FinMap as finmap;
ghost use Rattle.std.specs.FinSet as set;
ghost use Rattle.xds_resource.specs.declared.refusal.Refusal.TheVariants.{OutOfMemory};
ghost use Rattle.xds_resource.specs.Writes.{text_cmp};
ghost use Rattle.xds_resource.specs.Names.{put_all, put_some};
ghost use Rattle.xds_ledger.specs.Believing.{was_touched, beliefs_accepted, beliefs_taken, AreInOrder, versions_of, beliefs_resumed, beliefs_after};
ghost use Rattle.xds_ledger.specs.Parts.{told_unless_touched, kept_beside, left_by, made_unsure};

use crate::believed::Beliefs;
use crate::copying::put_entry;
use crate::entry::{Due, Entry};
use crate::names::Names;
use crate::sent::Sent;
use crate::version::Version;
use std::alloc::Global;
use std::collections::btree_set::Iter;
use xds_interest::{Interest, Touched};
use xds_resource::{NameMap, Refusal, ResourceType};

// rule: accept-reject
// What is believed of a name that an accepted response speaks of.
pub fn once_told(alloc: Global, touched: bool, due: &Due) -> Result<Option<Entry>, Refusal>
    ensures ok { IfOk result (λ e. e ≡ told_unless_touched touched due.now) }
    ensures err { IfErr result (λ e. e ≡ OutOfMemory) }
{
    match due {
        _ if touched => Ok(Some(Entry::Unsure)),
        Due::Stated(version) => Ok(Some(Entry::Told(version.try_copy(alloc)?))),
        Due::Removed => Ok(None),
    }
}

// Puts what is believed of a name that an accepted response speaks of.
fn put_told(
    alloc: Global,
    sent: &Sent,
    next: &mut Beliefs,
    name: &str,
    due: &Due,
) -> Result<(), Refusal>
    ensures ok { OnOk result (next.new ≡ put_some next.old name.now
        (told_unless_touched (was_touched sent.now name.now) due.now)) }
    ensures err { IfErr result (λ e. e ≡ OutOfMemory) }
{
    let entry = once_told(alloc, sent.was_touched(name), due)?;
    next.put(alloc, name, entry)
}

// rule: accept-reject
// What the names of an accepted response leave.
fn told_by(alloc: Global, sent: &Sent) -> Result<Beliefs, Refusal>
    ensures ok { IfOk result (λ m. m ≡ put_all (λ name due. told_unless_touched (was_touched sent.now name) due)
        finmap.empty (finmap.entries sent.now.offer)) }
    ensures err { IfErr result (λ e. e ≡ OutOfMemory) }
{
    let mut next = Beliefs::new(alloc);
    for (name, due) in sent.offer.as_map().iter() {
        put_told(alloc, sent, &mut next, name, due)?;
    }
    Ok(next)
}

// rule: accept-reject, rule: whole-response
// Puts what is believed of a name of which an accepted response doesn't speak.
fn put_kept(
    alloc: Global,
    whole: bool,
    sent: &Sent,
    next: &mut Beliefs,
    name: &str,
    entry: &Entry,
) -> Result<(), Refusal>
    ensures ok { OnOk result (next.new ≡ put_some next.old name.now (kept_beside whole sent.now name.now entry.now)) }
    ensures err { IfErr result (λ e. e ≡ OutOfMemory) }
{
    if sent.offer.contains(name) || (whole && !sent.was_touched(name)) {
        Ok(())
    } else {
        put_entry(alloc, next, name, entry)
    }
}

// rule: accept-reject
// After the response was accepted, from all that was believed.
fn accepted_beside(
    alloc: Global,
    whole: bool,
    sent: &Sent,
    beliefs: &NameMap<Entry>,
) -> Result<Beliefs, Refusal>
    ensures ok { IfOk result (λ m. m ≡ beliefs_accepted whole sent.now beliefs.now) }
    ensures err { IfErr result (λ e. e ≡ OutOfMemory) }
{
    let mut next = told_by(alloc, sent)?;
    for (name, entry) in beliefs.iter() {
        put_kept(alloc, whole, sent, &mut next, name, entry)?;
    }
    Ok(next)
}

// rule: accept-reject
/// After the response was accepted. `whole` says that what it lacks is gone.
pub fn accepted(
    alloc: Global,
    whole: bool,
    sent: &Sent,
    beliefs: &Beliefs,
) -> Result<Beliefs, Refusal>
    ensures ok { IfOk result (λ m. m ≡ beliefs_accepted whole sent.now beliefs.now) }
    ensures err { IfErr result (λ e. e ≡ OutOfMemory) }
{
    let all = beliefs.flattened(alloc)?;
    let next = accepted_beside(alloc, whole, sent, &all)?;
    Ok(next)
}

// Puts what is left of an entry by a request that doesn't mention its name.
fn put_left<T: ResourceType>(
    alloc: Global,
    interest: &Interest<T>,
    touched: &Touched,
    next: &mut Beliefs,
    name: &str,
    entry: &Entry,
) -> Result<(), Refusal>
    ensures ok { OnOk result (next.new ≡ put_some next.old name.now
        (left_by interest.now touched.now name.now entry.now)) }
    ensures err { IfErr result (λ e. e ≡ OutOfMemory) }
{
    if !touched.touches(name) {
        put_entry(alloc, next, name, entry)
    } else if interest.reaches(name) {
        next.put(alloc, name, Some(Entry::Unsure))
    } else {
        Ok(())
    }
}

// What a request leaves, but for the names that it mentions.
fn all_left<T: ResourceType>(
    alloc: Global,
    interest: &Interest<T>,
    touched: &Touched,
    beliefs: &NameMap<Entry>,
) -> Result<Beliefs, Refusal>
    ensures ok { IfOk result (λ m.
        m ≡ put_all (left_by interest.now touched.now) finmap.empty (finmap.entries beliefs.now)) }
    ensures err { IfErr result (λ e. e ≡ OutOfMemory) }
{
    let mut next = Beliefs::new(alloc);
    for (name, entry) in beliefs.iter() {
        put_left(alloc, interest, touched, &mut next, name, entry)?;
    }
    Ok(next)
}

// What a request makes of a name that it mentions.
pub fn made_unsure<T: ResourceType>(
    interest: &Interest<T>,
    touched: &Touched,
    name: &str,
) -> Option<Entry>
    ensures { result ≡ made_unsure interest.now touched.now name.now }
{
    if touched.touches(name) && interest.reaches(name) {
        Some(Entry::Unsure)
    } else {
        None
    }
}

// After a request whose names are taken: the interest then, what it touches, and the names that it mentions.
fn taken<T: ResourceType>(
    alloc: Global,
    interest: &Interest<T>,
    touched: &Touched,
    mentioned: Iter<'_, String>,
    beliefs: &NameMap<Entry>,
) -> Result<Beliefs, Refusal>
    ensures ok { IfOk result (λ m.
        m ≡ beliefs_taken interest.now touched.now (set.from_list (map string_bytes mentioned.entry)) beliefs.now) }
    ensures err { IfErr result (λ e. e ≡ OutOfMemory) }
{
    let mut next = all_left(alloc, interest, touched, beliefs)?;
    for name in mentioned {
        next.put(alloc, name, made_unsure(interest, touched, name))?;
    }
    Ok(next)
}

// After a client said which versions it holds, in ascending order of names.
fn resumed(alloc: Global, versions: &[(&str, &str)], beliefs: Beliefs) -> Result<Beliefs, Refusal>
    requires sorted { AreInOrder (map (λ p. (p.0.now, p.1.now)) versions.now) }
    ensures ok { IfOk result (λ m.
        m ≡ beliefs_resumed (versions_of (map (λ p. (p.0.now, p.1.now)) versions.now)) beliefs) }
    ensures err { IfErr result (λ e. e ≡ OutOfMemory) }
{
    let mut next = beliefs;
    for (name, version) in versions {
        let told = Entry::Told(Version::from_text(alloc, version)?);
        next.put(alloc, name, Some(told))?;
    }
    Ok(next)
}

/// After a request, from what was believed once it settled what it answers.
pub fn beliefs_after<T: ResourceType>(
    alloc: Global,
    names: Names<'_, T>,
    beliefs: &Beliefs,
) -> Result<Beliefs, Refusal>
    ensures ok { IfOk result (λ m. m ≡ beliefs_after names.entry beliefs.now) }
    ensures err { IfErr result (λ e. e ≡ OutOfMemory) }
{
    let Names {
        interest,
        touched,
        mentioned,
        versions,
    } = names;
    let all = beliefs.flattened(alloc)?;
    let left = taken(alloc, interest, touched, mentioned, &all)?;
    let next = resumed(alloc, versions, left)?;
    Ok(next)
}
