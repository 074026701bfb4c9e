// What is believed once a response is accepted, by its offer itself: all that it tells is believed, but of the names
// that requests touched since it was sent; and where it isn't the whole, so is what was believed of other names.
ghost use Rattle.std.specs.Prelude.{◌≡◌, ℕ, List, false, option_map, if◌then◌else◌, IfOk, IfErr, OnOk};
ghost use Rattle.std.specs.Option.{option_or};
ghost use Rattle.std.specs.List.{list_any};
ghost use Rattle.std.specs.FinMap as finmap;
ghost use Rattle.std.specs.FinSet as set;
ghost use Rattle.xds_resource.specs.declared.refusal.Refusal.TheVariants.{OutOfMemory};
ghost use Rattle.xds_resource.specs.Names.{put_all, put_some};
ghost use Rattle.xds_ledger.specs.Believing.{beliefs_accepted};
ghost use Rattle.xds_ledger.specs.Overlay.{entry_of};
ghost use Rattle.xds_ledger.specs.Accepting.{beside, change_since, is_named_since, kept_beside};

use crate::believed::Beliefs;
use crate::differences::Differences;
use crate::entry::Entry;
use crate::sent::Sent;
use crate::told::Believed;
use std::alloc::Global;
use xds_interest::Touched;
use xds_resource::{NameMap, Refusal};

// What is believed of a name, as an entry of its own.
fn copied(alloc: Global, held: Option<Believed<'_>>) -> Result<Option<Entry>, Refusal>
    ensures ok { IfOk result (λ e. e ≡ option_map entry_of held.entry) }
    ensures refused { IfErr result (λ e. e ≡ OutOfMemory) }
{
    match held {
        Some(Believed::Told(version)) => Ok(Some(Entry::Told(version.try_copy(alloc)?))),
        Some(Believed::Unsure) => Ok(Some(Entry::Unsure)),
        None => Ok(None),
    }
}

// rule: accept-reject
// What is believed of a touched name once the response is accepted, where that differs from what the offer tells.
fn change_since(
    alloc: Global,
    sent: &Sent,
    beliefs: &Beliefs,
    name: &str,
) -> Result<Option<Option<Entry>>, Refusal>
    ensures ok { IfOk result (λ c. c ≡ change_since sent.now beliefs.now name.now) }
    ensures refused { IfErr result (λ e. e ≡ OutOfMemory) }
{
    if sent.offer.contains(name) {
        return Ok(Some(Some(Entry::Unsure)));
    }
    match copied(alloc, beliefs.get(name))? {
        Some(entry) => Ok(Some(Some(entry))),
        None => Ok(None),
    }
}

// Puts that.
fn put_since(
    alloc: Global,
    sent: &Sent,
    beliefs: &Beliefs,
    next: &mut Differences,
    name: &str,
) -> Result<(), Refusal>
    ensures ok { OnOk result (next.new ≡ put_some next.old name.now (change_since sent.now beliefs.now name.now)) }
    ensures refused { IfErr result (λ e. e ≡ OutOfMemory) }
{
    let change = change_since(alloc, sent, beliefs, name)?;
    next.put(alloc, name, change)
}

// Puts that of each name that a request touched by itself.
fn put_each_since(
    alloc: Global,
    sent: &Sent,
    beliefs: &Beliefs,
    next: &mut Differences,
    touched: &Touched,
) -> Result<(), Refusal>
    ensures ok { OnOk result ((q : List ℕ) → finmap.get next.new q
        ≡ (if set.contains touched.now.names q
        then option_or (change_since sent.now beliefs.now q) (finmap.get next.old q)
        else finmap.get next.old q)) }
    ensures refused { IfErr result (λ e. e ≡ OutOfMemory) }
{
    let names = touched.names();
    for name in names {
        put_since(alloc, sent, beliefs, next, name)?;
    }
    Ok(())
}

// Puts what is believed of a name, if the offer says nothing of it.
fn put_beside(
    alloc: Global,
    sent: &Sent,
    next: &mut Differences,
    name: &str,
    entry: &Entry,
) -> Result<(), Refusal>
    ensures ok { OnOk result (next.new ≡ put_some next.old name.now (beside sent.now name.now entry.now)) }
    ensures refused { IfErr result (λ e. e ≡ OutOfMemory) }
{
    if sent.offer.contains(name) {
        return Ok(());
    }
    let copy = entry.try_copy(alloc)?;
    next.put(alloc, name, Some(Some(copy)))
}

// Puts that of each name that is believed held.
fn put_all_beside(
    alloc: Global,
    sent: &Sent,
    beliefs: &NameMap<Entry>,
) -> Result<Differences, Refusal>
    ensures ok { IfOk result (λ d. d ≡ put_all (beside sent.now) finmap.empty (finmap.entries beliefs.now)) }
    ensures refused { IfErr result (λ e. e ≡ OutOfMemory) }
{
    let mut next = Differences::new(alloc);
    for (name, entry) in beliefs.iter() {
        put_beside(alloc, sent, &mut next, name, entry)?;
    }
    Ok(next)
}

// rule: accept-reject, rule: whole-response
// The differences that the believed names make of which the offer says nothing: none where it is the whole.
fn kept_beside(
    alloc: Global,
    whole: bool,
    sent: &Sent,
    beliefs: &Beliefs,
) -> Result<Differences, Refusal>
    ensures ok { IfOk result (λ d. d ≡ kept_beside whole sent.now beliefs.now) }
    ensures refused { IfErr result (λ e. e ≡ OutOfMemory) }
{
    if whole {
        return Ok(Differences::new(alloc));
    }
    let all = beliefs.flattened(alloc)?;
    put_all_beside(alloc, sent, &all)
}

// The differences that the touched names make, and those others.
fn differences_since(
    alloc: Global,
    whole: bool,
    sent: &Sent,
    beliefs: &Beliefs,
) -> Result<Differences, Refusal>
    ensures ok { IfOk result (λ d. (q : List ℕ) → finmap.get d q
        ≡ (if is_named_since sent.now q
        then option_or (change_since sent.now beliefs.now q) (finmap.get (kept_beside whole sent.now beliefs.now) q)
        else finmap.get (kept_beside whole sent.now beliefs.now) q)) }
    ensures refused { IfErr result (λ e. e ≡ OutOfMemory) }
{
    let mut next = kept_beside(alloc, whole, sent, beliefs)?;
    for touched in &sent.touched {
        put_each_since(alloc, sent, beliefs, &mut next, touched)?;
    }
    Ok(next)
}

// rule: accept-reject
/// After a response was accepted since which no request touched every name. It looks at the touched names, and, where the response
/// isn't the whole, at those that are believed held.
pub fn accepted_as_offered(
    alloc: Global,
    whole: bool,
    sent: &Sent,
    beliefs: &Beliefs,
) -> Result<Beliefs, Refusal>
    requires { list_any (λ t. t.all) sent.now.touched ≡ false }
    ensures ok { IfOk result (λ b. b ≡ beliefs_accepted whole sent.now beliefs.now) }
    ensures refused { IfErr result (λ e. e ≡ OutOfMemory) }
{
    let changed = differences_since(alloc, whole, sent, beliefs)?;
    let offer = sent.offer.try_copy()?;
    Ok(Beliefs::of_offer(offer, changed))
}
