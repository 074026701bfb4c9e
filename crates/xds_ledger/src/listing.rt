// What a request puts into a ledger's list: all names of which it may change what is owed. Where it accepts a
// response of which it is known what its acceptance leaves, that is the list: nothing is owed of the other names, but
// for changes above the mark. The list is made anew, so that a refusal leaves what was.
ghost use Rattle.std.specs.Prelude.{◌≡◌, ℕ, List, ◌&&◌, ◌||◌, true, false, Some, None, map, string_bytes, if◌then◌else◌, IfSome, IfOk, IfErr, OnOk};
ghost use Rattle.std.specs.List.{list_any};
ghost use Rattle.std.specs.FinMap as finmap;
ghost use Rattle.std.specs.FinSet as set;
ghost use Rattle.xds_resource.specs.declared.refusal.Refusal.TheVariants.{OutOfMemory};
ghost use Rattle.xds_ledger.specs.Accepting.{is_named_since};
ghost use Rattle.xds_ledger.specs.Listed.{is_listed, with_name, without_mark, without_sending};
ghost use Rattle.xds_ledger.specs.Variants.{is_whole};
ghost use Rattle.xds_ledger.specs.Lists.{accepts, with_names, with_said, with_offer, with_all, ListsNames, ListsNext};

use crate::ledger::Ledger;
use crate::listed::Listed;
use crate::names::Names;
use crate::sent::Sent;
use crate::variant::Variant;
use std::alloc::Global;
use std::collections::btree_set::Iter;
use xds_interest::Touched;
use xds_resource::{NameMap, Refusal, ResourceType};

// Lists some names, too.
fn list_names(alloc: Global, listed: Listed, names: Iter<'_, String>) -> Result<Listed, Refusal>
    ensures ok { IfOk result (λ l. l ≡ with_names listed (map string_bytes names.entry)) }
    ensures refused { IfErr result (λ e. e ≡ OutOfMemory) }
{
    let mut all = listed;
    for name in names {
        all.put(alloc, name)?;
    }
    Ok(all)
}

// Lists a name of which a client says that it holds a version: what is believed of it changes, be it touched or not.
fn put_said(alloc: Global, listed: &mut Listed, name: &str) -> Result<(), Refusal>
    ensures ok { OnOk result (listed.new ≡ without_sending (with_name listed.old name.now)) }
    ensures refused { IfErr result (λ e. e ≡ OutOfMemory) }
{
    listed.put(alloc, name)?;
    listed.forget_sending();
    Ok(())
}

// Lists the names of which a client says that it holds a version.
fn list_versions(
    alloc: Global,
    listed: Listed,
    versions: &[(&str, &str)],
) -> Result<Listed, Refusal>
    ensures ok { IfOk result (λ l. l ≡ with_said listed (map (λ p. p.0.now) versions.now)) }
    ensures refused { IfErr result (λ e. e ≡ OutOfMemory) }
{
    let mut all = listed;
    for (name, _version) in versions {
        put_said(alloc, &mut all, name)?;
    }
    Ok(all)
}

// Lists the names of a map.
fn list_keys<V: Drop>(alloc: Global, listed: Listed, names: &NameMap<V>) -> Result<Listed, Refusal>
    ensures ok { IfOk result (λ l. l ≡ with_names listed (finmap.keys names.now)) }
    ensures refused { IfErr result (λ e. e ≡ OutOfMemory) }
{
    let mut all = listed;
    for (name, _value) in names.iter() {
        all.put(alloc, name)?;
    }
    Ok(all)
}

// Lists the names that a request touched by itself.
fn put_touched(alloc: Global, listed: &mut Listed, touched: &Touched) -> Result<(), Refusal>
    ensures mark { OnOk result (listed.new.mark ≡ listed.old.mark) }
    ensures names { OnOk result ((q : List ℕ)
        → is_listed listed.new q ≡ (set.contains touched.now.names q || is_listed listed.old q)) }
    ensures refused { IfErr result (λ e. e ≡ OutOfMemory) }
{
    let names = touched.names();
    for name in names {
        listed.put(alloc, name)?;
    }
    Ok(())
}

// rule: owed
// The names that requests touched by themselves since a response was sent, from a mark on.
fn list_since(alloc: Global, mark: u64, sent: &Sent) -> Result<Listed, Refusal>
    ensures mark { IfOk result (λ l. l.mark ≡ mark) }
    ensures names { IfOk result (λ l. (q : List ℕ) → is_listed l q ≡ is_named_since sent.now q) }
    ensures refused { IfErr result (λ e. e ≡ OutOfMemory) }
{
    let mut all = Listed::from_mark(alloc, mark);
    for touched in &sent.touched {
        put_touched(alloc, &mut all, touched)?;
    }
    Ok(all)
}

// The list once a request accepts a response of which it is known what that leaves: the names that requests touched
// since it was sent, those that this one touches, and those of which it says a version.
fn list_touched<T: ResourceType>(
    alloc: Global,
    mark: u64,
    sent: &Sent,
    names: &Names<'_, T>,
) -> Result<Listed, Refusal>
    ensures mark { IfOk result (λ l. l.mark ≡ mark) }
    ensures names { IfOk result (λ l. (q : List ℕ) → is_listed l q ≡ false
        → (is_named_since sent.now q ≡ false) × (set.contains names.now.touched.names q ≡ false)
        × (finmap.get names.now.versions q ≡ None)) }
    ensures refused { IfErr result (λ e. e ≡ OutOfMemory) }
{
    let since = list_since(alloc, mark, sent)?;
    let here = list_names(alloc, since, names.touched.names())?;
    let all = list_versions(alloc, here, names.versions)?;
    Ok(all)
}

// Has every change looked at again, where every name is touched.
fn list_changes(listed: Listed, all: bool) -> Listed
    ensures { result ≡ (if all then without_mark listed else listed) }
{
    let mut next = listed;
    if all {
        next.forget_mark();
    }
    next
}

impl<T: ResourceType, V: Variant> Ledger<T, V> {
    // The list once a request with this nonce, which rejects or doesn't, is taken.
    pub(crate) fn listed_after(
        &self,
        alloc: Global,
        nonce: &str,
        rejects: bool,
        names: &Names<'_, T>,
    ) -> Result<Listed, Refusal>
        ensures ok { IfOk result (λ l.
            ListsNext V.NAME T.TYPE self.now (accepts self.now.account nonce.now rejects) names.now l) }
        ensures refused { IfErr result (λ e. e ≡ OutOfMemory) }
    {
        let accepts = self.accepts(nonce, rejects);
        match self.foretold(accepts, names.touched) {
            Some((sent, mark)) => list_touched(alloc, mark, sent, names),
            None => self.listed_wider(alloc, accepts, names),
        }
    }

    // The unanswered response, and the list's mark when it was sent, where a request accepts it and it is known what
    // that leaves of the names that requests didn't touch.
    fn foretold(&self, accepts: bool, touched: &Touched) -> Option<(&Sent, u64)>
        ensures accepted { IfSome result (λ p. accepts ≡ true) }
        ensures some { IfSome result (λ p. touched.now.all ≡ false) }
        ensures sent { IfSome result (λ p. self.now.account.sent ≡ Some p.0.now) }
        ensures mark { IfSome result (λ p. self.now.listed.sent_mark ≡ Some p.1) }
        ensures since { IfSome result (λ p. list_any (λ t. t.all) p.0.now.touched ≡ false) }
    {
        if !accepts || touched.all() {
            return None;
        }
        let Some(sent) = self.account.sent() else {
            return None;
        };
        let Some(mark) = self.listed.sent_mark() else {
            return None;
        };
        if sent.touches_all() {
            return None;
        }
        Some((sent, mark))
    }

    // rule: owed
    // The list once a request is taken, which accepts the unanswered response or doesn't: all that was listed, and all
    // names of which the request may change what is owed.
    fn listed_wider(
        &self,
        alloc: Global,
        accepts: bool,
        names: &Names<'_, T>,
    ) -> Result<Listed, Refusal>
        ensures ok { IfOk result (λ l. ListsNames V.NAME T.TYPE self.now accepts names.now l) }
        ensures refused { IfErr result (λ e. e ≡ OutOfMemory) }
    {
        let all = Ledger::<T, V>::changes_all(names.touched, accepts);
        let start = self.listed.try_copy(alloc)?;
        let named = list_names(alloc, start, names.touched.names())?;
        let said = list_versions(alloc, named, names.versions)?;
        let told = self.list_sent(alloc, accepts, said)?;
        let held = self.list_all(alloc, all, told, names.mentioned.clone()?)?;
        Ok(list_changes(held, names.touched.all()))
    }

    // rule: accept-reject
    // Whether a request with this nonce accepts the unanswered response.
    fn accepts(&self, nonce: &str, rejects: bool) -> bool
        ensures { result ≡ accepts self.now.account nonce.now rejects }
    {
        !rejects && self.answers(nonce)
    }

    // rule: owed
    // Whether all that is believed may change.
    fn changes_all(touched: &Touched, accepts: bool) -> bool
        ensures { result ≡ (touched.now.all || (accepts && is_whole V.NAME T.TYPE)) }
    {
        touched.all() || (accepts && V::NAME.is_whole(T::TYPE))
    }

    // Lists the names of the unanswered response, where it is accepted.
    fn list_sent(&self, alloc: Global, accepts: bool, listed: Listed) -> Result<Listed, Refusal>
        ensures ok { IfOk result (λ l. l ≡ with_offer self.now.account accepts listed) }
        ensures refused { IfErr result (λ e. e ≡ OutOfMemory) }
    {
        if !accepts {
            return Ok(listed);
        }
        match self.account.sent() {
            Some(sent) => list_keys(alloc, listed, sent.offer.as_map()),
            None => Ok(listed),
        }
    }

    // Lists the names of which something is believed, and those that a request mentions, where these may all change.
    fn list_all(
        &self,
        alloc: Global,
        all: bool,
        listed: Listed,
        mentioned: Iter<'_, String>,
    ) -> Result<Listed, Refusal>
        ensures ok { IfOk result (λ l. l ≡ with_all self.now.account all (map string_bytes mentioned.entry) listed) }
        ensures refused { IfErr result (λ e. e ≡ OutOfMemory) }
    {
        if !all {
            return Ok(listed);
        }
        let believed = self.account.beliefs().flattened(alloc)?;
        let held = list_keys(alloc, listed, &believed)?;
        list_names(alloc, held, mentioned)
    }
}
