// The list of what a client may be owed.
ghost use Rattle.std.specs.Prelude.{◌≡◌, ℕ, List, true, IfOk, IfErr, OnOk, OnErr, Some, None, if◌then◌else◌};
ghost use Rattle.std.specs.List.{list_any};
ghost use Rattle.std.specs.Option.{option_map};
ghost use Rattle.std.specs.FinMap as finmap;
ghost use Rattle.xds_resource.specs.declared.refusal.Refusal.TheVariants.{OutOfMemory};
ghost use Rattle.xds_resource.specs.Names.{pairs, put_all, put_some};
ghost use Rattle.xds_catalogue.specs.Holdings.{IsNumbered};
ghost use Rattle.xds_ledger.specs.Owed.{is_owed};
ghost use Rattle.xds_ledger.specs.Listed.{unlisted, from_mark, is_since, Fits, KeepsSending, StaysSufficient, changed_since, refreshed, pruned, relisted, with_name, without_mark, with_sending, without_sending};
ghost use Rattle.xds_ledger.specs.Sharing.{base_names, over};

use crate::believed::Beliefs;
use crate::differences::put_at;
use crate::named::{looks_by_name, owed_by_name};
use crate::owed::name_owed;
use crate::shared_map::SharedMap;
use crate::variant::VariantName;
use std::alloc::Global;
use std::collections::btree_map::Iter;
use std::marker::Model;
use xds_catalogue::Catalogue;
use xds_interest::Interest;
use xds_resource::{NameMap, Refusal, ResourceType};

/// Names of which something may be owed, and the count of changes up to which a catalogue was looked at.
pub struct Listed {
    mark: u64,
    // Names, each with the number of the change by which it came in, or 0. Copies of the list share them.
    base: Option<SharedMap<u64>>,
    // The names that were put since. They go before those that are shared.
    added: NameMap<u64>,
    // The mark when the response was sent that is unanswered, as long as it is of use.
    sent_mark: Option<u64>,
}

// Written out: docs/PROVING.md, "Drops".
impl Drop for Listed {
    fn drop(self) {
        let Listed {
            mark: _,
            base: _,
            added: _,
            sent_mark: _,
        } = self;
    }
}

impl Model for Listed {
    ghost use Rattle.xds_ledger.specs.Listed as lists;
    ghost use Rattle.xds_ledger.specs.Listed.{listed_code};
    ghost use Rattle.xds_ledger.specs.Sharing.{over};

    ghost Value = { lists.Listed };

    ghost coded = { listed_code };

    ghost view = { λ l. record { mark = l.mark; names = over l.base l.added; sent_mark = l.sent_mark } };
}

// The same names, with one owner more.
fn shared(base: &Option<SharedMap<u64>>) -> Result<Option<SharedMap<u64>>, Refusal>
    ensures ok { IfOk result (λ b. b ≡ base.now) }
    ensures refused { IfErr result (λ e. e ≡ OutOfMemory) }
{
    match base {
        Some(names) => Ok(Some(names.try_copy()?)),
        None => Ok(None),
    }
}

// The shared names, if some are.
fn as_names(base: &Option<SharedMap<u64>>) -> Option<&NameMap<u64>>
    ensures { option_map (λ m. m.now) result ≡ base.now }
{
    match base {
        Some(names) => Some(names.as_map()),
        None => None,
    }
}

impl Listed {
    /// No name, and every change is to be looked at.
    pub fn new(alloc: Global) -> Listed
        ensures { result ≡ unlisted }
    {
        Listed {
            mark: 0,
            base: None,
            added: NameMap::new(alloc),
            sent_mark: None,
        }
    }

    /// No name, and every change above a mark is to be looked at.
    pub fn from_mark(alloc: Global, mark: u64) -> Listed
        ensures { result ≡ from_mark mark }
    {
        Listed {
            mark,
            base: None,
            added: NameMap::new(alloc),
            sent_mark: None,
        }
    }

    /// The number of the last change that was looked at.
    pub fn mark(&self) -> u64
        ensures { result ≡ self.now.mark }
    {
        self.mark
    }

    /// The mark when the response was sent that is unanswered, as long as its acceptance may leave what was present
    /// then.
    pub fn sent_mark(&self) -> Option<u64>
        ensures { result ≡ self.now.sent_mark }
    {
        self.sent_mark
    }

    // The names in two maps, of which the second goes before the first.
    pub(crate) fn names(&self) -> (Option<&NameMap<u64>>, &NameMap<u64>)
        ensures { over (option_map (λ m. m.now) result.0) result.1.now ≡ self.now.names }
    {
        (as_names(&self.base), &self.added)
    }

    // Whether a name is listed. It takes no memory, and looks at no name.
    pub(crate) fn has_names(&self) -> bool
        ensures { result ≡ list_any (λ e. true) (finmap.entries self.now.names) }
    {
        if has_some(&self.added) {
            return true;
        }
        match &self.base {
            Some(names) => has_some(names.as_map()),
            None => false,
        }
    }

    /// Lists these names and no others, which others may list, too, at this count of changes. It takes no memory.
    pub fn relist(&mut self, alloc: Global, names: SharedMap<u64>, changes: u64)
        ensures { self.new ≡ relisted changes names self.old }
    {
        put_at(&mut self.base, Some(names));
        put_at(&mut self.added, NameMap::new(alloc));
        self.mark = changes;
    }

    // Lists these names and no others.
    fn set_names(&mut self, alloc: Global, names: NameMap<u64>) -> Result<(), Refusal>
        ensures ok { OnOk result (self.new ≡ record self.old { names = names }) }
        ensures err { OnErr result (self.new ≡ self.old) }
        ensures refused { IfErr result (λ e. e ≡ OutOfMemory) }
    {
        let base = to_share(alloc, names)?;
        put_at(&mut self.base, base);
        put_at(&mut self.added, NameMap::new(alloc));
        Ok(())
    }

    /// Lists a name. Refused only by `OutOfMemory`.
    pub fn put(&mut self, alloc: Global, name: &str) -> Result<(), Refusal>
        ensures ok { OnOk result (self.new ≡ with_name self.old name.now) }
        ensures err { OnErr result (self.new ≡ self.old) }
        ensures refused { IfErr result (λ e. e ≡ OutOfMemory) }
    {
        self.added.put(alloc, name, Some(0))
    }

    /// Has every change looked at again.
    pub fn forget_mark(&mut self)
        ensures { self.new ≡ without_mark self.old }
    {
        self.mark = 0;
        self.sent_mark = None;
    }

    /// Notes that a response is sent now.
    pub fn note_sending(&mut self)
        ensures { self.new ≡ with_sending self.old }
    {
        self.sent_mark = Some(self.mark);
    }

    /// Forgets when a response was sent.
    pub fn forget_sending(&mut self)
        ensures { self.new ≡ without_sending self.old }
    {
        self.sent_mark = None;
    }

    // rule: owed
    /// Lists the names that changed since the mark, which moves to the count of changes. Answers how many names these
    /// are. Refused only by `OutOfMemory`, and then the list is as it was.
    pub fn refresh<T: ResourceType>(
        &mut self,
        alloc: Global,
        catalogue: &Catalogue<T>,
    ) -> Result<u64, Refusal>
        ensures ok { OnOk result (self.new ≡ refreshed catalogue.now self.old) }
        ensures count { IfOk result (λ n. n ≡ finmap.len (changed_since catalogue.now self.old.mark)) }
        ensures fits { OnOk result (StaysSufficient catalogue.now self.old self.new) }
        ensures err { OnErr result (self.new ≡ self.old) }
        ensures refused { IfErr result (λ e. e ≡ OutOfMemory) }
    {
        let changed = changed_since(alloc, catalogue, self.mark)?;
        let count = how_many(&changed);
        let names = with_listed(alloc, changed, &self.base, &self.added)?;
        self.set_names(alloc, names)?;
        self.mark = catalogue.changes();
        Ok(count)
    }

    /// Looks at what changed since the mark, and leaves of that and of what is listed the names that something is owed
    /// of, if there is memory for it. So what comes next looks at these names alone, and at those that changed since.
    pub fn tidy<T: ResourceType>(
        &mut self,
        alloc: Global,
        variant: VariantName,
        interest: &Interest<T>,
        catalogue: &Catalogue<T>,
        beliefs: &Beliefs,
    )
        requires { Fits variant T.TYPE interest.now catalogue.now beliefs.now self.old }
        ensures fits { Fits variant T.TYPE interest.now catalogue.now beliefs.now self.new }
        ensures sending { KeepsSending self.old self.new }
    {
        drop(self.leave_owed(alloc, variant, interest, catalogue, beliefs));
    }

    // rule: owed
    // Leaves the names that something is owed of, among those that are listed and those that changed since the mark,
    // which moves to the count of changes. Refused only by `OutOfMemory`, and then the list is as it was.
    fn leave_owed<T: ResourceType>(
        &mut self,
        alloc: Global,
        variant: VariantName,
        interest: &Interest<T>,
        catalogue: &Catalogue<T>,
        beliefs: &Beliefs,
    ) -> Result<(), Refusal>
        ensures ok { OnOk result (self.new ≡ pruned variant T.TYPE interest.now catalogue.now beliefs.now (refreshed catalogue.now self.old)) }
        ensures numbered { OnOk result (IsNumbered catalogue.now) }
        ensures err { OnErr result (self.new ≡ self.old) }
        ensures refused { IfErr result (λ e. e ≡ OutOfMemory) }
    {
        let since = owed_since(alloc, variant, interest, catalogue, beliefs, self.mark)?;
        let kept = with_owed_listed(alloc, variant, interest, catalogue, beliefs, since, self)?;
        self.set_names(alloc, kept)?;
        self.mark = catalogue.changes();
        Ok(())
    }

    /// An equal list. Both share the names that were there when it was last made anew. Refused only by `OutOfMemory`.
    pub fn try_copy(&self, alloc: Global) -> Result<Listed, Refusal>
        ensures ok { IfOk result (λ l. l ≡ self.now) }
        ensures err { IfErr result (λ e. e ≡ OutOfMemory) }
    {
        let base = shared(&self.base)?;
        let added = with_names(alloc, NameMap::new(alloc), self.added.iter())?;
        Ok(Listed {
            mark: self.mark,
            base,
            added,
            sent_mark: self.sent_mark,
        })
    }
}

// The names that changed since a mark, with the numbers of their latest changes.
fn changed_since<T: ResourceType>(
    alloc: Global,
    catalogue: &Catalogue<T>,
    mark: u64,
) -> Result<NameMap<u64>, Refusal>
    ensures ok { IfOk result (λ m. m ≡ changed_since catalogue.now mark) }
    ensures numbered { IfOk result (λ m. IsNumbered catalogue.now) }
    ensures refused { IfErr result (λ e. e ≡ OutOfMemory) }
{
    let mut changed = NameMap::new(alloc);
    let mut last = mark;
    while let Some((number, write)) = catalogue.next_change(last) {
        changed.put(alloc, write.name(), Some(number))?;
        last = number;
    }
    Ok(changed)
}

fn how_many(names: &NameMap<u64>) -> u64
    ensures { result ≡ finmap.len names.now }
{
    names.iter().len() as u64
}

// Lists more names.
fn with_names(
    alloc: Global,
    names: NameMap<u64>,
    more: Iter<'_, String, u64>,
) -> Result<NameMap<u64>, Refusal>
    ensures ok { IfOk result (λ m. m ≡ put_all (λ name number. Some number) names (pairs more.entry)) }
    ensures refused { IfErr result (λ e. e ≡ OutOfMemory) }
{
    let mut all = names;
    for (name, number) in more {
        all.put(alloc, name, Some(*number))?;
    }
    Ok(all)
}

// Lists the shared names, too, if some are.
fn with_shared(
    alloc: Global,
    names: NameMap<u64>,
    base: &Option<SharedMap<u64>>,
) -> Result<NameMap<u64>, Refusal>
    ensures ok { IfOk result (λ m. m ≡ put_all (λ name number. Some number) names (finmap.entries (base_names base.now))) }
    ensures refused { IfErr result (λ e. e ≡ OutOfMemory) }
{
    match base {
        Some(more) => with_names(alloc, names, more.as_map().iter()),
        None => Ok(names),
    }
}

// Lists the names of a list, too.
fn with_listed(
    alloc: Global,
    names: NameMap<u64>,
    base: &Option<SharedMap<u64>>,
    added: &NameMap<u64>,
) -> Result<NameMap<u64>, Refusal>
    ensures ok { IfOk result (λ m. m ≡ put_all (λ name number. Some number) names (finmap.entries (over base.now added.now))) }
    ensures refused { IfErr result (λ e. e ≡ OutOfMemory) }
{
    let all = with_shared(alloc, names, base)?;
    with_names(alloc, all, added.iter())
}

// Whether there is a name.
pub(crate) fn has_some<V: Drop>(names: &NameMap<V>) -> bool
    ensures { result ≡ list_any (λ e. true) (finmap.entries names.now) }
{
    match names.iter().next() {
        Some(_) => true,
        None => false,
    }
}

// Names that copies may share. Where there is none, nothing is to be shared.
fn to_share(alloc: Global, names: NameMap<u64>) -> Result<Option<SharedMap<u64>>, Refusal>
    ensures ok { IfOk result (λ b. base_names b ≡ names) }
    ensures refused { IfErr result (λ e. e ≡ OutOfMemory) }
{
    if !has_some(&names) {
        return Ok(None);
    }
    Ok(Some(SharedMap::new(alloc, names)?))
}

// rule: owed
// Adds those of some names that something is owed of.
fn with_owed<T: ResourceType>(
    alloc: Global,
    variant: VariantName,
    interest: &Interest<T>,
    catalogue: &Catalogue<T>,
    beliefs: &Beliefs,
    start: NameMap<u64>,
    names: &NameMap<u64>,
) -> Result<NameMap<u64>, Refusal>
    ensures ok { IfOk result (λ m. m ≡ put_all (λ name number. if is_owed variant T.TYPE interest.now catalogue.now.entries beliefs.now name then Some number else None) start (finmap.entries names.now)) }
    ensures refused { IfErr result (λ e. e ≡ OutOfMemory) }
{
    let mut kept = start;
    for (name, number) in names.iter() {
        let owed = name_owed(variant, interest, catalogue, beliefs, name);
        put_if(alloc, &mut kept, owed, name, *number)?;
    }
    Ok(kept)
}

// Adds those of the shared names, if some are.
fn with_owed_shared<T: ResourceType>(
    alloc: Global,
    variant: VariantName,
    interest: &Interest<T>,
    catalogue: &Catalogue<T>,
    beliefs: &Beliefs,
    start: NameMap<u64>,
    names: Option<&NameMap<u64>>,
) -> Result<NameMap<u64>, Refusal>
    ensures ok { IfOk result (λ m. m ≡ put_all (λ name number. if is_owed variant T.TYPE interest.now catalogue.now.entries beliefs.now name then Some number else None) start (finmap.entries (base_names (option_map (λ m. m.now) names.entry)))) }
    ensures refused { IfErr result (λ e. e ≡ OutOfMemory) }
{
    match names {
        Some(names) => with_owed(alloc, variant, interest, catalogue, beliefs, start, names),
        None => Ok(start),
    }
}

// rule: owed
// Adds those of the listed names that something is owed of.
fn with_owed_listed<T: ResourceType>(
    alloc: Global,
    variant: VariantName,
    interest: &Interest<T>,
    catalogue: &Catalogue<T>,
    beliefs: &Beliefs,
    start: NameMap<u64>,
    listed: &Listed,
) -> Result<NameMap<u64>, Refusal>
    ensures ok { IfOk result (λ m. m ≡ put_all (λ name number. if is_owed variant T.TYPE interest.now catalogue.now.entries beliefs.now name then Some number else None) start (finmap.entries listed.now.names)) }
    ensures refused { IfErr result (λ e. e ≡ OutOfMemory) }
{
    let (base, added) = listed.names();
    let kept = with_owed_shared(alloc, variant, interest, catalogue, beliefs, start, base)?;
    with_owed(alloc, variant, interest, catalogue, beliefs, kept, added)
}

// rule: owed
// Those of the names that changed since a mark that something is owed of, with the numbers of their latest changes.
fn owed_since<T: ResourceType>(
    alloc: Global,
    variant: VariantName,
    interest: &Interest<T>,
    catalogue: &Catalogue<T>,
    beliefs: &Beliefs,
    mark: u64,
) -> Result<NameMap<u64>, Refusal>
    ensures ok { IfOk result (λ m. (name : List ℕ) → finmap.get m name ≡ (if is_since catalogue.now mark name
        then (if is_owed variant T.TYPE interest.now catalogue.now.entries beliefs.now name then finmap.get catalogue.now.latest name else None) else None)) }
    ensures numbered { IfOk result (λ m. IsNumbered catalogue.now) }
    ensures refused { IfErr result (λ e. e ≡ OutOfMemory) }
{
    if looks_by_name(interest, catalogue, beliefs, mark) {
        return owed_by_name(alloc, variant, interest, catalogue, beliefs, mark);
    }
    owed_by_change(alloc, variant, interest, catalogue, beliefs, mark)
}

// rule: owed
// The same by a walk through the changes above the mark.
fn owed_by_change<T: ResourceType>(
    alloc: Global,
    variant: VariantName,
    interest: &Interest<T>,
    catalogue: &Catalogue<T>,
    beliefs: &Beliefs,
    mark: u64,
) -> Result<NameMap<u64>, Refusal>
    ensures ok { IfOk result (λ m. (name : List ℕ) → finmap.get m name ≡ (if is_since catalogue.now mark name
        then (if is_owed variant T.TYPE interest.now catalogue.now.entries beliefs.now name then finmap.get catalogue.now.latest name else None) else None)) }
    ensures numbered { IfOk result (λ m. IsNumbered catalogue.now) }
    ensures refused { IfErr result (λ e. e ≡ OutOfMemory) }
{
    let mut kept = NameMap::new(alloc);
    let mut last = mark;
    while let Some((number, write)) = catalogue.next_change(last) {
        let owed = name_owed(variant, interest, catalogue, beliefs, write.name());
        put_if(alloc, &mut kept, owed, write.name(), number)?;
        last = number;
    }
    Ok(kept)
}

// Puts a name where the condition holds.
fn put_if(
    alloc: Global,
    names: &mut NameMap<u64>,
    holds: bool,
    name: &str,
    number: u64,
) -> Result<(), Refusal>
    ensures ok { OnOk result (names.new ≡ put_some names.old name.now (if holds then Some number else None)) }
    ensures refused { IfErr result (λ e. e ≡ OutOfMemory) }
{
    if holds {
        names.put(alloc, name, Some(number))?;
    }
    Ok(())
}
