// Beliefs as differences from another offer, where that tells of all other names what is believed.
ghost use Rattle.std.specs.Prelude.{◌≡◌, ℕ, List, Some, false, IfOk, IfErr, OnOk};
ghost use Rattle.std.specs.Option.{option_map};
ghost use Rattle.std.specs.FinMap as finmap;
ghost use Rattle.xds_resource.specs.declared.refusal.Refusal.TheVariants.{OutOfMemory};
ghost use Rattle.xds_resource.specs.Names.{put_all};
ghost use Rattle.xds_ledger.specs.Listed.{is_listed};
ghost use Rattle.xds_ledger.specs.Lists.{Fits};
ghost use Rattle.xds_ledger.specs.Offers.{offer as offer_of};
ghost use Rattle.xds_ledger.specs.Overlay.{entry_of, told_in};

use crate::account::Account;
use crate::believed::Beliefs;
use crate::differences::Differences;
use crate::entry::{Due, Entry};
use crate::ledger::Ledger;
use crate::listed::Listed;
use crate::shared_map::SharedMap;
use crate::told::Believed;
use crate::variant::Variant;
use std::alloc::Global;
use xds_catalogue::Catalogue;
use xds_interest::Interest;
use xds_resource::{NameMap, Refusal, ResourceType};

// How many names may differ from what was told, whatever was told.
const FEW: u64 = 16;

// Of how many names that were told one may differ beside these.
const OF_MANY: u64 = 64;

// A copy of what is believed of a name. Refused only by `OutOfMemory`.
fn copy_of(alloc: Global, believed: Option<Believed<'_>>) -> Result<Option<Entry>, Refusal>
    ensures ok { IfOk result (λ e. e ≡ option_map entry_of believed.entry) }
    ensures refused { IfErr result (λ e. e ≡ OutOfMemory) }
{
    match believed {
        Some(Believed::Told(version)) => Ok(Some(Entry::Told(version.try_copy(alloc)?))),
        Some(Believed::Unsure) => Ok(Some(Entry::Unsure)),
        None => Ok(None),
    }
}

// Puts what is believed of a name as a difference.
fn put_believed(
    alloc: Global,
    beliefs: &Beliefs,
    differences: &mut Differences,
    name: &str,
) -> Result<(), Refusal>
    ensures ok { OnOk result (differences.new ≡ finmap.insert differences.old name.now (finmap.get beliefs.now name.now)) }
    ensures refused { IfErr result (λ e. e ≡ OutOfMemory) }
{
    let entry = copy_of(alloc, beliefs.get(name))?;
    differences.put(alloc, name, Some(entry))
}

// Puts what is believed of some names.
fn with_believed(
    alloc: Global,
    beliefs: &Beliefs,
    start: Differences,
    names: &NameMap<u64>,
) -> Result<Differences, Refusal>
    ensures ok { IfOk result (λ d. d ≡ put_all (λ name number. Some (finmap.get beliefs.now name)) start (finmap.entries names.now)) }
    ensures refused { IfErr result (λ e. e ≡ OutOfMemory) }
{
    let mut all = start;
    for (name, _number) in names.iter() {
        put_believed(alloc, beliefs, &mut all, name)?;
    }
    Ok(all)
}

// What is believed of the listed names.
fn believed_where_listed(
    alloc: Global,
    beliefs: &Beliefs,
    listed: &Listed,
) -> Result<Differences, Refusal>
    ensures ok { IfOk result (λ d. d ≡ put_all (λ name number. Some (finmap.get beliefs.now name)) finmap.empty (finmap.entries listed.now.names)) }
    ensures refused { IfErr result (λ e. e ≡ OutOfMemory) }
{
    let (base, added) = listed.names();
    let none = Differences::new(alloc);
    let all = with_believed(alloc, beliefs, none, added)?;
    match base {
        Some(base) => with_believed(alloc, beliefs, all, base),
        None => Ok(all),
    }
}

impl Beliefs {
    // Equal beliefs, as what an offer told, with differences at the listed names. Of the others it tells what is believed. Refused only
    // by `OutOfMemory`.
    fn over_offer(
        &self,
        alloc: Global,
        offer: SharedMap<Due>,
        listed: &Listed,
    ) -> Result<Beliefs, Refusal>
        requires { (name : List ℕ) → is_listed listed.now name ≡ false → finmap.get self.now name ≡ told_in (Some offer) name }
        ensures ok { IfOk result (λ b. b ≡ self.now) }
        ensures refused { IfErr result (λ e. e ≡ OutOfMemory) }
    {
        let differences = believed_where_listed(alloc, self, listed)?;
        Ok(Beliefs::of_offer(offer, differences))
    }
}

impl<T: ResourceType, V: Variant> Account<T, V> {
    // Has what is believed stand so, as far as there is memory for it. It changes nothing that is seen.
    fn rebase(&mut self, alloc: Global, offer: SharedMap<Due>, listed: &Listed)
        requires { (name : List ℕ) → is_listed listed.now name ≡ false → finmap.get self.old.beliefs name ≡ told_in (Some offer) name }
        ensures { self.new ≡ self.old }
    {
        if let Ok(next) = self.beliefs.over_offer(alloc, offer, listed) {
            self.beliefs = next;
        }
    }
}

impl<T: ResourceType, V: Variant> Ledger<T, V> {
    /// Whether what is believed differs from what was told at so many names that another offer should stand for it: at more than
    /// sixteen, and one of 64 that were told.
    pub fn differs_much(&self) -> bool {
        let (told, different) = self.account.beliefs().sizes();
        V::NAME.is_delta() && different > FEW + told / OF_MANY
    }

    /// Has what is believed stand as differences from an offer at the listed names, as far as there is memory for it, where the
    /// variant is incremental and the list is that of the present catalogue. The offer is what a client of this interest is offered
    /// that holds nothing. It changes nothing that is seen.
    pub fn rebase(
        &mut self,
        alloc: Global,
        interest: &Interest<T>,
        catalogue: &Catalogue<T>,
        offer: SharedMap<Due>,
    )
        requires fits { Fits V.NAME T.TYPE interest.now catalogue.now self.old }
        requires first { offer ≡ offer_of V.NAME T.TYPE interest.now catalogue.now.entries finmap.empty }
        ensures { self.new ≡ self.old }
    {
        let mark = self.listed.mark();
        if !V::NAME.is_delta() || mark != catalogue.changes() {
            return;
        }
        if catalogue.next_change(mark).is_some() {
            return;
        }
        self.account.rebase(alloc, offer, &self.listed);
    }
}
