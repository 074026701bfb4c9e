// The offer of a response, and whether two offers are the same.
ghost use Rattle.std.specs.Prelude.{◌≡◌, map, string_bytes, Some, IfOk, IfErr, OnOk};
ghost use Rattle.std.specs.FinMap as finmap;
ghost use Rattle.xds_resource.specs.declared.refusal.Refusal.TheVariants.{OutOfMemory};
ghost use Rattle.xds_resource.specs.Names.{put_each};
ghost use Rattle.xds_ledger.specs.declared.entry.Due.TheVariants.{Removed};
ghost use Rattle.xds_ledger.specs.Offers.{is_within as is_within_of, same_offer as is_same_offer};
ghost use Rattle.xds_check.specs.Kept.{stated_due, offer_in};

use crate::answer::Answer;
use crate::statement::Statement;
use std::alloc::Global;
use xds_catalogue::Catalogue;
use xds_ledger::{Due, Version};
use xds_resource::{NameMap, Refusal, ResourceType};

// rule: refused-offer
// What a response says of a name that it states: the version of its best write.
fn due_of<T: ResourceType>(
    alloc: Global,
    catalogue: &Catalogue<T>,
    name: &str,
) -> Result<Option<Due>, Refusal>
    ensures ok { IfOk result (λ d. d ≡ stated_due catalogue.now.entries name.now) }
    ensures refused { IfErr result (λ e. e ≡ OutOfMemory) }
{
    match catalogue.get(name) {
        Some(write) => {
            let version = Version::of_stamp(alloc, write.stamp())?;
            Ok(Some(Due::Stated(version)))
        }
        None => Ok(None),
    }
}

// rule: refused-offer
// The offer of the resources that a response states.
fn stated<T: ResourceType>(
    alloc: Global,
    catalogue: &Catalogue<T>,
    statements: &[Statement],
) -> Result<NameMap<Due>, Refusal>
    ensures ok { IfOk result (λ o. o ≡ put_each (stated_due catalogue.now.entries) finmap.empty (map (λ x. x.name) statements.now)) }
    ensures refused { IfErr result (λ e. e ≡ OutOfMemory) }
{
    let mut offer = NameMap::new(alloc);
    for statement in statements {
        let due = due_of(alloc, catalogue, statement.name())?;
        offer.put(alloc, statement.name(), due)?;
    }
    Ok(offer)
}

// rule: refused-offer
// Puts in that names are removed.
fn remove(alloc: Global, offer: &mut NameMap<Due>, removed: &[String]) -> Result<(), Refusal>
    ensures ok { OnOk result (offer.new ≡ put_each (λ _. Some Removed) offer.old (map string_bytes removed.now)) }
    ensures refused { IfErr result (λ e. e ≡ OutOfMemory) }
{
    for name in removed {
        offer.put(alloc, name.as_str(), Some(Due::Removed))?;
    }
    Ok(())
}

// rule: refused-offer
/// The offer of a response, by the best writes of its names. Refused only by `OutOfMemory`.
pub(crate) fn offer_of<T: ResourceType>(
    alloc: Global,
    catalogue: &Catalogue<T>,
    answer: &Answer,
) -> Result<NameMap<Due>, Refusal>
    ensures ok { IfOk result (λ o. o ≡ offer_in catalogue.now.entries answer.now) }
    ensures refused { IfErr result (λ e. e ≡ OutOfMemory) }
{
    let mut offer = stated(alloc, catalogue, answer.statements())?;
    remove(alloc, &mut offer, answer.removed())?;
    Ok(offer)
}

// rule: refused-offer
// Whether the first offer says nothing that the second doesn't say.
fn is_within(offer: &NameMap<Due>, other: &NameMap<Due>) -> bool
    ensures { result ≡ is_within_of offer.now other.now }
{
    for (name, due) in offer.iter() {
        let same = match other.get(name.as_str()) {
            Some(another) => due.is_same(another),
            None => false,
        };
        if !same {
            return false;
        }
    }
    true
}

// rule: refused-offer
/// Whether two offers are the same.
pub(crate) fn is_same(offer: &NameMap<Due>, other: &NameMap<Due>) -> bool
    ensures { result ≡ is_same_offer offer.now other.now }
{
    is_within(offer, other) && is_within(other, offer)
}
