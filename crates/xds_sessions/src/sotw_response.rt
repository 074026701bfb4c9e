// The response that an offer makes.
ghost use Rattle.std.specs.Prelude.{◌≡◌, decimal, IfOk, IfErr, OnOk};
ghost use Rattle.xds_resource.specs.declared.refusal.Refusal.TheVariants.{OutOfMemory};
ghost use Rattle.xds_ledger.specs.Texts as texts;
ghost use Rattle.xds_catalogue.specs.Holdings.{IsCatalogue};
ghost use Rattle.xds_message.specs.Drafts.{with_text};
ghost use Rattle.xds_sessions.specs.SotwParts.{body_at};
ghost use Rattle.xds_sessions.specs.SotwPolls.{stated_bodies};

use std::alloc::Global;
use xds_catalogue::Catalogue;
use xds_interest::Interest;
use xds_ledger::Due;
use xds_ledger::texts::{interest_version, nonce_text};
use xds_message::{Bodies, Body, SotwDraft, push_body};
use xds_resource::{NameMap, Refusal, ResourceType};

// rule: best-writes, rule: covered-only
// Puts the text of what is live under a name behind others, if the interest covers it.
fn push_named<T: ResourceType>(
    bodies: &mut Vec<Body>,
    catalogue: &Catalogue<T>,
    interest: &Interest<T>,
    name: &str,
) -> Result<(), Refusal>
    ensures ok { OnOk result (bodies.new.items ≡ with_text bodies.old.items (body_at catalogue.now.entries interest.now name.now)) }
    ensures named { IsCatalogue catalogue.now.entries }
    ensures refused { IfErr result (λ e. e ≡ OutOfMemory) }
{
    let Some(write) = catalogue.get(name) else {
        return Ok(());
    };
    if interest.covers(name, write.groups()) {
        push_body(bodies, write)?;
    }
    Ok(())
}

// rule: best-writes
// The texts of what is live under the names of an offer, and covered.
fn push_each<T: ResourceType>(
    alloc: Global,
    catalogue: &Catalogue<T>,
    interest: &Interest<T>,
    offer: &NameMap<Due>,
) -> Result<Vec<Body>, Refusal>
    ensures ok { IfOk result (λ v. v.items ≡ stated_bodies catalogue.now.entries interest.now offer.now) }
    ensures refused { IfErr result (λ e. e ≡ OutOfMemory) }
{
    let mut all = Vec::new(alloc);
    for (name, _due) in offer.iter() {
        push_named(&mut all, catalogue, interest, name)?;
    }
    Ok(all)
}

// rule: best-writes
/// The texts that a response with this offer states. They depend on the offer and on what is held alone, so that all clients
/// which are offered the same share them. It looks at the names of the offer alone.
pub(crate) fn stated_bodies<T: ResourceType>(
    alloc: Global,
    catalogue: &Catalogue<T>,
    interest: &Interest<T>,
    offer: &NameMap<Due>,
) -> Result<Bodies, Refusal>
    ensures ok { IfOk result (λ b. b ≡ stated_bodies catalogue.now.entries interest.now offer.now) }
    ensures refused { IfErr result (λ e. e ≡ OutOfMemory) }
{
    let bodies = push_each(alloc, catalogue, interest, offer)?;
    let stated = Bodies::new(bodies)?;
    Ok(stated)
}

/// The response of these texts, at this count of changes, as the response of this number on its stream.
pub(crate) fn response<T: ResourceType>(
    alloc: Global,
    replica: u16,
    changes: u64,
    interest: &Interest<T>,
    bodies: &Bodies,
    number: u64,
) -> Result<SotwDraft, Refusal>
    ensures ok { IfOk result (λ d. d ≡ record {
      kind = T.TYPE;
      version_info = texts.interest_version replica changes interest.now;
      nonce = decimal number;
      bodies = bodies.now;
    }) }
    ensures refused { IfErr result (λ e. e ≡ OutOfMemory) }
{
    let version = interest_version(alloc, replica, changes, interest)?;
    let nonce = nonce_text(alloc, number)?;
    let shared = bodies.try_copy()?;
    Ok(SotwDraft::new(T::TYPE, version, nonce, shared))
}
