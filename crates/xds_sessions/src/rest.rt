// What a client is answered that polls without a stream.
ghost use Rattle.std.specs.Prelude.{◌≡◌, [], false, map, string_bytes, IfOk, IfErr};
ghost use Rattle.std.specs.List.{filter_map};
ghost use Rattle.std.specs.FinSet as set;
ghost use Rattle.xds_resource.specs.declared.refusal.Refusal.TheVariants.{OutOfMemory};
ghost use Rattle.xds_interest.specs.Interests.{Selection};
ghost use Rattle.xds_catalogue.specs.Content.{content};
ghost use Rattle.xds_sessions.specs.SotwParts.{all_texts};
ghost use Rattle.xds_sessions.specs.Rest as rest;
ghost use Rattle.xds_sessions.specs.Rest.{asked_once, unless_present};

use std::alloc::Global;
use xds_catalogue::Catalogue;
use xds_interest::{ClusterText, Interest, in_order, opens_star};
use xds_ledger::texts::interest_version;
use xds_message::{Bodies, Body, SotwDraft, push_body};
use xds_resource::{Refusal, ResourceType, Write};

// rule: not-modified
/// What a client of this cluster is answered that sends one list of names and the version that it kept: all that it sees, for
/// all types alike, without a nonce; or none where it wants all of the type and that version is the present one. `replica`
/// is the number of this replica. Refused only by `OutOfMemory`.
pub fn rested<T: ResourceType>(
    alloc: Global,
    replica: u16,
    catalogue: &Catalogue<T>,
    names: &[String],
    version: &str,
    cluster: ClusterText,
) -> Result<Option<SotwDraft>, Refusal>
    ensures ok { IfOk result (λ d. d ≡ unless_present replica T.TYPE catalogue.now (asked_once T.TYPE (map string_bytes names.now) cluster) version.now) }
    ensures refused { IfErr result (λ e. e ≡ OutOfMemory) }
{
    if !opens_star(T::TYPE, names) {
        let draft = named(alloc, replica, catalogue, names)?;
        return Ok(Some(draft));
    }
    let interest = Interest::of_list(alloc, names, cluster)?;
    let present = interest_version(alloc, replica, catalogue.changes(), &interest)?;
    if version == present.as_str() {
        return Ok(None);
    }
    let draft = whole(alloc, catalogue, &interest, present)?;
    Ok(Some(draft))
}

// rule: listed-names
// All that a client sees that wants the names of a list, and not all of the type. No name is copied.
fn named<T: ResourceType>(
    alloc: Global,
    replica: u16,
    catalogue: &Catalogue<T>,
    names: &[String],
) -> Result<SotwDraft, Refusal>
    ensures ok { IfOk result (λ d. (s : Selection) → s.star ≡ false → s.names ≡ set.from_list (map string_bytes names.now) → d ≡ rest.whole replica T.TYPE catalogue.now s) }
    ensures refused { IfErr result (λ e. e ≡ OutOfMemory) }
{
    let nobody: Interest<T> = Interest::nothing(alloc, ClusterText::none());
    let version = interest_version(alloc, replica, catalogue.changes(), &nobody)?;
    let ordered = in_order(alloc, names)?;
    let shown = catalogue.live_under(alloc, &ordered)?;
    let draft = draft_of(alloc, version, &shown)?;
    Ok(draft)
}

// All that a client of this interest sees, as of this version.
fn whole<T: ResourceType>(
    alloc: Global,
    catalogue: &Catalogue<T>,
    interest: &Interest<T>,
    version: String,
) -> Result<SotwDraft, Refusal>
    ensures ok { IfOk result (λ d. d ≡ record { kind = T.TYPE; version_info = string_bytes version; nonce = []; bodies = filter_map (λ w. w.body) (content catalogue.now.entries interest.now) }) }
    ensures refused { IfErr result (λ e. e ≡ OutOfMemory) }
{
    let shown = catalogue.content(alloc, interest)?;
    let draft = draft_of(alloc, version, &shown)?;
    Ok(draft)
}

// What these writes say as of this version, without a nonce.
fn draft_of<T: ResourceType>(
    alloc: Global,
    version: String,
    writes: &[&Write<T>],
) -> Result<SotwDraft, Refusal>
    ensures ok { IfOk result (λ d. d ≡ record { kind = T.TYPE; version_info = string_bytes version; nonce = []; bodies = filter_map (λ w. w.body) (map (λ w. w.now) writes.now) }) }
    ensures refused { IfErr result (λ e. e ≡ OutOfMemory) }
{
    let bodies = texts_of(alloc, writes)?;
    Ok(SotwDraft::new(T::TYPE, version, String::new(alloc), bodies))
}

/// The stored texts of those of these writes that put a resource, in order. Refused only by `OutOfMemory`.
pub fn texts_of<T: ResourceType>(alloc: Global, writes: &[&Write<T>]) -> Result<Bodies, Refusal>
    ensures ok { IfOk result (λ b. b ≡ filter_map (λ w. w.body) (map (λ w. w.now) writes.now)) }
    ensures refused { IfErr result (λ e. e ≡ OutOfMemory) }
{
    let bodies = bodies_of(alloc, writes)?;
    let stated = Bodies::new(bodies)?;
    Ok(stated)
}

// The same, which aren't shared yet.
fn bodies_of<T: ResourceType>(alloc: Global, writes: &[&Write<T>]) -> Result<Vec<Body>, Refusal>
    ensures ok { IfOk result (λ v. v.items ≡ all_texts [] (map (λ w. w.now) writes.now)) }
    ensures refused { IfErr result (λ e. e ≡ OutOfMemory) }
{
    let mut bodies = Vec::new(alloc);
    for write in writes {
        push_body(&mut bodies, write)?;
    }
    Ok(bodies)
}
