// `xds answer`: stamped writes and one request in, the response of a fresh stream's first poll out.
ghost use Rattle.std.specs.Prelude.{◌≡◌, ◌||◌, ◌==◌, not, length, map, IfOk, IfErr, Some};
ghost use Rattle.std.specs.Option.{option_map};
ghost use Rattle.xds_resource.specs.PerType.{at};
ghost use Rattle.xds_resource.specs.Types.{row};
ghost use Rattle.xds_message.specs.Drafts.{message_of};
ghost use Rattle.xds_core.specs.Streams.{cluster_in};
ghost use Rattle.xds_program.specs.Answers.{response_to, response_by, response_with, answer_text};
ghost use Rattle.xds_program.specs.Faults.{IsAnswer, IsFault};

use crate::gathering::{GatheredInput, Looked, gather, gather_freeing};
use std::alloc::Global;
use xds_causes::LineFault;
use xds_core::Catalogues;
use xds_interest::{ClusterText, Interest};
use xds_ledger::texts::{interest_version, nonce_text};
use xds_message::{DiscoveryRequest, SotwDraft};
use xds_resource::{Refusal, ResourceType, TypeName, Write};
use xds_sessions::{Published, texts_of};

/// Answers an input of stamped writes, a line each, and a `DiscoveryRequest` on the last line. The writes are joined
/// in order. The output is the response that a fresh stream's first poll gives, and a line feed; or nothing, where the
/// request's type is outside the table, or is incomplete and has no content.
///
/// The first line that is refused is told: `NotJson`, `BadMessage`, `CounterSpent` where a catalogue can count no
/// further change, or `OutOfMemory`, with the line that was at work.
pub fn answer_lines(alloc: Global, replica: u16, input: &[u8]) -> Result<Vec<u8>, LineFault>
    ensures answered { IfOk result (λ output. IsAnswer replica input.now output.items) }
    ensures refused { IfErr result (λ fault. IsFault input.now fault.line fault.refusal) }
{
    match gather(alloc, input) {
        Ok(gathered) => answer_gathered(alloc, replica, &gathered),
        Err(fault) => Err(fault),
    }
}

/// The same before it is written, of an input that is let go of as it is read: once half of what is left was read, that half
/// takes no memory any more. Of an answer that is nothing there is no draft. The line that was looked at last is kept.
pub fn draft_answer(
    alloc: Global,
    replica: u16,
    input: Vec<u8>,
    looked: &mut Looked,
) -> Result<Option<SotwDraft>, LineFault>
    ensures answered { IfOk result (λ draft. IsAnswer replica input.items (answer_text (option_map message_of draft))) }
    ensures refused { IfErr result (λ fault. IsFault input.items fault.line fault.refusal) }
{
    match gather_freeing(alloc, input, looked) {
        Ok(gathered) => draft_gathered(alloc, replica, &gathered),
        Err(fault) => Err(fault),
    }
}

// What is written for what was gathered.
fn answer_gathered(
    alloc: Global,
    replica: u16,
    gathered: &GatheredInput,
) -> Result<Vec<u8>, LineFault>
    ensures answered { IfOk result (λ output. output.items
        ≡ answer_text (response_by replica (at gathered.now.catalogues) gathered.now.request)) }
    ensures refused { IfErr result (λ fault. (fault.line ≡ gathered.now.line) × (fault.refusal ≡ Refusal.OutOfMemory)) }
{
    match answer_to(alloc, replica, &gathered.catalogues, &gathered.request) {
        Ok(output) => Ok(output),
        Err(refusal) => Err(LineFault {
            line: gathered.line,
            refusal,
        }),
    }
}

// The response to what was gathered.
fn draft_gathered(
    alloc: Global,
    replica: u16,
    gathered: &GatheredInput,
) -> Result<Option<SotwDraft>, LineFault>
    ensures given { IfOk result (λ o. option_map message_of o
        ≡ response_by replica (at gathered.now.catalogues) gathered.now.request) }
    ensures refused { IfErr result (λ fault. (fault.line ≡ gathered.now.line) × (fault.refusal ≡ Refusal.OutOfMemory)) }
{
    match respond_among(alloc, replica, &gathered.catalogues, &gathered.request) {
        Ok(draft) => Ok(draft),
        Err(refusal) => Err(LineFault {
            line: gathered.line,
            refusal,
        }),
    }
}

// What is written for a request.
fn answer_to(
    alloc: Global,
    replica: u16,
    catalogues: &Catalogues,
    request: &DiscoveryRequest,
) -> Result<Vec<u8>, Refusal>
    ensures answered { IfOk result
        (λ output. output.items ≡ answer_text (response_by replica (at catalogues.now) request.now)) }
    ensures refused { IfErr result (λ e. e ≡ Refusal.OutOfMemory) }
{
    match respond_among(alloc, replica, catalogues, request)? {
        Some(draft) => text_of(alloc, &draft),
        None => Ok(Vec::new(alloc)),
    }
}

// The response's text, and a line feed.
fn text_of(alloc: Global, draft: &SotwDraft) -> Result<Vec<u8>, Refusal>
    ensures text { IfOk result (λ v. v.items ≡ answer_text (Some (message_of draft.now))) }
    ensures refused { IfErr result (λ e. e ≡ Refusal.OutOfMemory) }
{
    let mut text = draft.write(alloc)?;
    text.push_str("\n")?;
    Ok(text.into_bytes())
}

// The response to a request of any type.
fn respond_among(
    alloc: Global,
    replica: u16,
    catalogues: &Catalogues,
    request: &DiscoveryRequest,
) -> Result<Option<SotwDraft>, Refusal>
    ensures given { IfOk result (λ o. option_map message_of o
        ≡ response_by replica (at catalogues.now) request.now) }
    ensures refused { IfErr result (λ e. e ≡ Refusal.OutOfMemory) }
{
    match TypeName::from_url(request.type_url.as_str()) {
        Some(kind) => respond_of(alloc, replica, catalogues, kind, request),
        None => Ok(None),
    }
}

// The response to a request of this type.
fn respond_of(
    alloc: Global,
    replica: u16,
    catalogues: &Catalogues,
    kind: TypeName,
    request: &DiscoveryRequest,
) -> Result<Option<SotwDraft>, Refusal>
    ensures given { IfOk result (λ o. option_map message_of o
        ≡ response_to replica kind (at catalogues.now kind) request.now) }
    ensures refused { IfErr result (λ e. e ≡ Refusal.OutOfMemory) }
{
    match kind {
        TypeName::Cluster => respond(alloc, replica, &catalogues.cluster, request),
        TypeName::Endpoint => respond(alloc, replica, &catalogues.endpoint, request),
        TypeName::Listener => respond(alloc, replica, &catalogues.listener, request),
        TypeName::Route => respond(alloc, replica, &catalogues.route, request),
        TypeName::Secret => respond(alloc, replica, &catalogues.secret, request),
    }
}

// rule: groups
// The text of the cluster of the node that a request comes from, empty where it has none.
fn cluster_of(alloc: Global, request: &DiscoveryRequest) -> Result<ClusterText, Refusal>
    ensures ok { IfOk result (λ c. c ≡ cluster_in request.now.node) }
    ensures refused { IfErr result (λ e. e ≡ Refusal.OutOfMemory) }
{
    match &request.node {
        Some(node) => ClusterText::new(alloc, node.cluster.as_str()),
        None => Ok(ClusterText::none()),
    }
}

// The response to a request of the type `T`, the first of a fresh stream. Nothing was told before, so it is all that the client
// sees, and what was told needn't be kept.
fn respond<T: ResourceType>(
    alloc: Global,
    replica: u16,
    catalogue: &Published<T>,
    request: &DiscoveryRequest,
) -> Result<Option<SotwDraft>, Refusal>
    ensures given { IfOk result
        (λ o. option_map message_of o ≡ response_to replica T.TYPE catalogue.now request.now) }
    ensures refused { IfErr result (λ e. e ≡ Refusal.OutOfMemory) }
{
    let cluster = cluster_of(alloc, request)?;
    let interest = Interest::of_list(alloc, &request.resource_names, cluster)?;
    let held = catalogue.catalogue();
    let shown = held.content(alloc, &interest)?;
    if is_answered(&shown) {
        let draft = first_response(alloc, replica, held.changes(), &interest, &shown)?;
        return Ok(Some(draft));
    }
    Ok(None)
}

// Whether a client that sees these is answered: of a complete type in any case, of an incomplete one where it sees something.
fn is_answered<T: ResourceType>(shown: &[&Write<T>]) -> bool
    ensures { result ≡ ((row T.TYPE).is_complete || not (length shown.now == 0)) }
{
    T::TYPE.is_complete() || !shown.is_empty()
}

// rule: nonce-numbers
// The first response of a stream, to a client that sees these.
fn first_response<T: ResourceType>(
    alloc: Global,
    replica: u16,
    changes: u64,
    interest: &Interest<T>,
    shown: &[&Write<T>],
) -> Result<SotwDraft, Refusal>
    ensures made { IfOk result
        (λ d. message_of d ≡ response_with replica T.TYPE changes interest.now (map (λ w. w.now) shown.now)) }
    ensures refused { IfErr result (λ e. e ≡ Refusal.OutOfMemory) }
{
    let version = interest_version(alloc, replica, changes, interest)?;
    let nonce = nonce_text(alloc, 1)?;
    let bodies = texts_of(alloc, shown)?;
    Ok(SotwDraft::new(T::TYPE, version, nonce, bodies))
}
