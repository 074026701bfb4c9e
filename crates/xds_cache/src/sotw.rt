// Clients of the state-of-the-world variant.
ghost use Rattle.std.specs.Prelude.{◌≡◌, ◌≢◌, map, false, Some, None, if◌then◌else◌, string_bytes, IfOk, IfErr, Ok, Err};
ghost use Rattle.std.specs.Option.{option_map};
ghost use Rattle.xds_resource.specs.declared.refusal.Refusal.TheVariants.{OutOfMemory};
ghost use Rattle.xds_cache.specs.Shelves.{wants_of as set_of};
ghost use Rattle.xds_cache.specs.Clients.{node as node_of};
ghost use Rattle.xds_cache.specs.Sends.{sotw_request as request_of};
ghost use Rattle.xds_cache.specs.Receives.{sotw_change};

use crate::accept::Accept;
use crate::asks::Asks;
use crate::judged::Judged;
use crate::link::LinkState;
use crate::rejection::rejection;
use crate::shelf::Shelf;
use crate::sotw_response::judged;
use crate::streaming::StreamingClient;
use crate::wants::{texts_of, wants_of};
use std::alloc::Global;
use xds_message::{DiscoveryRequest, DiscoveryResponse, Node};
use xds_resource::{Refusal, TypeName};

/// A client of the state-of-the-world variant, for all types. `A` is its test of what it is sent, and `L` says whether
/// it is [`Down`](crate::Down) or [`Up`](crate::Up).
pub type SotwClient<A, L> = StreamingClient<A, L, DiscoveryRequest>;

// A request for all that is wanted of a type.
fn request_for(
    alloc: Global,
    kind: TypeName,
    node: Option<Node>,
    shelf: &Shelf,
    version: &str,
    nonce: &str,
    fault: Option<String>,
) -> Result<DiscoveryRequest, Refusal>
    ensures ok { IfOk result (λ q. q ≡ request_of kind node (record shelf.now { accepted = version.now; nonce = nonce.now }) (option_map string_bytes fault)) }
    ensures err { IfErr result (λ e. e ≡ OutOfMemory) }
{
    Ok(DiscoveryRequest {
        version_info: String::from_str(alloc, version)?,
        node,
        resource_names: texts_of(alloc, &shelf.wants)?,
        type_url: String::from_str(alloc, kind.url())?,
        response_nonce: String::from_str(alloc, nonce)?,
        error_detail: rejection(fault),
    })
}

// rule: accept-reject
// The version that a shelf has after a response of this version that is rejected or taken.
fn version_after<'a>(shelf: &'a Shelf, rejects: bool, version: &'a str) -> &'a str
    ensures { result.now ≡ (if rejects then shelf.now.accepted else version.now) }
{
    if rejects {
        shelf.accepted.as_str()
    } else {
        version
    }
}

impl Asks for DiscoveryRequest {
    ghost use Rattle.xds_message.specs.Responses.{response_of};
    ghost use Rattle.xds_cache.specs.Sends.{sotw_opening};
    ghost use Rattle.xds_cache.specs.Receives.{sotw_delivered};

    type Response = DiscoveryResponse;

    ghost opening = { sotw_opening };

    ghost url = { λ r. (response_of r).type_url };

    ghost delivered = { λ test r. sotw_delivered test (response_of r) };

    fn open(
        alloc: Global,
        kind: TypeName,
        node: Option<Node>,
        shelf: &Shelf,
    ) -> Result<DiscoveryRequest, Refusal> {
        let version = shelf.accepted.as_str();
        request_for(alloc, kind, node, shelf, version, "", None)
    }

    fn type_url(response: &DiscoveryResponse) -> &str {
        response.type_url.as_str()
    }

    fn deliver<A: Accept>(
        alloc: Global,
        kind: TypeName,
        shelf: &mut Shelf,
        response: &DiscoveryResponse,
    ) -> Result<DiscoveryRequest, Refusal> {
        let Judged {
            fault,
            removed,
            stated,
        } = judged::<A>(alloc, kind, response)?;
        let rejects = fault.is_some();
        let nonce = response.nonce.as_str();
        let version = response.version_info.as_str();
        let next = version_after(shelf, rejects, version);
        let request = request_for(alloc, kind, None, shelf, next, nonce, fault)?;
        let whole = kind.is_complete();
        shelf.settle(
            alloc, kind, rejects, whole, &removed, stated, nonce, version,
        )?;
        Ok(request)
    }
}

impl<A: Accept, L: LinkState> StreamingClient<A, L, DiscoveryRequest> {
    // The request that a change sends, if it sends one.
    fn request_after(
        &self,
        alloc: Global,
        sent: bool,
        kind: TypeName,
        next: &Shelf,
    ) -> Result<Option<DiscoveryRequest>, Refusal>
        ensures ok { IfOk result (λ q. q ≡ (if sent then Some (request_of kind (node_of self.now.greeted self.now) next.now None) else None)) }
        ensures err { IfErr result (λ e. e ≡ OutOfMemory) }
    {
        if !sent {
            return Ok(None);
        }
        let node = self.client.node(alloc, self.client.has_greeted())?;
        let version = next.accepted.as_str();
        let nonce = next.nonce.as_str();
        let request = request_for(alloc, kind, node, next, version, nonce, None)?;
        Ok(Some(request))
    }

    /// Sets what the client wants of a type, and drops what it wants no longer. `*` in a list of a complete type is the
    /// star. On a stream it answers the request to send, unless the type wasn't asked for there and nothing is wanted.
    /// Refused are: `NoStream` where the client found no memory for a response on its stream, and `OutOfMemory`; then
    /// nothing changed.
    pub fn change(
        &mut self,
        alloc: Global,
        kind: TypeName,
        names: &[String],
    ) -> Result<Option<DiscoveryRequest>, Refusal>
        ensures ok { IfOk result (λ q. sotw_change L.IS_UP kind (set_of (map string_bytes names.now)) self.old ≡ Ok (self.new, q)) }
        ensures err { IfErr result (λ e. self.new ≡ self.old) }
        ensures refused { IfErr result (λ e. e ≢ OutOfMemory → sotw_change L.IS_UP kind (set_of (map string_bytes names.now)) self.old ≡ Err e) }
        ensures memory { result ≡ Err OutOfMemory → self.old.broken ≡ false }
    {
        if self.client.is_broken() {
            return Err(Refusal::NoStream);
        }
        let wants = wants_of(alloc, names)?;
        let sent = self.client.is_sent(L::IS_UP, kind, &wants);
        let next = self.client.wanting(alloc, sent, kind, wants)?;
        let request = self.request_after(alloc, sent, kind, &next)?;
        self.client.change(sent, kind, next);
        Ok(request)
    }
}
