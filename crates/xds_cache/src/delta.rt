// Clients of the incremental (delta) variant.
ghost use Rattle.std.specs.Prelude.{◌≡◌, ◌≢◌, map, false, Some, None, if◌then◌else◌, string_bytes, IfOk, IfErr, Ok, Err};
ghost use Rattle.std.specs.FinMap as finmap;
ghost use Rattle.std.specs.Option.{option_map};
ghost use Rattle.xds_resource.specs.declared.refusal.Refusal.TheVariants.{OutOfMemory};
ghost use Rattle.xds_cache.specs.Shelves.{wants_of as set_of};
ghost use Rattle.xds_cache.specs.Clients.{node as node_of};
ghost use Rattle.xds_cache.specs.Sends.{delta_request, delta_answer, cached_versions as versions_cached};
ghost use Rattle.xds_cache.specs.Receives.{delta_change, delta_changed};

use crate::accept::Accept;
use crate::asks::Asks;
use crate::cache::Cache;
use crate::delta_response::judged;
use crate::judged::Judged;
use crate::link::LinkState;
use crate::rejection::rejection;
use crate::shelf::Shelf;
use crate::streaming::StreamingClient;
use crate::wants::{Wants, texts_of, wants_after, wants_of};
use std::alloc::Global;
use xds_message::{DeltaDiscoveryRequest, DeltaDiscoveryResponse, Node, Versions};
use xds_resource::{NameMap, Refusal, TypeName};

/// A client of the incremental variant, for all types. `A` is its test of what it is sent, and `L` says whether it is
/// [`Down`](crate::Down) or [`Up`](crate::Up).
pub type DeltaClient<A, L> = StreamingClient<A, L, DeltaDiscoveryRequest>;

// A request that subscribes and unsubscribes texts, and says which versions are held.
fn request_for(
    alloc: Global,
    kind: TypeName,
    node: Option<Node>,
    subscribe: &Wants,
    unsubscribe: &Wants,
    versions: Versions,
) -> Result<DeltaDiscoveryRequest, Refusal>
    ensures ok { IfOk result (λ q. q ≡ delta_request kind node subscribe.now unsubscribe.now versions) }
    ensures err { IfErr result (λ e. e ≡ OutOfMemory) }
{
    Ok(DeltaDiscoveryRequest {
        node,
        type_url: String::from_str(alloc, kind.url())?,
        resource_names_subscribe: texts_of(alloc, subscribe)?,
        resource_names_unsubscribe: texts_of(alloc, unsubscribe)?,
        initial_resource_versions: versions,
        response_nonce: String::new(alloc),
        error_detail: None,
    })
}

// rule: accept-reject
// The answer to a response.
fn answer_to(
    alloc: Global,
    kind: TypeName,
    nonce: &str,
    fault: Option<String>,
) -> Result<DeltaDiscoveryRequest, Refusal>
    ensures ok { IfOk result (λ q. q ≡ delta_answer kind nonce.now (option_map string_bytes fault)) }
    ensures err { IfErr result (λ e. e ≡ OutOfMemory) }
{
    Ok(DeltaDiscoveryRequest {
        node: None,
        type_url: String::from_str(alloc, kind.url())?,
        resource_names_subscribe: Vec::new(alloc),
        resource_names_unsubscribe: Vec::new(alloc),
        initial_resource_versions: Versions::new(alloc),
        response_nonce: String::from_str(alloc, nonce)?,
        error_detail: rejection(fault),
    })
}

// The versions that are held.
fn cached_versions(alloc: Global, cache: &Cache) -> Result<Versions, Refusal>
    ensures ok { IfOk result (λ v. v ≡ versions_cached cache.now) }
    ensures err { IfErr result (λ e. e ≡ OutOfMemory) }
{
    let mut versions = Versions::new(alloc);
    for (name, holding) in cache.iter() {
        versions.insert(alloc, name.as_str(), holding.version())?;
    }
    Ok(versions)
}

impl Asks for DeltaDiscoveryRequest {
    ghost use Rattle.xds_message.specs.Responses.{delta_response_of};
    ghost use Rattle.xds_cache.specs.Sends.{delta_opening};
    ghost use Rattle.xds_cache.specs.Receives.{delta_delivered};

    type Response = DeltaDiscoveryResponse;

    ghost opening = { delta_opening };

    ghost url = { λ r. (delta_response_of r).type_url };

    ghost delivered = { λ test r. delta_delivered test (delta_response_of r) };

    fn open(
        alloc: Global,
        kind: TypeName,
        node: Option<Node>,
        shelf: &Shelf,
    ) -> Result<DeltaDiscoveryRequest, Refusal> {
        let versions = cached_versions(alloc, &shelf.cache)?;
        request_for(
            alloc,
            kind,
            node,
            &shelf.wants,
            &NameMap::new(alloc),
            versions,
        )
    }

    fn type_url(response: &DeltaDiscoveryResponse) -> &str {
        response.type_url.as_str()
    }

    fn deliver<A: Accept>(
        alloc: Global,
        kind: TypeName,
        shelf: &mut Shelf,
        response: &DeltaDiscoveryResponse,
    ) -> Result<DeltaDiscoveryRequest, Refusal> {
        let Judged {
            fault,
            removed,
            stated,
        } = judged::<A>(alloc, kind, response)?;
        let rejects = fault.is_some();
        let nonce = response.nonce.as_str();
        let request = answer_to(alloc, kind, nonce, fault)?;
        shelf.settle(alloc, kind, rejects, false, &removed, stated, nonce, "")?;
        Ok(request)
    }
}

impl<A: Accept, L: LinkState> StreamingClient<A, L, DeltaDiscoveryRequest> {
    // The request that a change sends, if it sends one.
    fn request_after(
        &self,
        alloc: Global,
        sent: bool,
        kind: TypeName,
        subscribed: &Wants,
        unsubscribed: &Wants,
    ) -> Result<Option<DeltaDiscoveryRequest>, Refusal>
        ensures ok { IfOk result (λ q. q ≡ (if sent then Some (delta_request kind (node_of self.now.greeted self.now) subscribed.now unsubscribed.now finmap.empty) else None)) }
        ensures err { IfErr result (λ e. e ≡ OutOfMemory) }
    {
        if !sent {
            return Ok(None);
        }
        let node = self.client.node(alloc, self.client.has_greeted())?;
        let versions = Versions::new(alloc);
        let request = request_for(alloc, kind, node, subscribed, unsubscribed, versions)?;
        Ok(Some(request))
    }

    // Subscribes and unsubscribes these sets of texts.
    fn change_by(
        &mut self,
        alloc: Global,
        kind: TypeName,
        subscribed: &Wants,
        unsubscribed: &Wants,
    ) -> Result<Option<DeltaDiscoveryRequest>, Refusal>
        ensures ok { IfOk result (λ q. delta_changed L.IS_UP kind subscribed.now unsubscribed.now self.old ≡ (self.new, q)) }
        ensures err { IfErr result (λ e. self.new ≡ self.old) }
        ensures refused { IfErr result (λ e. e ≡ OutOfMemory) }
    {
        let before = self.client.shelf(kind);
        let wants = wants_after(alloc, &before.wants, subscribed, unsubscribed)?;
        let sent = self.client.is_sent(L::IS_UP, kind, &wants);
        let next = self.client.wanting(alloc, sent, kind, wants)?;
        let request = self.request_after(alloc, sent, kind, subscribed, unsubscribed)?;
        self.client.change(sent, kind, next);
        Ok(request)
    }

    /// Subscribes and unsubscribes texts of a type, and drops what is wanted no longer. A text in both lists is
    /// subscribed, and `*` in a complete type is the star. On a stream it answers the request to send, unless the type
    /// wasn't asked for there and nothing is wanted. Refused are: `NoStream` where the client found no memory for a
    /// response on its stream, and `OutOfMemory`; then nothing changed.
    pub fn change(
        &mut self,
        alloc: Global,
        kind: TypeName,
        subscribe: &[String],
        unsubscribe: &[String],
    ) -> Result<Option<DeltaDiscoveryRequest>, Refusal>
        ensures ok { IfOk result (λ q. delta_change L.IS_UP kind (set_of (map string_bytes subscribe.now)) (set_of (map string_bytes unsubscribe.now)) self.old ≡ Ok (self.new, q)) }
        ensures err { IfErr result (λ e. self.new ≡ self.old) }
        ensures refused { IfErr result (λ e. e ≢ OutOfMemory → delta_change L.IS_UP kind (set_of (map string_bytes subscribe.now)) (set_of (map string_bytes unsubscribe.now)) self.old ≡ Err e) }
        ensures memory { result ≡ Err OutOfMemory → self.old.broken ≡ false }
    {
        if self.client.is_broken() {
            return Err(Refusal::NoStream);
        }
        let subscribed = wants_of(alloc, subscribe)?;
        let unsubscribed = wants_of(alloc, unsubscribe)?;
        self.change_by(alloc, kind, &subscribed, &unsubscribed)
    }
}
