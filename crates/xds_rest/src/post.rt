// What a request of the REST variant asks for.
ghost use Rattle.std.specs.Prelude.{◌≡◌, ◌≢◌, Ok, Err, IfOk, IfErr, string_bytes};
ghost use Rattle.xds_resource.specs.declared.types.TypeName.{TypeName as Kind};
ghost use Rattle.xds_resource.specs.declared.refusal.Refusal.TheVariants.{OutOfMemory};
ghost use Rattle.xds_message.specs.Messages.{Request as RequestValue};
ghost use Rattle.xds_core.specs.Streams.{cluster_in};
ghost use Rattle.xds_core.specs.Seen.{event_of};
ghost use Rattle.xds_rest.specs.Posts.{addressed as addressed_by, is_own as own, IsPoll, RefusesBody, IsReadAs, IsAsked, poll_of};
ghost use Rattle.xds_rest.specs.Seen.{asked_of};

use crate::reply::{HttpReply, refused};
use std::alloc::Global;
use xds_core::Event;
use xds_message::{DiscoveryRequest, Node};
pub use xds_polls::MAX_BODY;
use xds_polls::addressed;
use xds_resource::{Refusal, TypeName};

/// What a request comes to.
#[derive(Drop)]
pub enum Asked {
    /// It is finished with this reply, whatever is held.
    Finished(HttpReply),
    /// It asks a replica, by a `Rest`.
    Asks(Event),
}

// Whether a message names this type, or none.
fn is_own(kind: TypeName, type_url: &str) -> bool
    ensures { result ≡ own kind type_url.now }
{
    type_url == "" || type_url == kind.url()
}

// rule: groups
// The cluster of who asks, empty where none is said.
fn cluster_of(alloc: Global, node: Option<Node>) -> String
    ensures { string_bytes result ≡ cluster_in node }
{
    match node {
        Some(node) => node.cluster,
        None => String::new(alloc),
    }
}

// What the request that a body spells asks a replica.
fn poll_in(alloc: Global, kind: TypeName, body: &[u8]) -> Result<Event, Refusal>
    ensures ok { IfOk result (λ e. (q : RequestValue) × IsPoll kind body.now q × (event_of e ≡ poll_of kind q)) }
    ensures refused { IfErr result (λ e. e ≢ OutOfMemory → RefusesBody kind body.now e) }
{
    let request = DiscoveryRequest::read(alloc, body)?;
    if !is_own(kind, request.type_url.as_str()) {
        return Err(Refusal::BadMessage);
    }
    let (version_info, resource_names, node) = request.into_poll();
    let cluster = cluster_of(alloc, node);
    Ok(Event::Rest(kind, resource_names, version_info, cluster))
}

// What a body asks a replica, or the reply that finishes it.
fn read_body(alloc: Global, kind: TypeName, body: &[u8]) -> Result<Asked, Refusal>
    ensures ok { IfOk result (λ a. IsReadAs kind body.now (asked_of a)) }
    ensures refused { IfErr result (λ e. e ≡ OutOfMemory) }
{
    match poll_in(alloc, kind, body) {
        Ok(event) => Ok(Asked::Asks(event)),
        Err(Refusal::OutOfMemory) => Err(Refusal::OutOfMemory),
        Err(refusal) => Ok(Asked::Finished(refused(alloc, refusal)?)),
    }
}

/// What a request of this method, path and body comes to. It is finished by 404 where the path is none of a type, 405 where the
/// method isn't `POST`, 413 where the body has over [`MAX_BODY`] bytes, and 400 where the body spells no `DiscoveryRequest`, or
/// one of another type than the path's; the first of these counts. Refused is only `OutOfMemory`,
/// where a body is read.
pub fn ask(alloc: Global, method: &str, path: &str, body: &[u8]) -> Result<Asked, Refusal>
    ensures ok { IfOk result (λ a. IsAsked method.now path.now body.now (asked_of a)) }
    ensures refused { IfErr result (λ e. e ≡ OutOfMemory) }
    ensures memory { result ≡ Err OutOfMemory → (t : Kind) × (addressed_by method.now path.now body.now ≡ Ok t) }
{
    match addressed(method, path, body) {
        Ok(kind) => read_body(alloc, kind, body),
        Err(status) => Ok(Asked::Finished(HttpReply::without_body(status))),
    }
}
