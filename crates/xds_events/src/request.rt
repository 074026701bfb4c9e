// A request as a stream takes it.
ghost use Rattle.std.specs.Prelude.{◌≡◌, IfOk, IfErr};
ghost use Rattle.xds_resource.specs.declared.refusal.Refusal.TheVariants.{OutOfMemory};
ghost use Rattle.xds_events.specs.StreamsSeen.{message_of};
ghost use Rattle.xds_events.specs.Streams.{url_of, cluster_in};

use std::alloc::Global;
use xds_message::{DeltaDiscoveryRequest, DiscoveryRequest, Node};
use xds_resource::Refusal;

/// A request of either variant.
pub enum Request {
    Sotw(DiscoveryRequest),
    Delta(DeltaDiscoveryRequest),
}

// Written out: docs/PROVING.md, "Drops".
impl Drop for Request {
    fn drop(self) {
        match self {
            Request::Sotw(_) => {}
            Request::Delta(_) => {}
        }
    }
}

// rule: groups
/// The cluster text of a node, empty where there is none.
pub fn cluster_in(node: &Option<Node>) -> &str
    ensures { result.now ≡ cluster_in node.now }
{
    match node {
        Some(node) => node.cluster.as_str(),
        None => "",
    }
}

impl Request {
    pub fn type_url(&self) -> &str
        ensures { result.now ≡ url_of (message_of self.now) }
    {
        match self {
            Request::Sotw(request) => request.type_url.as_str(),
            Request::Delta(request) => request.type_url.as_str(),
        }
    }

    /// An equal request, or `OutOfMemory`.
    pub fn try_copy(&self, alloc: Global) -> Result<Request, Refusal>
        ensures ok { IfOk result (λ r. message_of r ≡ message_of self.now) }
        ensures refused { IfErr result (λ e. e ≡ OutOfMemory) }
    {
        match self {
            Request::Sotw(request) => Ok(Request::Sotw(request.try_copy(alloc)?)),
            Request::Delta(request) => Ok(Request::Delta(request.try_copy(alloc)?)),
        }
    }
}
