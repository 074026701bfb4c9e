// A request as a trace has it.
ghost use Rattle.std.specs.Prelude.{◌≡◌, string_bytes, IfOk, IfErr};
ghost use Rattle.xds_resource.specs.declared.refusal.Refusal.TheVariants.{OutOfMemory};
ghost use Rattle.xds_check.specs.Answers.{variant_of, url_of, nonce_of, rejects, cluster_in, cluster_of};
ghost use Rattle.xds_check.specs.Texts.{request_kind, asking_json, SpellsAsking};

use std::alloc::Global;
use xds_ledger::VariantName;
use xds_message::{DeltaDiscoveryRequest, DiscoveryRequest, Node};
use xds_resource::Refusal;

/// A request of either variant.
pub enum Asking {
    Sotw(DiscoveryRequest),
    Delta(DeltaDiscoveryRequest),
}

// Written out: docs/PROVING.md, "Drops".
impl Drop for Asking {
    fn drop(self) {
        match self {
            Asking::Sotw(_) => {}
            Asking::Delta(_) => {}
        }
    }
}

// rule: groups
// The cluster text of a node, if there is one.
fn cluster_in(node: &Option<Node>) -> &str
    ensures { result.now ≡ cluster_in node.now }
{
    match node {
        Some(node) => node.cluster.as_str(),
        None => "",
    }
}

impl Asking {
    pub fn variant(&self) -> VariantName
        ensures { result ≡ variant_of self.now }
    {
        match self {
            Asking::Sotw(_) => VariantName::StateOfTheWorld,
            Asking::Delta(_) => VariantName::Delta,
        }
    }

    pub fn type_url(&self) -> &str
        ensures { result.now ≡ url_of self.now }
    {
        match self {
            Asking::Sotw(request) => request.type_url.as_str(),
            Asking::Delta(request) => request.type_url.as_str(),
        }
    }

    // rule: stale-nonce, rule: accept-reject
    /// The nonce of the response that the request answers, empty where there is none.
    pub fn nonce(&self) -> &str
        ensures { result.now ≡ nonce_of self.now }
    {
        match self {
            Asking::Sotw(request) => request.response_nonce.as_str(),
            Asking::Delta(request) => request.response_nonce.as_str(),
        }
    }

    // rule: accept-reject
    /// Whether it rejects the response that it answers.
    pub fn rejects(&self) -> bool
        ensures { result ≡ rejects self.now }
    {
        match self {
            Asking::Sotw(request) => request.error_detail.is_some(),
            Asking::Delta(request) => request.error_detail.is_some(),
        }
    }

    /// The cluster text of the node in the request, empty where there is none.
    pub fn cluster(&self) -> &str
        ensures { result.now ≡ cluster_of self.now }
    {
        match self {
            Asking::Sotw(request) => cluster_in(&request.node),
            Asking::Delta(request) => cluster_in(&request.node),
        }
    }

    /// The word for the kind of the message.
    pub(crate) fn kind(&self) -> &'static str
        ensures { result.now ≡ request_kind self.now }
    {
        match self {
            Asking::Sotw(_) => "1",
            Asking::Delta(_) => "3",
        }
    }

    /// The JSON of the request.
    pub(crate) fn json(&self, alloc: Global) -> Result<String, Refusal>
        ensures text { IfOk result (λ s. string_bytes s ≡ asking_json self.now) }
        ensures spelled { IfOk result (λ s. SpellsAsking self.now (string_bytes s)) }
        ensures refused { IfErr result (λ e. e ≡ OutOfMemory) }
    {
        match self {
            Asking::Sotw(request) => request.write(alloc),
            Asking::Delta(request) => request.write(alloc),
        }
    }
}
