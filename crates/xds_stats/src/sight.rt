// What an event at a replica shows of a stream, kept for those who look while the event goes on to the replica.
use crate::log_event::excerpt;
use std::alloc::Global;
use xds_events::{Event, Request};
use xds_json::Node;
use xds_ledger::VariantName;
use xds_message::{DeltaDiscoveryRequest, DiscoveryRequest};
use xds_resource::{Refusal, TypeName};

/// How a request changes how many names a stream asks for.
#[derive(Clone, Copy, Debug, PartialEq, Eq)]
pub enum NamesChange {
    /// It lists so many.
    Listed(u64),
    /// It asks for so many more, and no longer for so many.
    Edited(u64, u64),
}

impl NamesChange {
    ghost use Rattle.std.specs.Prelude.{◌≡◌};
    ghost use Rattle.xds_stats.specs.Boards.{names_after};

    /// How many names it asks for then, where it asked for so many before.
    pub fn after(self, before: u64) -> u64
        ensures { result ≡ names_after self before }
    {
        match self {
            NamesChange::Listed(count) => count,
            NamesChange::Edited(more, fewer) => before.saturating_add(more).saturating_sub(fewer),
        }
    }
}

/// What a request shows. The texts that only its client chose are excerpts.
#[derive(Drop)]
pub struct Heard {
    pub variant: VariantName,
    /// The type, if it is one of the table, and its URL.
    pub kind: Option<TypeName>,
    pub type_url: String,
    /// The id and the cluster of its node, where it names one.
    pub node: Option<(String, String)>,
    pub names: NamesChange,
    /// The nonce that it answers; empty where it answers none.
    pub nonce: String,
    /// What it says of the response that it rejects, if it rejects one.
    pub rejection: Option<String>,
}

/// What an event shows.
#[derive(Drop)]
pub enum Sight {
    /// A request on a stream.
    Request(u64, Heard),
    /// A poll of a stream.
    Poll(u64),
    /// A change of a type that is made here.
    Change(TypeName),
    /// A part that another replica tells.
    Part,
    /// Anything else, or there was no memory to keep what it shows.
    Other,
}

/// What an event shows.
pub fn sight_of(alloc: Global, event: &Event) -> Sight {
    match event {
        Event::Request(stream, request) => match heard_in(alloc, request) {
            Ok(heard) => Sight::Request(*stream, heard),
            Err(_) => Sight::Other,
        },
        Event::Poll(stream, _) => Sight::Poll(*stream),
        Event::Put(resource, _) => Sight::Change(resource.type_name()),
        Event::Delete(kind, _) => Sight::Change(*kind),
        Event::Merge(_) => Sight::Part,
        _ => Sight::Other,
    }
}

fn heard_in(alloc: Global, request: &Request) -> Result<Heard, Refusal> {
    match request {
        Request::Sotw(request) => heard_sotw(alloc, request),
        Request::Delta(request) => heard_delta(alloc, request),
    }
}

fn heard_sotw(alloc: Global, request: &DiscoveryRequest) -> Result<Heard, Refusal> {
    let rejection = match &request.error_detail {
        Some(status) => Some(excerpt(alloc, status.message.as_str())?),
        None => None,
    };
    Ok(Heard {
        variant: VariantName::StateOfTheWorld,
        kind: TypeName::from_url(request.type_url.as_str()),
        type_url: excerpt(alloc, request.type_url.as_str())?,
        node: node_texts(alloc, &request.node)?,
        names: NamesChange::Listed(request.resource_names.len() as u64),
        nonce: excerpt(alloc, request.response_nonce.as_str())?,
        rejection,
    })
}

fn heard_delta(alloc: Global, request: &DeltaDiscoveryRequest) -> Result<Heard, Refusal> {
    let rejection = match &request.error_detail {
        Some(status) => Some(excerpt(alloc, status.message.as_str())?),
        None => None,
    };
    let more = request.resource_names_subscribe.len() as u64;
    let fewer = request.resource_names_unsubscribe.len() as u64;
    Ok(Heard {
        variant: VariantName::Delta,
        kind: TypeName::from_url(request.type_url.as_str()),
        type_url: excerpt(alloc, request.type_url.as_str())?,
        node: node_texts(alloc, &request.node)?,
        names: NamesChange::Edited(more, fewer),
        nonce: excerpt(alloc, request.response_nonce.as_str())?,
        rejection,
    })
}

// The id and the cluster of a node.
fn node_texts(alloc: Global, node: &Option<Node>) -> Result<Option<(String, String)>, Refusal> {
    match node {
        Some(node) => {
            let id = excerpt(alloc, node.id.as_str())?;
            let cluster = excerpt(alloc, node.cluster.as_str())?;
            Ok(Some((id, cluster)))
        }
        None => Ok(None),
    }
}
