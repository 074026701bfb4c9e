// A client on its stream, if it has one.
ghost use Rattle.std.specs.Prelude.{◌≡◌, Some, None, is_some, string_bytes, option_map, IfOk, IfErr, OnOk};
ghost use Rattle.std.specs.Option.{option_map_or};
ghost use Rattle.xds_resource.specs.declared.refusal.Refusal.TheVariants.{OutOfMemory};
ghost use Rattle.xds_core.specs.Seen.{message_of};
ghost use Rattle.xds_cache.specs.Clients.{view as view_of, fresh};
ghost use Rattle.xds_script.specs.ModelSeen.{wish_of};
ghost use Rattle.xds_world.specs.Worlds.{with_request, is_to_connect, poll_of};
ghost use Rattle.xds_world.specs.Calls.{Happened};
ghost use Rattle.xds_world.specs.Peers.{peer_changed, peer_up, peer_polled, peer_down, peer_lost, peer_connected, peer_answered};
ghost use Rattle.xds_world.specs.Statuses.{status_of};

use crate::client::AnyClient;
use crate::link::Link;
use std::alloc::Global;
use std::marker::Model;
use xds_cache::{Accept, Cache};
use xds_core::Request;
use xds_message::{DiscoveryRequest, Draft, SotwDraft};
use xds_resource::{Refusal, TypeName};
use xds_script::{ClientKind, Wish};

/// Whether a client has a stream, or polls.
#[derive(Clone, Copy, Debug, PartialEq, Eq)]
pub enum PeerStatus {
    /// It has a stream to a replica.
    Up,
    /// It has none.
    Down,
    /// It polls, and never has one.
    Rest,
}

/// A client, and its stream if it has one. `A` is the client's test of what it is sent.
#[derive(Drop)]
pub struct Peer<A: Accept> {
    client: AnyClient<A>,
    link: Option<Link>,
}

impl<A: Accept> Model for Peer<A> {
    ghost use Rattle.std.specs.Prelude.{◌≡◌, is_some};
    ghost use Rattle.xds_world.specs.Worlds as worlds;
    ghost use Rattle.xds_world.specs.PeerCodes.{peer_code};

    ghost Value = { worlds.Peer };

    ghost coded = { peer_code };

    ghost view = { λ p. record { kind = p.client.kind; client = p.client.client; link = p.link } };

    ghost invariant = { λ p. p.client.up ≡ is_some p.link };
}

// A request more is under way, if there is a request and a stream.
fn send(link: &mut Option<Link>, request: Option<Request>) -> Result<(), Refusal>
    ensures ok { OnOk result (link.new ≡ option_map (with_request (option_map message_of request)) link.old) }
    ensures some { is_some link.new ≡ is_some link.old }
    ensures refused { IfErr result (λ e. e ≡ OutOfMemory) }
{
    if let (Some(link), Some(request)) = (link, request) {
        link.send(request)?;
    }
    Ok(())
}

impl<A: Accept> Peer<A> {
    /// A client that wants nothing and has no stream. `node_id` and `cluster` are what it says of itself; the latter is empty where it
    /// is of no cluster.
    pub fn new(alloc: Global, kind: ClientKind, node_id: String, cluster: String) -> Peer<A>
        ensures { result ≡ record { kind = kind; client = fresh (string_bytes node_id) (string_bytes cluster); link = None } }
    {
        Peer {
            client: AnyClient::new(alloc, kind, node_id, cluster),
            link: None,
        }
    }

    /// How the client asks.
    pub fn kind(&self) -> ClientKind
        ensures { result ≡ self.now.kind }
    {
        self.client.kind()
    }

    /// What the client holds of a type.
    pub fn view(&self, kind: TypeName) -> &Cache
        ensures { result.now ≡ view_of self.now.client kind }
    {
        self.client.view(kind)
    }

    /// Whether the client has a stream, or polls.
    pub fn status(&self) -> PeerStatus
        ensures { result ≡ status_of self.now }
    {
        match (self.client.kind(), &self.link) {
            (ClientKind::Rest, _) => PeerStatus::Rest,
            (_, Some(_)) => PeerStatus::Up,
            (_, None) => PeerStatus::Down,
        }
    }

    /// The stream, if the client has one.
    pub fn link(&self) -> Option<&Link>
        ensures { option_map (λ l. l.now) result ≡ self.now.link }
    {
        self.link.as_ref()
    }

    /// Whether the client may open a stream: it has none, and doesn't poll.
    pub fn may_connect(&self) -> bool
        ensures { result ≡ is_to_connect self.now }
    {
        match self.client.kind() {
            ClientKind::Rest => false,
            _ => self.link.is_none(),
        }
    }

    /// On a new stream to a replica, where the client may open one, and whether it is there now. `replica` is the number of the replica, and
    /// `stream` that of the stream there. Refused only by `OutOfMemory`.
    pub fn connect(
        self,
        alloc: Global,
        replica: u16,
        stream: u64,
    ) -> Result<(Peer<A>, bool), Refusal>
        ensures ok { IfOk result (λ q. Happened self q.1 q.0 (peer_connected replica stream self)) }
        ensures refused { IfErr result (λ e. e ≡ OutOfMemory) }
    {
        if !self.may_connect() {
            return Ok((self, false));
        }
        let (client, requests) = self.client.connect(alloc)?;
        let link = Some(Link::new(alloc, replica, stream, requests));
        Ok((Peer { client, link }, true))
    }

    /// The client is told to want something else of a type. Answers whether it took that: it takes no wish of the other variant, and none
    /// that it refuses, and is as it was then. Refused only by `OutOfMemory`, and then the client is of no use any more.
    pub fn change(&mut self, alloc: Global, kind: TypeName, wish: &Wish) -> Result<bool, Refusal>
        ensures ok { IfOk result (λ b. Happened self.old b self.new (peer_changed kind (wish_of wish.now) self.old)) }
        ensures refused { IfErr result (λ e. e ≡ OutOfMemory) }
    {
        let Some(request) = self.client.change(alloc, kind, wish)? else {
            return Ok(false);
        };
        send(&mut self.link, request)?;
        Ok(true)
    }

    /// The oldest request is under way no longer. Answers whether there was one.
    pub fn drop_request(&mut self) -> bool
        ensures { Happened self.old result self.new (peer_up self.old) }
    {
        match &mut self.link {
            Some(link) => link.drop_request(),
            None => false,
        }
    }

    /// A response is under way, if there is one. Answers whether the client has a stream; without one it is as it was. Refused only by
    /// `OutOfMemory`, and then the client is of no use any more.
    pub fn respond(&mut self, response: Option<Draft>) -> Result<bool, Refusal>
        ensures ok { IfOk result (λ b. Happened self.old b self.new (peer_polled response self.old)) }
        ensures refused { IfErr result (λ e. e ≡ OutOfMemory) }
    {
        match &mut self.link {
            Some(link) => {
                link.respond(response)?;
                Ok(true)
            }
            None => Ok(false),
        }
    }

    /// The client takes the oldest response, and its answer is under way. Answers whether it took one: where none is under way, or it is
    /// of the other variant or refused, the client is as it was. Refused only by `OutOfMemory`, and then the client is of no use any more.
    pub fn receive(&mut self, alloc: Global) -> Result<bool, Refusal>
        ensures ok { IfOk result (λ b. Happened self.old b self.new (peer_down A.accepts self.old)) }
        ensures refused { IfErr result (λ e. e ≡ OutOfMemory) }
    {
        let Some(link) = &mut self.link else {
            return Ok(false);
        };
        let Some(draft) = link.oldest_response() else {
            return Ok(false);
        };
        let Some(answer) = self.client.receive(alloc, draft)? else {
            return Ok(false);
        };
        link.drop_response();
        link.send(answer)?;
        Ok(true)
    }

    /// What the client asks for in a poll of a type; none where it wants nothing of the type, or doesn't poll. Refused only by
    /// `OutOfMemory`.
    pub fn request(
        &self,
        alloc: Global,
        kind: TypeName,
    ) -> Result<Option<DiscoveryRequest>, Refusal>
        ensures ok { IfOk result (λ q. q ≡ poll_of self.now kind) }
        ensures refused { IfErr result (λ e. e ≡ OutOfMemory) }
    {
        self.client.request(alloc, kind)
    }

    /// The answer to a poll of a type came: its body, or none where nothing changed. The client takes it whole or rejects it whole.
    /// Answers whether the client polls and asked for the type; else it is as it was. Refused only by `OutOfMemory`.
    pub fn answer(
        &mut self,
        alloc: Global,
        kind: TypeName,
        answer: Option<&SotwDraft>,
    ) -> Result<bool, Refusal>
        ensures ok { IfOk result (λ b. Happened self.old b self.new (peer_answered A.accepts kind (option_map (λ d. d.now) answer.entry) self.old)) }
        ensures refused { IfErr result (λ e. e ≡ OutOfMemory) }
    {
        self.client.answer(alloc, kind, answer)
    }

    /// Once the stream is lost with all that is under way on it, if there is one.
    pub fn lose(self) -> Peer<A>
        ensures { result ≡ option_map_or (λ p. p) (peer_lost self) self }
    {
        if self.link.is_none() {
            return self;
        }
        Peer {
            client: self.client.lose(),
            link: None,
        }
    }
}
