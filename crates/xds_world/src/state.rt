// What a world is at a time.
ghost use Rattle.std.specs.Prelude.{◌≡◌, ◌≤◌, ◌∷◌, [], false, Some, None, is_none, is_some, option_map, string_bytes, decimal, IfOk, IfErr, OnOk, OnErr};
ghost use Rattle.std.specs.Option.{option_and_then, option_map_or};
ghost use Rattle.std.specs.FinMap as finmap;
ghost use Rattle.xds_resource.specs.Any.{resource_type, named_body};
ghost use Rattle.xds_resource.specs.declared.refusal.Refusal.TheVariants.{OutOfMemory};
ghost use Rattle.xds_core.specs.Events as events;
ghost use Rattle.xds_core.specs.Seen.{message_of, event_of, reply_of};
ghost use Rattle.xds_core.specs.Streams.{cluster_in};
ghost use Rattle.xds_world.specs.Claims.{is_settled_on, is_settled};
ghost use Rattle.xds_script.specs.Happenings as happenings;
ghost use Rattle.xds_script.specs.ModelSeen.{happening_of, wish_of};
ghost use Rattle.xds_world.specs.Settling.{link_in, next_to_settle, taken_now, gave_nothing};
ghost use Rattle.xds_world.specs.Worlds.{empty_world, at_site, happened_at, happens, placed, is_to_connect, poll_of, poll_event};
ghost use Rattle.xds_world.specs.Calls.{Gave, Happened};
ghost use Rattle.xds_world.specs.Journal.{oldest};
ghost use Rattle.xds_world.specs.Peers.{peer_up, peer_polled, peer_lost, peer_connected, peer_answered};
ghost use Rattle.xds_world.specs.Steps.{event_for};
ghost use Rattle.xds_world.specs.Parts.{blank, leads, draft_in, stream_in, batch_in, rested_in, peer_event};

use crate::link::{Link, Step};
use crate::parts::is_there;
use crate::peer::Peer;
use crate::site::Site;
use std::alloc::Global;
use std::marker::Model;
use xds_cache::Accept;
use xds_catalogue::ByNumber;
use xds_core::{Event, Reply, Request};
use xds_message::{Batch, DiscoveryRequest, Draft, Node, SotwDraft};
use xds_resource::{AnyResource, Groups, Refusal, TypeName};
use xds_script::{AnswerFate, ClientKind, Wish, WorldEvent};

/// Replicas, clients, and the batches that were taken.
pub(crate) struct State<A: Accept> {
    sites: ByNumber<Site>,
    peers: ByNumber<Peer<A>>,
    pool: Vec<(u16, Batch)>,
}

// Written out: docs/PROVING.md, "Drops".
impl<A: Accept> Drop for State<A> {
    fn drop(self) {
        let State {
            sites: _,
            peers: _,
            pool: _,
        } = self;
    }
}

impl<A: Accept> Model for State<A> {
    ghost use Rattle.xds_world.specs.Worlds as worlds;
    ghost use Rattle.xds_world.specs.Codes.{world_code};

    ghost Value = { worlds.World };

    ghost coded = { world_code };

    ghost view = { λ s. record { sites = s.sites; peers = s.peers; pool = s.pool.items } };
}

// What a client says of itself.
fn node_id(alloc: Global, client: u32) -> Result<String, Refusal>
    ensures text { IfOk result (λ s. string_bytes s ≡ decimal client) }
    ensures refused { IfErr result (λ e. e ≡ OutOfMemory) }
{
    Ok(format!(in alloc; "{client}")?)
}

impl<A: Accept> State<A> {
    /// A world with nothing in it.
    pub(crate) fn new(alloc: Global) -> State<A>
        ensures { result ≡ empty_world }
    {
        State {
            sites: ByNumber::new(alloc),
            peers: ByNumber::new(alloc),
            pool: Vec::new(alloc),
        }
    }

    /// A client, by its number.
    pub(crate) fn peer(&self, client: u32) -> Option<&Peer<A>>
        ensures { option_map (λ p. p.now) result ≡ finmap.get self.now.peers client }
    {
        self.peers.get(client as u64)
    }

    /// A replica, by its number.
    pub(crate) fn site(&self, replica: u16) -> Option<&Site>
        ensures { option_map (λ s. s.now) result ≡ finmap.get self.now.sites replica }
    {
        self.sites.get(replica as u64)
    }

    /// Whether nothing of a type is under way on a stream, and its replica owes nothing of the type there.
    pub(crate) fn is_settled_on(&self, link: &Link, kind: TypeName) -> bool
        ensures { result ≡ is_settled_on self.now kind link.now }
    {
        link.is_quiet(kind)
            && match self.site(link.replica()) {
                Some(site) => site.owes_nothing(link.stream(), kind),
                None => false,
            }
    }

    // The stream of a client that has one.
    fn link(&self, client: u32) -> Option<&Link>
        ensures { option_map (λ l. l.now) result ≡ link_in self.now client }
    {
        let peer = self.peer(client)?;
        peer.link()
    }

    /// Whether a client is settled of a type.
    pub(crate) fn is_settled(&self, client: u32, kind: TypeName) -> bool
        ensures { result ≡ is_settled self.now client kind }
    {
        match self.link(client) {
            Some(link) => self.is_settled_on(link, kind),
            None => false,
        }
    }

    /// What is done next to settle a client of a type; none once it is settled, or where it has no stream.
    pub(crate) fn next_to_settle(&self, client: u32, kind: TypeName) -> Option<Step>
        ensures { option_map (event_for client kind) result ≡ next_to_settle self.now client kind }
    {
        let link = self.link(client)?;
        if self.is_settled_on(link, kind) {
            return None;
        }
        Some(link.next_step(kind))
    }

    /// How many responses of a type a client takes in a step of settling it.
    pub(crate) fn taken_in(&self, client: u32, kind: TypeName, step: Step) -> u64
        ensures counts { result ≡ taken_now client kind self.now (event_for client kind step) }
        ensures small { result ≤ 1 }
    {
        match (step, self.link(client)) {
            (Step::Down, Some(link)) => u64::from(link.brings_first(kind)),
            _ => 0,
        }
    }

    /// Whether a step of settling a client of a type, after which the world is this one, was a poll that gave no response.
    pub(crate) fn gave_nothing(&self, client: u32, kind: TypeName, step: Step) -> bool
        ensures { result ≡ gave_nothing kind (event_for client kind step) (link_in self.now client) }
    {
        match (step, self.link(client)) {
            (Step::Poll, Some(link)) => !link.brings(kind),
            _ => false,
        }
    }

    // What a replica answers to an event; nothing where there is no such replica or the event is refused.
    fn at_site(
        &mut self,
        alloc: Global,
        replica: u16,
        event: Event,
    ) -> Result<Option<Reply>, Refusal>
        ensures ok { IfOk result (λ o. Gave reply_of self.old o self.new (at_site self.old replica (event_of event))) }
        ensures refused { IfErr result (λ e. e ≡ OutOfMemory) }
    {
        let number = replica as u64;
        let Some(mut site) = self.sites.replace(number, Site::new(alloc, 1)) else {
            return Ok(None);
        };
        let reply = site.take(alloc, event);
        self.sites.set(number, site);
        reply
    }

    // rule: refused-event
    // Lets an event happen at a replica. Answers whether it happened.
    fn happened_at(&mut self, alloc: Global, replica: u16, event: Event) -> Result<bool, Refusal>
        ensures ok { IfOk result (λ b. Happened self.old b self.new (happened_at self.old replica (event_of event))) }
        ensures refused { IfErr result (λ e. e ≡ OutOfMemory) }
    {
        let reply = self.at_site(alloc, replica, event)?;
        Ok(is_there(reply))
    }

    // Opens a stream at a replica. Answers its number.
    fn open_at(&mut self, alloc: Global, replica: u16) -> Result<Option<u64>, Refusal>
        ensures ok { IfOk result (λ o. Gave events.Opened self.old o self.new (at_site self.old replica events.Open)) }
        ensures refused { IfErr result (λ e. e ≡ OutOfMemory) }
    {
        let reply = self.at_site(alloc, replica, Event::Open)?;
        Ok(stream_in(reply))
    }

    // Polls a stream of a replica. Answers the response, if there is one.
    fn poll_at(
        &mut self,
        alloc: Global,
        replica: u16,
        stream: u64,
        which: Option<TypeName>,
    ) -> Result<Option<Option<Draft>>, Refusal>
        ensures ok { IfOk result (λ o. Gave events.Polled self.old o self.new (at_site self.old replica (events.Poll stream which))) }
        ensures refused { IfErr result (λ e. e ≡ OutOfMemory) }
    {
        let reply = self.at_site(alloc, replica, Event::Poll(stream, which))?;
        Ok(draft_in(reply))
    }

    // All that a replica holds.
    fn snapshot_at(&mut self, alloc: Global, replica: u16) -> Result<Option<Batch>, Refusal>
        ensures ok { IfOk result (λ o. Gave events.Entries self.old o self.new (at_site self.old replica events.Snapshot)) }
        ensures refused { IfErr result (λ e. e ≡ OutOfMemory) }
    {
        let reply = self.at_site(alloc, replica, Event::Snapshot)?;
        Ok(batch_in(reply))
    }

    // The replica that a client's stream leads to, and the number of the stream there.
    fn link_of(&self, client: u32) -> Option<(u16, u64)>
        ensures { result ≡ option_map leads (link_in self.now client) }
    {
        let peer = self.peers.get(client as u64)?;
        let link = peer.link()?;
        Some((link.replica(), link.stream()))
    }

    // A copy of the oldest request of a client that is under way.
    fn oldest_request(&self, alloc: Global, client: u32) -> Result<Option<Request>, Refusal>
        ensures ok { IfOk result (λ o. option_map message_of o ≡ option_and_then (λ l. oldest l.up) (link_in self.now client)) }
        ensures refused { IfErr result (λ e. e ≡ OutOfMemory) }
    {
        let Some(peer) = self.peers.get(client as u64) else {
            return Ok(None);
        };
        let Some(link) = peer.link() else {
            return Ok(None);
        };
        link.oldest_request(alloc)
    }

    // Whether there is a client that may open a stream.
    fn may_connect(&self, client: u32) -> bool
        ensures { result ≡ option_map_or is_to_connect (finmap.get self.now.peers client) false }
    {
        match self.peers.get(client as u64) {
            Some(peer) => peer.may_connect(),
            None => false,
        }
    }

    /// Whether there is a client that has a stream.
    pub(crate) fn is_linked(&self, client: u32) -> bool
        ensures { result ≡ is_some (link_in self.now client) }
    {
        self.link(client).is_some()
    }

    // What a client that polls asks for in a poll of a type.
    fn request(
        &self,
        alloc: Global,
        client: u32,
        kind: TypeName,
    ) -> Result<Option<DiscoveryRequest>, Refusal>
        ensures ok { IfOk result (λ o. o ≡ option_and_then (λ p. poll_of p kind) (finmap.get self.now.peers client)) }
        ensures refused { IfErr result (λ e. e ≡ OutOfMemory) }
    {
        match self.peers.get(client as u64) {
            Some(peer) => peer.request(alloc, kind),
            None => Ok(None),
        }
    }

    // What a replica answers to such a poll: a body, or that nothing changed.
    fn rest_at(
        &mut self,
        alloc: Global,
        replica: u16,
        kind: TypeName,
        request: DiscoveryRequest,
    ) -> Result<Option<Option<SotwDraft>>, Refusal>
        ensures ok { IfOk result (λ o. Gave events.Rested self.old o self.new (at_site self.old replica (poll_event kind request))) }
        ensures refused { IfErr result (λ e. e ≡ OutOfMemory) }
    {
        let (version, names, node) = request.into_poll();
        let cluster = cluster_of(alloc, node);
        let event = Event::Rest(kind, names, version, cluster);
        let reply = self.at_site(alloc, replica, event)?;
        Ok(rested_in(reply))
    }

    // The answer to a client's poll of a type came.
    fn answer(
        &mut self,
        alloc: Global,
        client: u32,
        kind: TypeName,
        answer: Option<SotwDraft>,
    ) -> Result<bool, Refusal>
        ensures ok { IfOk result (λ b. Happened self.old b self.new (peer_event self.old client (peer_answered A.accepts kind answer))) }
        ensures refused { IfErr result (λ e. e ≡ OutOfMemory) }
    {
        let number = client as u64;
        let Some(mut peer) = self.peers.replace(number, blank_peer(alloc)) else {
            return Ok(false);
        };
        let answered = peer.answer(alloc, kind, answer.as_ref());
        self.peers.set(number, peer);
        answered
    }

    // The oldest request of a client is under way no longer.
    fn drop_request(&mut self, alloc: Global, client: u32) -> bool
        ensures { Happened self.old result self.new (peer_event self.old client peer_up) }
    {
        let number = client as u64;
        let Some(mut peer) = self.peers.replace(number, blank_peer(alloc)) else {
            return false;
        };
        let dropped = peer.drop_request();
        self.peers.set(number, peer);
        dropped
    }

    // A response is under way to a client, if there is one.
    fn respond(
        &mut self,
        alloc: Global,
        client: u32,
        response: Option<Draft>,
    ) -> Result<bool, Refusal>
        ensures ok { IfOk result (λ b. Happened self.old b self.new (peer_event self.old client (peer_polled response))) }
        ensures refused { IfErr result (λ e. e ≡ OutOfMemory) }
    {
        let number = client as u64;
        let Some(mut peer) = self.peers.replace(number, blank_peer(alloc)) else {
            return Ok(false);
        };
        let responded = peer.respond(response);
        self.peers.set(number, peer);
        responded
    }

    // A client takes the oldest response that is under way to it.
    fn receive(&mut self, alloc: Global, client: u32) -> Result<bool, Refusal>
        ensures ok { IfOk result (λ b. Happened self.old b self.new (happens A.accepts self.old (happenings.Down client))) }
        ensures refused { IfErr result (λ e. e ≡ OutOfMemory) }
    {
        let number = client as u64;
        let Some(mut peer) = self.peers.replace(number, blank_peer(alloc)) else {
            return Ok(false);
        };
        let received = peer.receive(alloc);
        self.peers.set(number, peer);
        received
    }

    // A client loses its stream, if it has one.
    fn lose_link(&mut self, alloc: Global, client: u32) -> bool
        ensures { Happened self.old result self.new (peer_event self.old client peer_lost) }
    {
        let number = client as u64;
        let Some(peer) = self.peers.replace(number, blank_peer(alloc)) else {
            return false;
        };
        let up = peer.link().is_some();
        self.peers.set(number, peer.lose());
        up
    }

    // A client is on a new stream to a replica, unless it has one. Answers whether it is there now.
    fn connect_link(
        &mut self,
        alloc: Global,
        client: u32,
        replica: u16,
        stream: u64,
    ) -> Result<bool, Refusal>
        ensures ok { IfOk result (λ b. Happened self.old b self.new (peer_event self.old client (peer_connected replica stream))) }
        ensures refused { IfErr result (λ e. e ≡ OutOfMemory) }
    {
        let number = client as u64;
        let Some(peer) = self.peers.replace(number, blank_peer(alloc)) else {
            return Ok(false);
        };
        let (peer, connected) = peer.connect(alloc, replica, stream)?;
        self.peers.set(number, peer);
        Ok(connected)
    }

    // rule: new-numbers
    fn add_replica(&mut self, alloc: Global, replica: u16) -> Result<bool, Refusal>
        ensures ok { IfOk result (λ b. Happened self.old b self.new (happens A.accepts self.old (happenings.AddReplica replica))) }
        ensures refused { IfErr result (λ e. e ≡ OutOfMemory) }
    {
        let number = replica as u64;
        if replica == 0 || self.sites.get(number).is_some() {
            return Ok(false);
        }
        self.sites.insert(number, Site::new(alloc, replica))?;
        Ok(true)
    }

    fn add_client(
        &mut self,
        alloc: Global,
        client: u32,
        kind: ClientKind,
        cluster: &str,
    ) -> Result<bool, Refusal>
        ensures ok { IfOk result (λ b. Happened self.old b self.new (happens A.accepts self.old (happenings.AddClient client kind cluster.now))) }
        ensures refused { IfErr result (λ e. e ≡ OutOfMemory) }
    {
        let number = client as u64;
        if self.peers.get(number).is_some() {
            return Ok(false);
        }
        let node_id = node_id(alloc, client)?;
        let cluster = String::from_str(alloc, cluster)?;
        let peer = Peer::new(alloc, kind, node_id, cluster);
        self.peers.insert(number, peer)?;
        Ok(true)
    }

    fn snapshot(&mut self, alloc: Global, replica: u16) -> Result<bool, Refusal>
        ensures ok { IfOk result (λ b. Happened self.old b self.new (happens A.accepts self.old (happenings.Snapshot replica))) }
        ensures refused { IfErr result (λ e. e ≡ OutOfMemory) }
    {
        let Some(batch) = self.snapshot_at(alloc, replica)? else {
            return Ok(false);
        };
        self.pool.push((replica, batch))?;
        Ok(true)
    }

    // A copy of a batch of the pool, by its place from 1.
    fn batch(&self, alloc: Global, place: u32) -> Result<Option<Batch>, Refusal>
        ensures ok { IfOk result (λ o. o ≡ option_map (λ x. x.1) (placed self.now.pool place)) }
        ensures refused { IfErr result (λ e. e ≡ OutOfMemory) }
    {
        if place == 0 {
            return Ok(None);
        }
        let index = (place - 1) as usize;
        if index >= self.pool.len() {
            return Ok(None);
        }
        let (_, batch) = &self.pool[index];
        Ok(Some(batch.try_copy(alloc)?))
    }

    fn merge(&mut self, alloc: Global, replica: u16, place: u32) -> Result<bool, Refusal>
        ensures ok { IfOk result (λ b. Happened self.old b self.new (happens A.accepts self.old (happenings.Merge replica place))) }
        ensures refused { IfErr result (λ e. e ≡ OutOfMemory) }
    {
        match self.batch(alloc, place)? {
            Some(batch) => self.happened_at(alloc, replica, Event::Merge(batch)),
            None => Ok(false),
        }
    }

    fn connect(&mut self, alloc: Global, client: u32, replica: u16) -> Result<bool, Refusal>
        ensures ok { IfOk result (λ b. Happened self.old b self.new (happens A.accepts self.old (happenings.Connect client replica))) }
        ensures refused { IfErr result (λ e. e ≡ OutOfMemory) }
    {
        if !self.may_connect(client) {
            return Ok(false);
        }
        match self.open_at(alloc, replica)? {
            Some(stream) => self.connect_link(alloc, client, replica, stream),
            None => Ok(false),
        }
    }

    fn up(&mut self, alloc: Global, client: u32) -> Result<bool, Refusal>
        ensures ok { IfOk result (λ b. Happened self.old b self.new (happens A.accepts self.old (happenings.Up client))) }
        ensures refused { IfErr result (λ e. e ≡ OutOfMemory) }
    {
        let Some((replica, stream)) = self.link_of(client) else {
            return Ok(false);
        };
        let Some(request) = self.oldest_request(alloc, client)? else {
            return Ok(false);
        };
        if !self.happened_at(alloc, replica, Event::Request(stream, request))? {
            return Ok(false);
        }
        Ok(self.drop_request(alloc, client))
    }

    fn poll(&mut self, alloc: Global, client: u32, which: Option<TypeName>) -> Result<bool, Refusal>
        ensures ok { IfOk result (λ b. Happened self.old b self.new (happens A.accepts self.old (happenings.Poll client which))) }
        ensures refused { IfErr result (λ e. e ≡ OutOfMemory) }
    {
        let Some((replica, stream)) = self.link_of(client) else {
            return Ok(false);
        };
        match self.poll_at(alloc, replica, stream, which)? {
            Some(response) => self.respond(alloc, client, response),
            None => Ok(false),
        }
    }

    fn rest_poll(
        &mut self,
        alloc: Global,
        client: u32,
        replica: u16,
        kind: TypeName,
        fate: AnswerFate,
    ) -> Result<bool, Refusal>
        ensures ok { IfOk result (λ b. Happened self.old b self.new (happens A.accepts self.old (happenings.RestPoll client replica kind fate))) }
        ensures refused { IfErr result (λ e. e ≡ OutOfMemory) }
    {
        let Some(request) = self.request(alloc, client, kind)? else {
            return Ok(false);
        };
        let Some(answer) = self.rest_at(alloc, replica, kind, request)? else {
            return Ok(false);
        };
        match fate {
            AnswerFate::Arrives => self.answer(alloc, client, kind, answer),
            AnswerFate::Lost => {
                drop(answer);
                Ok(true)
            }
        }
    }

    fn lose(&mut self, alloc: Global, client: u32) -> Result<bool, Refusal>
        ensures ok { IfOk result (λ b. Happened self.old b self.new (happens A.accepts self.old (happenings.Lose client))) }
        ensures refused { IfErr result (λ e. e ≡ OutOfMemory) }
    {
        let Some((replica, stream)) = self.link_of(client) else {
            return Ok(false);
        };
        if !self.happened_at(alloc, replica, Event::Close(stream))? {
            return Ok(false);
        }
        Ok(self.lose_link(alloc, client))
    }

    fn put(
        &mut self,
        alloc: Global,
        replica: u16,
        resource: &AnyResource,
        groups: &Groups,
    ) -> Result<bool, Refusal>
        ensures ok { IfOk result (λ b. Happened self.old b self.new (happens A.accepts self.old (happenings.Put replica (resource_type resource.now) (named_body resource.now) groups.now))) }
        ensures refused { IfErr result (λ e. e ≡ OutOfMemory) }
    {
        let resource = resource.try_copy(alloc)?;
        let groups = groups.try_copy(alloc)?;
        self.happened_at(alloc, replica, Event::Put(resource, groups))
    }

    fn delete(
        &mut self,
        alloc: Global,
        replica: u16,
        kind: TypeName,
        name: &str,
    ) -> Result<bool, Refusal>
        ensures ok { IfOk result (λ b. Happened self.old b self.new (happens A.accepts self.old (happenings.Delete replica kind name.now))) }
        ensures refused { IfErr result (λ e. e ≡ OutOfMemory) }
    {
        let name = String::from_str(alloc, name)?;
        self.happened_at(alloc, replica, Event::Delete(kind, name))
    }

    /// What becomes of the world. Answers whether the event happened; where it isn't possible or is refused, nothing did. Refused
    /// only by `OutOfMemory`, and then the world is of no use any more.
    pub(crate) fn happen(&mut self, alloc: Global, event: &WorldEvent) -> Result<bool, Refusal>
        ensures ok { IfOk result (λ b. Happened self.old b self.new (happens A.accepts self.old (happening_of event.now))) }
        ensures refused { IfErr result (λ e. e ≡ OutOfMemory) }
    {
        match event {
            WorldEvent::AddReplica(replica) => self.add_replica(alloc, *replica),
            WorldEvent::AddClient(client, kind, cluster) => {
                self.add_client(alloc, *client, *kind, cluster.as_str())
            }
            WorldEvent::Put(replica, resource, groups) => {
                self.put(alloc, *replica, resource, groups)
            }
            WorldEvent::Delete(replica, kind, name) => {
                self.delete(alloc, *replica, *kind, name.as_str())
            }
            WorldEvent::Snapshot(replica) => self.snapshot(alloc, *replica),
            WorldEvent::Merge(replica, place) => self.merge(alloc, *replica, *place),
            WorldEvent::Connect(client, replica) => self.connect(alloc, *client, *replica),
            WorldEvent::Change(client, kind, wish) => self.change(alloc, *client, *kind, wish),
            WorldEvent::Up(client) => self.up(alloc, *client),
            WorldEvent::Poll(client, which) => self.poll(alloc, *client, *which),
            WorldEvent::Down(client) => self.receive(alloc, *client),
            WorldEvent::Lose(client) => self.lose(alloc, *client),
            WorldEvent::RestPoll(client, replica, kind, fate) => {
                self.rest_poll(alloc, *client, *replica, *kind, *fate)
            }
        }
    }

    // A client is told to want something else of a type.
    fn change(
        &mut self,
        alloc: Global,
        client: u32,
        kind: TypeName,
        wish: &Wish,
    ) -> Result<bool, Refusal>
        ensures ok { IfOk result (λ b. Happened self.old b self.new (happens A.accepts self.old (happenings.Change client kind (wish_of wish.now)))) }
        ensures refused { IfErr result (λ e. e ≡ OutOfMemory) }
    {
        let number = client as u64;
        let Some(mut peer) = self.peers.replace(number, blank_peer(alloc)) else {
            return Ok(false);
        };
        let changed = peer.change(alloc, kind, wish);
        self.peers.set(number, peer);
        changed
    }
}

// The number of the stream that was opened.
fn stream_in(reply: Option<Reply>) -> Option<u64>
    ensures { result ≡ option_and_then (λ r. stream_in (reply_of r)) reply }
{
    match reply {
        Some(Reply::Opened(stream)) => Some(stream),
        _ => None,
    }
}

// The response that a poll gave, if it gave one.
fn draft_in(reply: Option<Reply>) -> Option<Option<Draft>>
    ensures { result ≡ option_and_then (λ r. draft_in (reply_of r)) reply }
{
    match reply {
        Some(Reply::Polled(response)) => Some(response),
        _ => None,
    }
}

// All that a replica holds.
fn batch_in(reply: Option<Reply>) -> Option<Batch>
    ensures { result ≡ option_and_then (λ r. batch_in (reply_of r)) reply }
{
    match reply {
        Some(Reply::Entries(batch)) => Some(batch),
        _ => None,
    }
}

// The answer to a poll without a stream: a body, or that nothing changed.
fn rested_in(reply: Option<Reply>) -> Option<Option<SotwDraft>>
    ensures { result ≡ option_and_then (λ r. rested_in (reply_of r)) reply }
{
    match reply {
        Some(Reply::Rested(answer)) => Some(answer),
        _ => None,
    }
}

// The text of a node's cluster, empty where there is none.
fn cluster_of(alloc: Global, node: Option<Node>) -> String
    ensures { string_bytes result ≡ cluster_in node }
{
    match node {
        Some(node) => node.cluster,
        None => String::new(alloc),
    }
}

// A client that is put where another was taken out, and not kept.
fn blank_peer<A: Accept>(alloc: Global) -> Peer<A>
    ensures { result ≡ blank }
{
    Peer::new(
        alloc,
        ClientKind::Sotw,
        String::new(alloc),
        String::new(alloc),
    )
}
