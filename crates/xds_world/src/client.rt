// A client of any kind, with a stream or without.
ghost use Rattle.std.specs.Prelude.{◌≡◌, map, true, false, string_bytes, option_map, IfOk, IfErr};
ghost use Rattle.xds_resource.specs.Types.{types};
ghost use Rattle.xds_resource.specs.declared.refusal.Refusal.TheVariants.{OutOfMemory};
ghost use Rattle.xds_message.specs.declared.draft.Draft.TheVariants as drafts;
ghost use Rattle.xds_message.specs.Responses.{response_of};
ghost use Rattle.xds_message.specs.Drafts.{message_of as drafted_message};
ghost use Rattle.xds_core.specs.Streams as streams;
ghost use Rattle.xds_core.specs.Seen.{message_of};
ghost use Rattle.xds_cache.specs.Clients.{view as view_of, linked};
ghost use Rattle.xds_cache.specs.Sends.{is_greeted};
ghost use Rattle.xds_script.specs.ModelSeen.{wish_of};
ghost use Rattle.xds_world.specs.Worlds.{opening_requests, has_streams, asked_by};
ghost use Rattle.xds_script.specs.declared.event.ClientKind.TheVariants as kinds;
ghost use Rattle.xds_world.specs.AnyClients.{fresh_any, wishing, changing, receiving, receiving_any, answering, answering_any, linked_any, unlinked_any};
ghost use Rattle.xds_world.specs.Calls.{Gave, Happened};
ghost use Rattle.xds_world.specs.States.{client_in};

use std::alloc::Global;
use std::collections::VecDeque;
use std::marker::Model;
use xds_cache::{Accept, Cache, DeltaClient, Down, LinkState, RestClient, SotwClient, Up};
use xds_core::Request;
use xds_message::{
    DeltaDiscoveryRequest, DeltaDraft, DiscoveryRequest, DiscoveryResponse, Draft, SotwDraft,
};
use xds_resource::{Refusal, TypeName};
use xds_script::{ClientKind, Wish};

#[derive(Drop)]
enum ClientState<A: Accept> {
    SotwDown(SotwClient<A, Down>),
    SotwUp(SotwClient<A, Up>),
    DeltaDown(DeltaClient<A, Down>),
    DeltaUp(DeltaClient<A, Up>),
    Rest(RestClient<A>),
}

/// A client of any kind, with a stream or without.
#[derive(Drop)]
pub(crate) struct AnyClient<A: Accept> {
    state: ClientState<A>,
}

impl<A: Accept> Model for AnyClient<A> {
    ghost use Rattle.xds_world.specs.AnyClients as clients;
    ghost use Rattle.xds_world.specs.AnyClients.{any_client_code};

    ghost Value = { clients.AnyClient };

    ghost coded = { any_client_code };

    ghost use Rattle.xds_world.specs.States.{client_in};

    ghost view = { λ c. client_in c.state };
}

// The requests of a state-of-the-world client, as requests of either variant.
fn sotw_requests(
    alloc: Global,
    requests: Vec<DiscoveryRequest>,
) -> Result<VecDeque<Request>, Refusal>
    ensures ok { IfOk result (λ q. map message_of q.items ≡ map streams.Sotw requests.items) }
    ensures refused { IfErr result (λ e. e ≡ OutOfMemory) }
{
    let mut queue = VecDeque::new(alloc);
    for request in requests {
        queue.push_back(Request::Sotw(request))?;
    }
    Ok(queue)
}

// The requests of a delta client, as requests of either variant.
fn delta_requests(
    alloc: Global,
    requests: Vec<DeltaDiscoveryRequest>,
) -> Result<VecDeque<Request>, Refusal>
    ensures ok { IfOk result (λ q. map message_of q.items ≡ map streams.Delta requests.items) }
    ensures refused { IfErr result (λ e. e ≡ OutOfMemory) }
{
    let mut queue = VecDeque::new(alloc);
    for request in requests {
        queue.push_back(Request::Delta(request))?;
    }
    Ok(queue)
}

// What becomes of a wish at a state-of-the-world client.
fn change_sotw<A: Accept, L: LinkState>(
    client: &mut SotwClient<A, L>,
    alloc: Global,
    kind: TypeName,
    wish: &Wish,
) -> Result<Option<Option<Request>>, Refusal>
    ensures ok { IfOk result (λ o. Gave (option_map message_of) client.old o client.new (wishing kinds.Sotw L.IS_UP kind (wish_of wish.now) client.old)) }
    ensures refused { IfErr result (λ e. e ≡ OutOfMemory) }
{
    let Wish::Names(names) = wish else {
        return Ok(None);
    };
    match client.change(alloc, kind, names) {
        Ok(Some(request)) => Ok(Some(Some(Request::Sotw(request)))),
        Ok(None) => Ok(Some(None)),
        Err(Refusal::OutOfMemory) => Err(Refusal::OutOfMemory),
        Err(_) => Ok(None),
    }
}

// What becomes of a wish at a delta client.
fn change_delta<A: Accept, L: LinkState>(
    client: &mut DeltaClient<A, L>,
    alloc: Global,
    kind: TypeName,
    wish: &Wish,
) -> Result<Option<Option<Request>>, Refusal>
    ensures ok { IfOk result (λ o. Gave (option_map message_of) client.old o client.new (wishing kinds.Delta L.IS_UP kind (wish_of wish.now) client.old)) }
    ensures refused { IfErr result (λ e. e ≡ OutOfMemory) }
{
    let Wish::Edits(subscribe, unsubscribe) = wish else {
        return Ok(None);
    };
    match client.change(alloc, kind, subscribe, unsubscribe) {
        Ok(Some(request)) => Ok(Some(Some(Request::Delta(request)))),
        Ok(None) => Ok(Some(None)),
        Err(Refusal::OutOfMemory) => Err(Refusal::OutOfMemory),
        Err(_) => Ok(None),
    }
}

// What becomes of a wish at a client that polls. It gives nothing to send.
fn change_rest<A: Accept>(
    client: &mut RestClient<A>,
    alloc: Global,
    kind: TypeName,
    wish: &Wish,
) -> Result<Option<Option<Request>>, Refusal>
    ensures ok { IfOk result (λ o. Gave (option_map message_of) client.old o client.new (wishing kinds.Rest false kind (wish_of wish.now) client.old)) }
    ensures refused { IfErr result (λ e. e ≡ OutOfMemory) }
{
    let Wish::Names(names) = wish else {
        return Ok(None);
    };
    client.change(alloc, kind, names)?;
    Ok(Some(None))
}

// A client with the requests to send.
fn up_sotw<A: Accept>(
    alloc: Global,
    client: SotwClient<A, Up>,
    requests: Vec<DiscoveryRequest>,
) -> Result<(AnyClient<A>, VecDeque<Request>), Refusal>
    ensures up { IfOk result (λ r. r.0 ≡ record { kind = kinds.Sotw; up = true; client = client }) }
    ensures requests { IfOk result (λ r. map message_of r.1.items ≡ map streams.Sotw requests.items) }
    ensures refused { IfErr result (λ e. e ≡ OutOfMemory) }
{
    let requests = sotw_requests(alloc, requests)?;
    let state = ClientState::SotwUp(client);
    Ok((AnyClient { state }, requests))
}

// A state-of-the-world client on a new stream, with the requests to send there.
fn connect_sotw<A: Accept>(
    client: SotwClient<A, Down>,
    alloc: Global,
) -> Result<(AnyClient<A>, VecDeque<Request>), Refusal>
    ensures up { IfOk result (λ r. r.0 ≡ record { kind = kinds.Sotw; up = true; client = linked (is_greeted client false types) client }) }
    ensures requests { IfOk result (λ r. map message_of r.1.items ≡ opening_requests kinds.Sotw client) }
    ensures refused { IfErr result (λ e. e ≡ OutOfMemory) }
{
    match client.connect(alloc) {
        Ok((client, requests)) => up_sotw(alloc, client, requests),
        Err(_) => Err(Refusal::OutOfMemory),
    }
}

// A client with the requests to send.
fn up_delta<A: Accept>(
    alloc: Global,
    client: DeltaClient<A, Up>,
    requests: Vec<DeltaDiscoveryRequest>,
) -> Result<(AnyClient<A>, VecDeque<Request>), Refusal>
    ensures up { IfOk result (λ r. r.0 ≡ record { kind = kinds.Delta; up = true; client = client }) }
    ensures requests { IfOk result (λ r. map message_of r.1.items ≡ map streams.Delta requests.items) }
    ensures refused { IfErr result (λ e. e ≡ OutOfMemory) }
{
    let requests = delta_requests(alloc, requests)?;
    let state = ClientState::DeltaUp(client);
    Ok((AnyClient { state }, requests))
}

// A delta client on a new stream, with the requests to send there.
fn connect_delta<A: Accept>(
    client: DeltaClient<A, Down>,
    alloc: Global,
) -> Result<(AnyClient<A>, VecDeque<Request>), Refusal>
    ensures up { IfOk result (λ r. r.0 ≡ record { kind = kinds.Delta; up = true; client = linked (is_greeted client false types) client }) }
    ensures requests { IfOk result (λ r. map message_of r.1.items ≡ opening_requests kinds.Delta client) }
    ensures refused { IfErr result (λ e. e ≡ OutOfMemory) }
{
    match client.connect(alloc) {
        Ok((client, requests)) => up_delta(alloc, client, requests),
        Err(_) => Err(Refusal::OutOfMemory),
    }
}

// What a state-of-the-world client makes of a response.
fn receive_sotw<A: Accept>(
    client: &mut SotwClient<A, Up>,
    alloc: Global,
    draft: &SotwDraft,
) -> Result<Option<Request>, Refusal>
    ensures ok { IfOk result (λ o. Gave message_of client.old o client.new (receiving A.accepts kinds.Sotw (drafts.Sotw draft.now) client.old)) }
    ensures refused { IfErr result (λ e. e ≡ OutOfMemory) }
{
    let response = draft.message(alloc)?;
    match client.receive(alloc, &response) {
        Ok(request) => Ok(Some(Request::Sotw(request))),
        Err(Refusal::OutOfMemory) => Err(Refusal::OutOfMemory),
        Err(_) => Ok(None),
    }
}

// What a delta client makes of a response.
fn receive_delta<A: Accept>(
    client: &mut DeltaClient<A, Up>,
    alloc: Global,
    draft: &DeltaDraft,
) -> Result<Option<Request>, Refusal>
    ensures ok { IfOk result (λ o. Gave message_of client.old o client.new (receiving A.accepts kinds.Delta (drafts.Delta draft.now) client.old)) }
    ensures refused { IfErr result (λ e. e ≡ OutOfMemory) }
{
    let response = draft.message(alloc)?;
    match client.receive(alloc, &response) {
        Ok(request) => Ok(Some(Request::Delta(request))),
        Err(Refusal::OutOfMemory) => Err(Refusal::OutOfMemory),
        Err(_) => Ok(None),
    }
}

// The message that an answer has as its body, if it has one.
fn body_of(alloc: Global, answer: Option<&SotwDraft>) -> Result<Option<DiscoveryResponse>, Refusal>
    ensures ok { IfOk result (λ m. option_map response_of m ≡ option_map (λ d. drafted_message d.now) answer.entry) }
    ensures refused { IfErr result (λ e. e ≡ OutOfMemory) }
{
    match answer {
        Some(draft) => Ok(Some(draft.message(alloc)?)),
        None => Ok(None),
    }
}

// What a client that polls makes of an answer. Answers whether it is one to a poll of the type, be it rejected or not.
fn answer_rest<A: Accept>(
    client: &mut RestClient<A>,
    alloc: Global,
    kind: TypeName,
    answer: Option<&SotwDraft>,
) -> Result<bool, Refusal>
    ensures ok { IfOk result (λ b. Happened client.old b client.new (answering A.accepts kinds.Rest kind (option_map (λ d. d.now) answer.entry) client.old)) }
    ensures refused { IfErr result (λ e. e ≡ OutOfMemory) }
{
    let body = body_of(alloc, answer)?;
    match client.receive(alloc, kind, body.as_ref()) {
        Ok(_) => Ok(true),
        Err(Refusal::OutOfMemory) => Err(Refusal::OutOfMemory),
        Err(_) => Ok(false),
    }
}

impl<A: Accept> AnyClient<A> {
    /// A client that wants nothing and has no stream.
    pub(crate) fn new(
        alloc: Global,
        kind: ClientKind,
        node_id: String,
        cluster: String,
    ) -> AnyClient<A>
        ensures { result ≡ fresh_any kind (string_bytes node_id) (string_bytes cluster) }
    {
        let state = match kind {
            ClientKind::Sotw => ClientState::SotwDown(SotwClient::new(alloc, node_id, cluster)),
            ClientKind::Delta => ClientState::DeltaDown(DeltaClient::new(alloc, node_id, cluster)),
            ClientKind::Rest => ClientState::Rest(RestClient::new(alloc, node_id, cluster)),
        };
        AnyClient { state }
    }

    pub(crate) fn kind(&self) -> ClientKind
        ensures { result ≡ self.now.kind }
    {
        match &self.state {
            ClientState::SotwDown(_) => ClientKind::Sotw,
            ClientState::SotwUp(_) => ClientKind::Sotw,
            ClientState::DeltaDown(_) => ClientKind::Delta,
            ClientState::DeltaUp(_) => ClientKind::Delta,
            ClientState::Rest(_) => ClientKind::Rest,
        }
    }

    /// What the client holds of a type.
    pub(crate) fn view(&self, kind: TypeName) -> &Cache
        ensures { result.now ≡ view_of self.now.client kind }
    {
        match &self.state {
            ClientState::SotwDown(client) => client.view(kind),
            ClientState::SotwUp(client) => client.view(kind),
            ClientState::DeltaDown(client) => client.view(kind),
            ClientState::DeltaUp(client) => client.view(kind),
            ClientState::Rest(client) => client.view(kind),
        }
    }

    /// On a new stream, with the requests to send there.
    pub(crate) fn connect(self, alloc: Global) -> Result<(AnyClient<A>, VecDeque<Request>), Refusal>
        requires down { self.up ≡ false }
        requires streams { has_streams self.kind ≡ true }
        ensures up { IfOk result (λ r. r.0 ≡ linked_any self) }
        ensures requests { IfOk result (λ r. map message_of r.1.items ≡ opening_requests self.kind self.client) }
        ensures refused { IfErr result (λ e. e ≡ OutOfMemory) }
    {
        match self.state {
            ClientState::SotwDown(client) => connect_sotw(client, alloc),
            ClientState::DeltaDown(client) => connect_delta(client, alloc),
            state => Ok((AnyClient { state }, VecDeque::new(alloc))),
        }
    }

    /// What the client gives to send once it is told to want something else of a type, if anything; none where the wish isn't of
    /// its variant or is refused.
    pub(crate) fn change(
        &mut self,
        alloc: Global,
        kind: TypeName,
        wish: &Wish,
    ) -> Result<Option<Option<Request>>, Refusal>
        ensures ok { IfOk result (λ o. Gave (option_map message_of) self.old o self.new (changing kind (wish_of wish.now) self.old)) }
        ensures up { self.new.up ≡ self.old.up }
        ensures refused { IfErr result (λ e. e ≡ OutOfMemory) }
    {
        match &mut self.state {
            ClientState::SotwDown(client) => change_sotw(client, alloc, kind, wish),
            ClientState::SotwUp(client) => change_sotw(client, alloc, kind, wish),
            ClientState::DeltaDown(client) => change_delta(client, alloc, kind, wish),
            ClientState::DeltaUp(client) => change_delta(client, alloc, kind, wish),
            ClientState::Rest(client) => change_rest(client, alloc, kind, wish),
        }
    }

    /// The client's answer to a response; none where the response isn't of its variant or is refused.
    pub(crate) fn receive(
        &mut self,
        alloc: Global,
        draft: &Draft,
    ) -> Result<Option<Request>, Refusal>
        requires { self.old.up ≡ true }
        ensures ok { IfOk result (λ o. Gave message_of self.old o self.new (receiving_any A.accepts draft.now self.old)) }
        ensures up { self.new.up ≡ self.old.up }
        ensures refused { IfErr result (λ e. e ≡ OutOfMemory) }
    {
        match (&mut self.state, draft) {
            (ClientState::SotwUp(client), Draft::Sotw(draft)) => receive_sotw(client, alloc, draft),
            (ClientState::DeltaUp(client), Draft::Delta(draft)) => receive_delta(
                client, alloc, draft,
            ),
            _ => Ok(None),
        }
    }

    /// What a client that polls asks for in a poll of a type; none where it wants nothing of the type, or the client is another.
    pub(crate) fn request(
        &self,
        alloc: Global,
        kind: TypeName,
    ) -> Result<Option<DiscoveryRequest>, Refusal>
        ensures ok { IfOk result (λ q. q ≡ asked_by self.now.kind self.now.client kind) }
        ensures refused { IfErr result (λ e. e ≡ OutOfMemory) }
    {
        match &self.state {
            ClientState::Rest(client) => client.request(alloc, kind),
            _ => Ok(None),
        }
    }

    /// The answer to a client's poll of a type, with its body, or none where nothing changed. Answers whether the client polls and asked
    /// for the type; else it is as it was.
    pub(crate) fn answer(
        &mut self,
        alloc: Global,
        kind: TypeName,
        answer: Option<&SotwDraft>,
    ) -> Result<bool, Refusal>
        ensures ok { IfOk result (λ b. Happened self.old b self.new (answering_any A.accepts kind (option_map (λ d. d.now) answer.entry) self.old)) }
        ensures up { self.new.up ≡ self.old.up }
        ensures refused { IfErr result (λ e. e ≡ OutOfMemory) }
    {
        match &mut self.state {
            ClientState::Rest(client) => answer_rest(client, alloc, kind, answer),
            _ => Ok(false),
        }
    }

    /// Once the stream is lost.
    pub(crate) fn lose(self) -> AnyClient<A>
        requires { self.up ≡ true }
        ensures { result ≡ unlinked_any self }
    {
        let state = match self.state {
            ClientState::SotwUp(client) => ClientState::SotwDown(client.lose()),
            ClientState::DeltaUp(client) => ClientState::DeltaDown(client.lose()),
            state => state,
        };
        AnyClient { state }
    }
}
