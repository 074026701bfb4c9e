// A stream from a client to a replica, with what is under way on it.
ghost use Rattle.std.specs.Prelude.{◌≡◌, ℕ, [], ◌∷◌, ◌++◌, map, option_map, IfOk, IfErr, OnOk, OnErr};
ghost use Rattle.std.specs.List.{list_any};
ghost use Rattle.xds_resource.specs.declared.refusal.Refusal.TheVariants.{OutOfMemory};
ghost use Rattle.xds_resource.specs.Types.{is_same_type};
ghost use Rattle.xds_core.specs.Seen.{message_of};
ghost use Rattle.xds_message.specs.DraftTexts.{kind_of};
ghost use Rattle.xds_world.specs.Claims.{asks_for, is_quiet};
ghost use Rattle.xds_world.specs.Worlds.{under_way};
ghost use Rattle.xds_script.specs.ModelSeen.{happening_of};
ghost use Rattle.xds_world.specs.Settling.{brings, takes_one, next_on};
ghost use Rattle.xds_world.specs.Calls.{Happened};
ghost use Rattle.xds_world.specs.Journal.{oldest};
ghost use Rattle.xds_world.specs.Links.{behind, link_up};
ghost use Rattle.xds_world.specs.Steps.{event_for, count};

use crate::parts::is_there;
use std::alloc::Global;
use std::collections::VecDeque;
use std::marker::Model;
use xds_core::Request;
use xds_message::Draft;
use xds_resource::{Refusal, TypeName};
use xds_script::WorldEvent;

/// What is done next to settle a client of a type.
#[derive(Clone, Copy)]
pub enum Step {
    /// The replica takes the client's oldest request.
    Up,
    /// The replica is polled for the type.
    Poll,
    /// The client takes the oldest response.
    Down,
}

impl Step {
    /// What happens in the step of settling a client, by its number, of a type.
    pub fn event(self, client: u32, kind: TypeName) -> WorldEvent
        ensures { happening_of result ≡ event_for client kind self }
    {
        match self {
            Step::Up => WorldEvent::Up(client),
            Step::Poll => WorldEvent::Poll(client, Some(kind)),
            Step::Down => WorldEvent::Down(client),
        }
    }
}

/// A stream from a client to a replica, with what is under way on it each way, the oldest first.
pub struct Link {
    replica: u16,
    stream: u64,
    up: VecDeque<Request>,
    down: VecDeque<Draft>,
}

// Written out: docs/PROVING.md, "Drops".
impl Drop for Link {
    fn drop(self) {
        let Link {
            replica: _,
            stream: _,
            up: _,
            down: _,
        } = self;
    }
}

impl Model for Link {
    ghost use Rattle.std.specs.Prelude.{map};
    ghost use Rattle.xds_core.specs.Seen.{message_of};
    ghost use Rattle.xds_world.specs.Worlds as worlds;
    ghost use Rattle.xds_world.specs.PeerCodes.{link_code};

    ghost Value = { worlds.Link };

    ghost coded = { link_code };

    ghost view = { λ l. record { replica = l.replica; stream = l.stream; up = map message_of l.up.items; down = l.down.items } };
}

// Whether a request is of a type.
fn is_request_of(request: &Request, kind: TypeName) -> bool
    ensures { result ≡ asks_for kind (message_of request.now) }
{
    match request {
        Request::Sotw(request) => request.type_url.as_str() == kind.url(),
        Request::Delta(request) => request.type_url.as_str() == kind.url(),
    }
}

// Whether a response is of a type.
fn is_response_of(draft: &Draft, kind: TypeName) -> bool
    ensures { result ≡ is_same_type (kind_of draft.now) kind }
{
    draft.kind().url() == kind.url()
}

impl Link {
    /// A new stream with the requests that are sent at its start.
    pub(crate) fn new(alloc: Global, replica: u16, stream: u64, up: VecDeque<Request>) -> Link
        ensures { result ≡ record { replica = replica; stream = stream; up = map message_of up.items; down = [] } }
    {
        Link {
            replica,
            stream,
            up,
            down: VecDeque::new(alloc),
        }
    }

    /// The number of the replica.
    pub fn replica(&self) -> u16
        ensures { result ≡ self.now.replica }
    {
        self.replica
    }

    /// The number of the stream at the replica.
    pub fn stream(&self) -> u64
        ensures { result ≡ self.now.stream }
    {
        self.stream
    }

    /// One request more is under way.
    pub(crate) fn send(&mut self, request: Request) -> Result<(), Refusal>
        ensures ok { OnOk result (self.new ≡ record self.old { up = self.old.up ++ message_of request ∷ [] }) }
        ensures refused { IfErr result (λ e. e ≡ OutOfMemory) }
    {
        self.up.push_back(request)?;
        Ok(())
    }

    /// A copy of the oldest request, if one is under way. Refused only by `OutOfMemory`.
    pub fn oldest_request(&self, alloc: Global) -> Result<Option<Request>, Refusal>
        ensures ok { IfOk result (λ o. option_map message_of o ≡ oldest self.now.up) }
        ensures refused { IfErr result (λ e. e ≡ OutOfMemory) }
    {
        match self.up.front() {
            Some(request) => Ok(Some(request.try_copy(alloc)?)),
            None => Ok(None),
        }
    }

    /// The oldest request is under way no longer. Answers whether there was one.
    pub(crate) fn drop_request(&mut self) -> bool
        ensures { Happened self.old result self.new (link_up self.old self.old.up) }
    {
        is_there(self.up.pop_front())
    }

    /// A response is under way, if there is one.
    pub(crate) fn respond(&mut self, response: Option<Draft>) -> Result<(), Refusal>
        ensures ok { OnOk result (self.new ≡ record self.old { down = self.old.down ++ under_way response }) }
        ensures refused { IfErr result (λ e. e ≡ OutOfMemory) }
    {
        if let Some(draft) = response {
            self.down.push_back(draft)?;
        }
        Ok(())
    }

    /// The oldest response, if one is under way.
    pub(crate) fn oldest_response(&self) -> Option<&Draft>
        ensures { option_map (λ d. d.now) result ≡ oldest self.now.down }
    {
        self.down.front()
    }

    /// The oldest response is under way no longer.
    pub(crate) fn drop_response(&mut self)
        ensures { self.new ≡ record self.old { down = behind self.old.down } }
    {
        self.down.pop_front();
    }

    // Whether a request of a type is under way.
    fn asks_for(&self, kind: TypeName) -> bool
        ensures { result ≡ list_any (asks_for kind) self.now.up }
    {
        for request in self.up.iter() {
            if is_request_of(request, kind) {
                return true;
            }
        }
        false
    }

    /// Whether a response of a type is under way.
    pub fn brings(&self, kind: TypeName) -> bool
        ensures { result ≡ brings kind self.now }
    {
        for draft in self.down.iter() {
            if is_response_of(draft, kind) {
                return true;
            }
        }
        false
    }

    /// Whether nothing of a type is under way, either way.
    pub fn is_quiet(&self, kind: TypeName) -> bool
        ensures { result ≡ is_quiet kind self.now }
    {
        !self.asks_for(kind) && !self.brings(kind)
    }

    /// Whether the oldest response is of a type; false where none is under way.
    pub fn brings_first(&self, kind: TypeName) -> bool
        ensures { count result ≡ takes_one kind self.now.down }
    {
        match self.down.front() {
            Some(draft) => is_response_of(draft, kind),
            None => false,
        }
    }

    /// What is done next to settle the client of a type, where it isn't settled: while a request is under way, its replica takes the
    /// oldest; else while a response of the type is, the client takes the oldest response; else the replica is polled for the type.
    pub fn next_step(&self, kind: TypeName) -> Step
        ensures { (client : ℕ) → event_for client kind result ≡ next_on client kind self.now self.now.up }
    {
        if !self.up.is_empty() {
            Step::Up
        } else if self.brings(kind) {
            Step::Down
        } else {
            Step::Poll
        }
    }
}
