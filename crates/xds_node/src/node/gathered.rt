// The names that an event writes or asks for, as they are gathered.
ghost use Rattle.std.specs.Prelude.{◌≡◌, ◌||◌, ℕ, List, [], ◌∷◌, map, string_bytes, not, true, false};
ghost use Rattle.xds_resource.specs.PerType.{at};
ghost use Rattle.xds_resource.specs.declared.types.TypeName.{TypeName};
ghost use Rattle.xds_resource.specs.Types.{type_of_url};
ghost use Rattle.xds_interest.specs.SotW.{is_named};
ghost use Rattle.xds_core.specs.Seen.{event_of, message_of};
ghost use Rattle.xds_core.specs.Streams.{url_of};
ghost use Rattle.xds_node.specs.Concerns.{asked_for, asks, is_unnamed, lists_it, names_it, subscribes_nothing, writes};
ghost use Rattle.xds_node.specs.Gathered.{Gains, has};
ghost use Rattle.xds_node.specs.Prints.{print};

use crate::node::prints::fingerprint;
use std::alloc::Global;
use xds_core::{Event, Request};
use xds_message::Batch;
use xds_resource::{ResourceType, TypeName, Write};

/// As many writes are looked at by their names at most, of those that come together, or while writers are held back.
pub const MOST_WRITES: usize = 64;

/// The name that stands for all.
const STAR: &str = "*";

/// Names of an event's types: all, or some, of which there are the fingerprints as they came.
#[derive(Drop)]
pub struct Gathered {
    pub all: bool,
    pub prints: Vec<u64>,
}

impl Gathered {
    fn none(alloc: Global) -> Gathered
        ensures { result.prints.items ≡ [] }
    {
        Gathered {
            all: false,
            prints: Vec::new(alloc),
        }
    }

    // rule: wake-ups
    /// The names that an event writes or asks for, or all where these are many.
    pub fn by(alloc: Global, event: &Event) -> Gathered
        ensures gathered { (t : TypeName) (name : List ℕ) → (writes (event_of event.now) t name || asks (event_of event.now) t name) ≡ true
            → has result (print t name) ≡ true }
        ensures unnamed { is_unnamed (event_of event.now) ≡ true → result.prints.items ≡ [] }
    {
        match event {
            Event::Request(_, request) => Gathered::asked(alloc, request),
            Event::Put(resource, _) => {
                Gathered::name(alloc, resource.type_name(), resource.name())
            }
            Event::Delete(kind, name) => Gathered::name(alloc, *kind, name.as_str()),
            Event::Merge(batch) => Gathered::merged(alloc, batch),
            Event::Open => Gathered::none(alloc),
            Event::Poll(_, _) => Gathered::none(alloc),
            Event::Owes(_, _) => Gathered::none(alloc),
            Event::Close(_) => Gathered::none(alloc),
            Event::Snapshot => Gathered::none(alloc),
            Event::Rest(_, _, _, _) => Gathered::none(alloc),
            Event::Since(_) => Gathered::none(alloc),
        }
    }

    // rule: wake-ups
    // What a request asks for.
    fn asked(alloc: Global, request: &Request) -> Gathered
        ensures gathered { (t : TypeName) (name : List ℕ) → at (asked_for (type_of_url (url_of (message_of request.now)))) t ≡ true
            → names_it (message_of request.now) name ≡ true → has result (print t name) ≡ true }
        ensures unnamed { subscribes_nothing (message_of request.now) ≡ true → result.prints.items ≡ [] }
    {
        match TypeName::from_url(request.type_url()) {
            Some(kind) => Gathered::asked_of(alloc, kind, request),
            None => Gathered::none(alloc),
        }
    }

    // The same of a request of this type.
    fn asked_of(alloc: Global, kind: TypeName, request: &Request) -> Gathered
        ensures gathered { (name : List ℕ) → names_it (message_of request.now) name ≡ true → has result (print kind name) ≡ true }
        ensures unnamed { subscribes_nothing (message_of request.now) ≡ true → result.prints.items ≡ [] }
    {
        match request {
            Request::Sotw(request) => {
                Gathered::listed(alloc, kind, request.resource_names.as_slice())
            }
            Request::Delta(request) => {
                Gathered::names(alloc, kind, request.resource_names_subscribe.as_slice())
            }
        }
    }

    // A list of the state of the world: one without names asks for all.
    fn listed(alloc: Global, kind: TypeName, names: &[String]) -> Gathered
        ensures { (name : List ℕ) → (not (is_named (map string_bytes names.now)) || lists_it (map string_bytes names.now) name) ≡ true
            → has result (print kind name) ≡ true }
    {
        let mut gathered = Gathered::names(alloc, kind, names);
        if names.is_empty() {
            gathered.take_all();
        }
        gathered
    }

    // Names of a type.
    fn names(alloc: Global, kind: TypeName, names: &[String]) -> Gathered
        ensures gathered { (name : List ℕ) → lists_it (map string_bytes names.now) name ≡ true → has result (print kind name) ≡ true }
        ensures unnamed { is_named (map string_bytes names.now) ≡ false → result.prints.items ≡ [] }
    {
        let mut gathered = Gathered::none(alloc);
        if names.is_empty() {
            return gathered;
        }
        gathered.add_names(kind, names);
        gathered
    }

    // A name of a type.
    fn name(alloc: Global, kind: TypeName, name: &str) -> Gathered
        ensures { (q : List ℕ) → lists_it (name.now ∷ []) q ≡ true → has result (print kind q) ≡ true }
    {
        let mut gathered = Gathered::none(alloc);
        gathered.add_name(kind, name);
        gathered
    }

    // rule: wake-ups
    // What is merged.
    fn merged(alloc: Global, batch: &Batch) -> Gathered
        ensures { (t : TypeName) (name : List ℕ) → lists_it (map (λ w. w.name) (at batch.now t)) name ≡ true → has result (print t name) ≡ true }
    {
        let mut gathered = Gathered::none(alloc);
        gathered.add_writes(batch.cluster.as_slice());
        gathered.add_writes(batch.endpoint.as_slice());
        gathered.add_writes(batch.listener.as_slice());
        gathered.add_writes(batch.route.as_slice());
        gathered.add_writes(batch.secret.as_slice());
        gathered
    }

    fn take_all(&mut self)
        ensures { (p : ℕ) → has self.new p ≡ true }
    {
        self.all = true;
        self.prints.clear();
    }

    // A fingerprint, or all where there is no memory for it.
    fn add(&mut self, print: u64)
        ensures kept { (p : ℕ) → has self.old p ≡ true → has self.new p ≡ true }
        ensures added { has self.new print ≡ true }
    {
        if self.prints.push(print).is_err() {
            self.take_all();
        }
    }

    // A name of a type. The star stands for all.
    fn add_name(&mut self, kind: TypeName, name: &str)
        ensures { Gains kind (name.now ∷ []) self.old self.new }
    {
        if name == STAR {
            self.take_all();
            return;
        }
        self.add(fingerprint(kind, name));
    }

    fn add_names(&mut self, kind: TypeName, names: &[String])
        ensures { Gains kind (map string_bytes names.now) self.old self.new }
    {
        for name in names {
            self.add_name(kind, name.as_str());
        }
    }

    // rule: wake-ups
    // The names of writes of a type, or all names where these are many.
    fn add_writes<T: ResourceType>(&mut self, writes: &[Write<T>])
        ensures { Gains T.TYPE (map (λ w. w.name) writes.now) self.old self.new }
    {
        for write in writes {
            if self.all {
                return;
            }
            self.add_write(T::TYPE, write.name());
        }
    }

    // A name of a type, among not too many.
    fn add_write(&mut self, kind: TypeName, name: &str)
        ensures { Gains kind (name.now ∷ []) self.old self.new }
    {
        self.add_name(kind, name);
        if self.prints.len() > MOST_WRITES {
            self.take_all();
        }
    }
}
