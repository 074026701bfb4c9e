// Sets of resource types, and those that an event concerns.
ghost use Rattle.std.specs.Prelude.{◌≡◌, ◌&&◌, ◌||◌, true, false};
ghost use Rattle.xds_resource.specs.PerType.{each};
ghost use Rattle.xds_resource.specs.Types.{type_of_url};
ghost use Rattle.xds_core.specs.Seen.{event_of};
ghost use Rattle.xds_node.specs.Concerns.{asked_for, concerned, includes, joined, meets, only, set_of, written};

use xds_core::Event;
use xds_message::Batch;
use xds_resource::TypeName;

/// A set of resource types.
#[derive(Clone, Copy, Debug, PartialEq, Eq, Drop)]
pub struct TypeSet {
    pub cluster: bool,
    pub endpoint: bool,
    pub listener: bool,
    pub route: bool,
    pub secret: bool,
}

impl TypeSet {
    /// No type.
    pub fn none() -> TypeSet
        ensures { set_of result ≡ each false }
    {
        TypeSet {
            cluster: false,
            endpoint: false,
            listener: false,
            route: false,
            secret: false,
        }
    }

    /// Every type.
    pub fn all() -> TypeSet
        ensures { set_of result ≡ each true }
    {
        TypeSet {
            cluster: true,
            endpoint: true,
            listener: true,
            route: true,
            secret: true,
        }
    }

    /// One type.
    pub fn only(kind: TypeName) -> TypeSet
        ensures { set_of result ≡ only kind }
    {
        let mut set = TypeSet::none();
        match kind {
            TypeName::Cluster => set.cluster = true,
            TypeName::Endpoint => set.endpoint = true,
            TypeName::Listener => set.listener = true,
            TypeName::Route => set.route = true,
            TypeName::Secret => set.secret = true,
        }
        set
    }

    // rule: wake-ups
    /// The types that an event asks for or changes: a request's, a put's, a deletion's, and those of all writes that are merged.
    pub fn concerned(event: &Event) -> TypeSet
        ensures { set_of result ≡ concerned (event_of event.now) }
    {
        match event {
            Event::Request(_, request) => asked_for(request.type_url()),
            Event::Put(resource, _) => TypeSet::only(resource.type_name()),
            Event::Delete(kind, _) => TypeSet::only(*kind),
            Event::Merge(batch) => written(batch),
            Event::Open => TypeSet::none(),
            Event::Poll(_, _) => TypeSet::none(),
            Event::Owes(_, _) => TypeSet::none(),
            Event::Close(_) => TypeSet::none(),
            Event::Snapshot => TypeSet::none(),
            Event::Rest(_, _, _, _) => TypeSet::none(),
            Event::Since(_) => TypeSet::none(),
        }
    }

    /// All that are in one of two sets.
    pub fn joined(self, other: TypeSet) -> TypeSet
        ensures { set_of result ≡ joined (set_of self) (set_of other) }
    {
        TypeSet {
            cluster: either(self.cluster, other.cluster),
            endpoint: either(self.endpoint, other.endpoint),
            listener: either(self.listener, other.listener),
            route: either(self.route, other.route),
            secret: either(self.secret, other.secret),
        }
    }

    /// Whether all that are in the other are in this.
    pub fn includes(self, other: TypeSet) -> bool
        ensures { result ≡ includes (set_of self) (set_of other) }
    {
        let first = both(
            either(self.cluster, !other.cluster),
            either(self.endpoint, !other.endpoint),
        );
        let last = both(
            either(self.route, !other.route),
            either(self.secret, !other.secret),
        );
        both(both(first, either(self.listener, !other.listener)), last)
    }

    /// Whether a type is in both.
    pub fn meets(self, other: TypeSet) -> bool
        ensures { result ≡ meets (set_of self) (set_of other) }
    {
        let first = either(
            both(self.cluster, other.cluster),
            both(self.endpoint, other.endpoint),
        );
        let last = either(
            both(self.route, other.route),
            both(self.secret, other.secret),
        );
        either(either(first, both(self.listener, other.listener)), last)
    }
}

fn both(one: bool, other: bool) -> bool
    ensures { result ≡ (one && other) }
{
    one && other
}

fn either(one: bool, other: bool) -> bool
    ensures { result ≡ (one || other) }
{
    one || other
}

// The type that a request asks for, if it is one.
fn asked_for(url: &str) -> TypeSet
    ensures { set_of result ≡ asked_for (type_of_url url.now) }
{
    match TypeName::from_url(url) {
        Some(kind) => TypeSet::only(kind),
        None => TypeSet::none(),
    }
}

// The types of which there are writes.
fn written(batch: &Batch) -> TypeSet
    ensures { set_of result ≡ written batch.now }
{
    TypeSet {
        cluster: !batch.cluster.is_empty(),
        endpoint: !batch.endpoint.is_empty(),
        listener: !batch.listener.is_empty(),
        route: !batch.route.is_empty(),
        secret: !batch.secret.is_empty(),
    }
}
