// What clients of both variants share.
ghost use Rattle.std.specs.Prelude.{◌≡◌, true, false, [], if◌then◌else◌, string_bytes, IfOk, IfErr, OnOk, OnErr};
ghost use Rattle.xds_resource.specs.declared.refusal.Refusal.TheVariants.{OutOfMemory};
ghost use Rattle.xds_cache.specs.Shelves.{bare, wanting as wanting_now, wants_some as some_wanted};
ghost use Rattle.xds_resource.specs.Types.{row};
ghost use Rattle.xds_cache.specs.Deliveries.{cache_after};
ghost use Rattle.xds_cache.specs.Clients.{fresh, shelf as shelf_of, with_shelf, node as node_of, is_sent as sent, changing, linked, unlinked, broken_off, addressing};

use crate::holding::Holding;
use crate::shelf::Shelf;
use crate::shelves::Shelves;
use crate::wants::{Wants, wants_some};
use std::alloc::Global;
use std::marker::Model;
use xds_message::Node;
use xds_resource::{NameMap, Refusal, TypeName};

/// A client, whichever its variant, and whether it has a stream or not.
pub(crate) struct Client {
    node_id: String,
    // It is sent, and looked at nowhere else.
    cluster: String,
    greeted: bool,
    broken: bool,
    shelves: Shelves,
}

// Written out: docs/PROVING.md, "Drops".
impl Drop for Client {
    fn drop(self) {
        let Client {
            node_id: _,
            cluster: _,
            greeted: _,
            broken: _,
            shelves: _,
        } = self;
    }
}

impl Model for Client {
    ghost use Rattle.std.specs.Prelude.{string_bytes};
    ghost use Rattle.xds_cache.specs.Clients as clients;
    ghost use Rattle.xds_cache.specs.Clients.{client_code};

    ghost Value = { clients.Client };

    ghost coded = { client_code };

    ghost view = { λ c. record { node_id = string_bytes c.node_id; cluster = string_bytes c.cluster; greeted = c.greeted; broken = c.broken; shelves = c.shelves } };
}

impl Client {
    /// A client that wants nothing.
    pub(crate) fn new(alloc: Global, node_id: String, cluster: String) -> Client
        ensures { result ≡ fresh (string_bytes node_id) (string_bytes cluster) }
    {
        Client {
            node_id,
            cluster,
            greeted: false,
            broken: false,
            shelves: Shelves::new(alloc),
        }
    }

    /// What the client keeps of a type.
    pub(crate) fn shelf(&self, kind: TypeName) -> &Shelf
        ensures { result.now ≡ shelf_of self.now kind }
    {
        self.shelves.get(kind)
    }

    /// Whether something of a type is wanted.
    pub(crate) fn wants(&self, kind: TypeName) -> bool
        ensures { result ≡ some_wanted (shelf_of self.now kind).wants }
    {
        wants_some(&self.shelf(kind).wants)
    }

    pub(crate) fn put_shelf(&mut self, kind: TypeName, shelf: Shelf)
        ensures { self.new ≡ with_shelf self.old kind shelf }
    {
        self.shelves.put(kind, shelf);
    }

    /// Takes out what is kept of a type, and leaves what a client keeps that wants nothing. It takes no memory.
    pub(crate) fn take_shelf(&mut self, alloc: Global, kind: TypeName) -> Shelf
        ensures taken { result ≡ shelf_of self.old kind }
        ensures left { self.new ≡ with_shelf self.old kind bare }
    {
        self.shelves.take(alloc, kind)
    }

    /// After an answer to a poll that is taken as this version: it states this, and removes these names. All or
    /// nothing.
    pub(crate) fn poll(
        &mut self,
        alloc: Global,
        kind: TypeName,
        removed: &Wants,
        stated: NameMap<Holding>,
        version: &str,
    ) -> Result<(), Refusal>
        ensures ok { OnOk result (self.new ≡ with_shelf self.old kind (record (shelf_of self.old kind) {
          cache = cache_after kind (shelf_of self.old kind).wants (row kind).is_complete removed.now stated (shelf_of self.old kind).cache;
          nonce = [];
          accepted = version.now;
          asked = false;
        })) }
        ensures same { OnErr result (self.new ≡ self.old) }
        ensures err { IfErr result (λ e. e ≡ OutOfMemory) }
    {
        let mut shelf = self.take_shelf(alloc, kind);
        let whole = kind.is_complete();
        let polled = shelf.poll(alloc, kind, whole, removed, stated, version);
        self.put_shelf(kind, shelf);
        polled
    }

    /// Whether the client sent on this stream who it is.
    pub(crate) fn has_greeted(&self) -> bool
        ensures { result ≡ self.now.greeted }
    {
        self.greeted
    }

    // rule: groups
    /// Who asks, unless that was said before on this stream.
    pub(crate) fn node(&self, alloc: Global, greeted: bool) -> Result<Option<Node>, Refusal>
        ensures ok { IfOk result (λ n. n ≡ node_of greeted self.now) }
        ensures err { IfErr result (λ e. e ≡ OutOfMemory) }
    {
        if greeted {
            return Ok(None);
        }
        Ok(Some(Node {
            id: String::from_str(alloc, self.node_id.as_str())?,
            cluster: String::from_str(alloc, self.cluster.as_str())?,
        }))
    }

    /// Whether the client found no memory for a response.
    pub(crate) fn is_broken(&self) -> bool
        ensures { result ≡ self.now.broken }
    {
        self.broken
    }

    /// It found no memory for a response.
    pub(crate) fn break_off(&mut self)
        ensures { self.new ≡ broken_off self.old }
    {
        self.broken = true;
    }

    /// The type of a response, by its URL. `NoStream` where the client can't use its stream, and `BadMessage` where it
    /// asked for no such type on it.
    pub(crate) fn addressed(&self, type_url: &str) -> Result<TypeName, Refusal>
        ensures { result ≡ addressing self.now type_url.now }
    {
        if self.broken {
            return Err(Refusal::NoStream);
        }
        match TypeName::from_url(type_url) {
            Some(kind) if self.shelf(kind).asked => Ok(kind),
            _ => Err(Refusal::BadMessage),
        }
    }

    /// Whether a change to these is sent, where the client is on a stream or not.
    pub(crate) fn is_sent(&self, up: bool, kind: TypeName, wants: &Wants) -> bool
        ensures { result ≡ sent up (shelf_of self.now kind) wants.now }
    {
        up && (self.shelf(kind).asked || wants_some(wants))
    }

    /// What is kept of a type once the client wants these of it, and asked for them now or before.
    pub(crate) fn wanting(
        &self,
        alloc: Global,
        sent: bool,
        kind: TypeName,
        wants: Wants,
    ) -> Result<Shelf, Refusal>
        ensures ok { IfOk result (λ s. s ≡ wanting_now kind wants (if sent then true else (shelf_of self.now kind).asked) (shelf_of self.now kind)) }
        ensures err { IfErr result (λ e. e ≡ OutOfMemory) }
    {
        let before = self.shelf(kind);
        before.wanting(alloc, kind, wants, sent || before.asked)
    }

    /// The client wants other texts of a type.
    pub(crate) fn change(&mut self, sent: bool, kind: TypeName, shelf: Shelf)
        ensures { self.new ≡ changing sent kind shelf self.old }
    {
        self.greeted = self.greeted || sent;
        self.shelves.put(kind, shelf);
    }

    /// On a new stream.
    pub(crate) fn connect(&mut self, greeted: bool)
        ensures { self.new ≡ linked greeted self.old }
    {
        self.greeted = greeted;
        self.shelves.connect();
    }

    /// Once the stream is lost.
    pub(crate) fn lose(&mut self)
        ensures { self.new ≡ unlinked self.old }
    {
        self.greeted = false;
        self.broken = false;
        self.shelves.lose();
    }
}
