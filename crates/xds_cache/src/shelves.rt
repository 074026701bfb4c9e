// The shelves of a client, one a type.
ghost use Rattle.std.specs.Prelude.{◌≡◌};
ghost use Rattle.xds_resource.specs.PerType.{at, with_at, each, per_type};
ghost use Rattle.xds_cache.specs.Shelves.{bare, connected, lost};

use crate::shelf::Shelf;
use std::alloc::Global;
use std::marker::Model;
use std::mem;
use xds_resource::{TypeName, for_type};

pub(crate) struct Shelves {
    cluster: Shelf,
    endpoint: Shelf,
    listener: Shelf,
    route: Shelf,
    secret: Shelf,
}

// Written out: docs/PROVING.md, "Drops".
impl Drop for Shelves {
    fn drop(self) {
        let Shelves {
            cluster: _,
            endpoint: _,
            listener: _,
            route: _,
            secret: _,
        } = self;
    }
}

impl Model for Shelves {
    ghost use Rattle.xds_resource.specs.PerType.{PerType, per_type_code};
    ghost use Rattle.xds_cache.specs.Shelves as shelves;
    ghost use Rattle.xds_cache.specs.Shelves.{shelf_code};

    ghost Value = { PerType shelves.Shelf };

    ghost coded = { per_type_code shelf_code };

    ghost view = { λ s. record { cluster = s.cluster; endpoint = s.endpoint; listener = s.listener; route = s.route; secret = s.secret } };
}

// Puts a value in the place of another, which is dropped here, where its parts aren't looked at.
fn set<S: Drop>(place: &mut S, value: S)
    ensures { place.new ≡ value }
{
    *place = value;
}

impl Shelves {
    /// Those of a client that wants nothing.
    pub(crate) fn new(alloc: Global) -> Shelves
        ensures { result ≡ each bare }
    {
        Shelves {
            cluster: Shelf::new(alloc),
            endpoint: Shelf::new(alloc),
            listener: Shelf::new(alloc),
            route: Shelf::new(alloc),
            secret: Shelf::new(alloc),
        }
    }

    pub(crate) fn get(&self, kind: TypeName) -> &Shelf
        ensures { result.now ≡ at self.now kind }
    {
        for_type!(kind, shelf in &self => shelf)
    }

    /// Puts a shelf in the place of the one of its type.
    pub(crate) fn put(&mut self, kind: TypeName, shelf: Shelf)
        ensures { self.new ≡ with_at self.old kind shelf }
    {
        for_type!(kind, held in &mut self => set(held, shelf))
    }

    /// Takes out the shelf of a type, and leaves that of a client that wants nothing. It takes no memory.
    pub(crate) fn take(&mut self, alloc: Global, kind: TypeName) -> Shelf
        ensures taken { result ≡ at self.old kind }
        ensures left { self.new ≡ with_at self.old kind bare }
    {
        let empty = Shelf::new(alloc);
        for_type!(kind, held in &mut self => mem::replace(held, empty))
    }

    /// Begins a stream.
    pub(crate) fn connect(&mut self)
        ensures { self.new ≡ per_type (λ t. connected (at self.old t)) }
    {
        self.cluster.connect();
        self.endpoint.connect();
        self.listener.connect();
        self.route.connect();
        self.secret.connect();
    }

    /// Once the stream is lost.
    pub(crate) fn lose(&mut self)
        ensures { self.new ≡ per_type (λ t. lost (at self.old t)) }
    {
        self.cluster.lose();
        self.endpoint.lose();
        self.listener.lose();
        self.route.lose();
        self.secret.lose();
    }
}
