// The puts and deletions that were made at a replica, as far as streams wait for them.
use std::time::Instant;
use xds_resource::TypeName;

/// What was made of one type.
#[derive(Clone, Copy)]
pub struct PutMark {
    /// How many there were.
    pub made: u64,
    /// When the last one was made, where that is known.
    pub at: Option<Instant>,
}

/// The same of each type.
#[derive(Clone, Copy)]
pub struct PutCounts {
    pub cluster: PutMark,
    pub endpoint: PutMark,
    pub listener: PutMark,
    pub route: PutMark,
    pub secret: PutMark,
}

// Nothing was made.
const NOTHING: PutMark = PutMark { made: 0, at: None };

impl PutCounts {
    ghost use Rattle.std.specs.Prelude.{◌≡◌};
    ghost use Rattle.xds_stats.specs.Latencies.{mark_at, marked_at};

    /// Nothing was made.
    pub fn new() -> PutCounts {
        PutCounts {
            cluster: NOTHING,
            endpoint: NOTHING,
            listener: NOTHING,
            route: NOTHING,
            secret: NOTHING,
        }
    }

    /// What was made of a type.
    pub fn of(&self, kind: TypeName) -> PutMark
        ensures { result ≡ mark_at self.now kind }
    {
        match kind {
            TypeName::Cluster => self.cluster,
            TypeName::Endpoint => self.endpoint,
            TypeName::Listener => self.listener,
            TypeName::Route => self.route,
            TypeName::Secret => self.secret,
        }
    }

    /// One more was made of a type.
    pub fn put(&mut self, kind: TypeName, at: Option<Instant>)
        ensures { self.new ≡ marked_at self.old kind at }
    {
        let mark = PutMark {
            made: self.of(kind).made.saturating_add(1),
            at,
        };
        match kind {
            TypeName::Cluster => self.cluster = mark,
            TypeName::Endpoint => self.endpoint = mark,
            TypeName::Listener => self.listener = mark,
            TypeName::Route => self.route = mark,
            TypeName::Secret => self.secret = mark,
        }
    }
}
