// What is counted of the types that a replica serves.
use crate::numbers::more;
use xds_resource::TypeName;

/// What was counted of one type.
#[derive(Clone, Copy, Debug, PartialEq, Eq)]
pub struct TypeCounts {
    /// The responses that streams were told.
    pub responses: u64,
    /// Those of them that were accepted, and those that were rejected.
    pub acks: u64,
    pub nacks: u64,
}

impl TypeCounts {
    ghost use Rattle.std.specs.Prelude.{◌≡◌};
    ghost use Rattle.xds_stats.specs.Boards.{judged, no_answers};

    /// Nothing was counted.
    pub fn new() -> TypeCounts
        ensures { result ≡ no_answers }
    {
        TypeCounts {
            responses: 0,
            acks: 0,
            nacks: 0,
        }
    }

    // These counts once a response was accepted (true) or rejected (false), if one was.
    fn judged(self, verdict: Option<bool>) -> TypeCounts
        ensures { result ≡ judged self verdict }
    {
        let mut counts = self;
        match verdict {
            Some(true) => counts.acks = more(counts.acks),
            Some(false) => counts.nacks = more(counts.nacks),
            None => {}
        }
        counts
    }
}

/// The counts of each type.
#[derive(Clone, Copy, Debug, PartialEq, Eq)]
pub struct Counts {
    pub cluster: TypeCounts,
    pub endpoint: TypeCounts,
    pub listener: TypeCounts,
    pub route: TypeCounts,
    pub secret: TypeCounts,
}

impl Counts {
    ghost use Rattle.std.specs.Prelude.{◌≡◌};
    ghost use Rattle.xds_stats.specs.Boards.{counts_at, judged_at, no_answers, responded_at, with_counts};

    /// Nothing was counted.
    pub fn new() -> Counts
        ensures { result ≡ record { cluster = no_answers; endpoint = no_answers; listener = no_answers; route = no_answers; secret = no_answers } }
    {
        Counts {
            cluster: TypeCounts::new(),
            endpoint: TypeCounts::new(),
            listener: TypeCounts::new(),
            route: TypeCounts::new(),
            secret: TypeCounts::new(),
        }
    }

    /// Those of a type.
    pub fn of(&self, kind: TypeName) -> TypeCounts
        ensures { result ≡ counts_at self.now kind }
    {
        match kind {
            TypeName::Cluster => self.cluster,
            TypeName::Endpoint => self.endpoint,
            TypeName::Listener => self.listener,
            TypeName::Route => self.route,
            TypeName::Secret => self.secret,
        }
    }

    fn set(&mut self, kind: TypeName, counts: TypeCounts)
        ensures { self.new ≡ with_counts self.old kind counts }
    {
        match kind {
            TypeName::Cluster => self.cluster = counts,
            TypeName::Endpoint => self.endpoint = counts,
            TypeName::Listener => self.listener = counts,
            TypeName::Route => self.route = counts,
            TypeName::Secret => self.secret = counts,
        }
    }

    /// A response of a type was accepted (true) or rejected (false), if one was.
    pub fn judge(&mut self, kind: TypeName, verdict: Option<bool>)
        ensures { self.new ≡ judged_at self.old kind verdict }
    {
        let counts = self.of(kind).judged(verdict);
        self.set(kind, counts);
    }

    /// A stream was told a response of a type.
    pub fn respond(&mut self, kind: TypeName)
        ensures { self.new ≡ responded_at self.old kind }
    {
        let mut counts = self.of(kind);
        counts.responses = more(counts.responses);
        self.set(kind, counts);
    }
}
