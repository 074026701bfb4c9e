// What is counted of a replica.
ghost use Rattle.std.specs.Prelude.{◌≡◌};
ghost use Rattle.xds_stats.specs.Boards.{more};

use crate::counts::Counts;
use crate::doors::Doors;
use crate::latencies::Latencies;
use xds_ledger::VariantName;

// The count once one more has come.
pub(crate) fn more(count: u64) -> u64
    ensures { result ≡ more count }
{
    count.saturating_add(1)
}

/// How many replies to polls over HTTP had which status.
#[derive(Clone, Copy, Debug, PartialEq, Eq)]
pub struct RestCounts {
    /// 200.
    pub ok: u64,
    /// 304.
    pub unchanged: u64,
    /// 400.
    pub bad: u64,
    /// 503.
    pub unavailable: u64,
    /// Any other.
    pub other: u64,
}

impl RestCounts {
    ghost use Rattle.std.specs.Prelude.{◌≡◌};
    ghost use Rattle.xds_stats.specs.Boards.{rest_after};

    /// None was given.
    pub fn new() -> RestCounts
        ensures { result ≡ record { ok = 0; unchanged = 0; bad = 0; unavailable = 0; other = 0 } }
    {
        RestCounts {
            ok: 0,
            unchanged: 0,
            bad: 0,
            unavailable: 0,
            other: 0,
        }
    }

    /// One of this status was given.
    pub fn count(&mut self, status: u16)
        ensures { self.new ≡ rest_after self.old status }
    {
        if status == 200 {
            self.ok = more(self.ok);
            return;
        }
        if status == 304 {
            self.unchanged = more(self.unchanged);
            return;
        }
        if status == 400 {
            self.bad = more(self.bad);
            return;
        }
        if status == 503 {
            self.unavailable = more(self.unavailable);
            return;
        }
        self.other = more(self.other);
    }
}

/// How many open streams are of which variant.
#[derive(Clone, Copy, Debug, PartialEq, Eq)]
pub struct StreamCounts {
    pub sotw: u64,
    pub delta: u64,
    /// Those on which no request has come.
    pub silent: u64,
}

impl StreamCounts {
    ghost use Rattle.std.specs.Prelude.{◌≡◌};
    ghost use Rattle.xds_stats.specs.Boards.{streams_after};

    /// None is open.
    pub fn new() -> StreamCounts
        ensures { result ≡ record { sotw = 0; delta = 0; silent = 0 } }
    {
        StreamCounts {
            sotw: 0,
            delta: 0,
            silent: 0,
        }
    }

    /// One more is open.
    pub fn count(&mut self, variant: Option<VariantName>)
        ensures { self.new ≡ streams_after self.old variant }
    {
        let Some(variant) = variant else {
            self.silent = more(self.silent);
            return;
        };
        if variant == VariantName::StateOfTheWorld {
            self.sotw = more(self.sotw);
            return;
        }
        self.delta = more(self.delta);
    }
}

/// What was counted of a journal.
#[derive(Clone, Copy, Debug, PartialEq, Eq)]
pub struct JournalCounts {
    /// The events that left a record.
    pub records: u64,
    /// How often it was cut, and couldn't be.
    pub cuts: u64,
    pub failed_cuts: u64,
    /// The parts that other replicas told, and those that left no record.
    pub parts: u64,
    pub lost_parts: u64,
}

impl JournalCounts {
    ghost use Rattle.std.specs.Prelude.{◌≡◌, false};
    ghost use Rattle.xds_stats.specs.Boards.{cut_after, recorded_after};

    /// Nothing happened.
    pub fn new() -> JournalCounts
        ensures { result ≡ record { records = 0; cuts = 0; failed_cuts = 0; parts = 0; lost_parts = 0 } }
    {
        JournalCounts {
            records: 0,
            cuts: 0,
            failed_cuts: 0,
            parts: 0,
            lost_parts: 0,
        }
    }

    /// An event left a record, or none. A part that another replica told may be lost so.
    pub fn count(&mut self, is_part: bool, left_record: bool)
        ensures { self.new ≡ recorded_after self.old is_part left_record }
    {
        if !left_record {
            self.lose(is_part);
            return;
        }
        self.records = more(self.records);
        if is_part {
            self.parts = more(self.parts);
        }
    }

    // An event left no record.
    fn lose(&mut self, is_part: bool)
        ensures { self.new ≡ recorded_after self.old is_part false }
    {
        if is_part {
            self.lost_parts = more(self.lost_parts);
        }
    }

    /// The journal was cut, or couldn't be.
    pub fn cut(&mut self, went_well: bool)
        ensures { self.new ≡ cut_after self.old went_well }
    {
        if went_well {
            self.cuts = more(self.cuts);
            return;
        }
        self.failed_cuts = more(self.failed_cuts);
    }
}

/// What was counted of a replica by now.
#[derive(Clone, Copy, Debug, PartialEq, Eq)]
pub struct Numbers {
    pub types: Counts,
    pub streams: StreamCounts,
    pub doors: Doors,
    pub rest: RestCounts,
    pub journal: JournalCounts,
    /// The changes that were refused.
    pub refused: u64,
    /// How many microseconds after the last change the last response was polled, where one was.
    pub lag: Option<u64>,
    /// How long puts took until streams accepted them.
    pub accepts: Latencies,
}
