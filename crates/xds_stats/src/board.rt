// What is known of the streams of a replica, and what was counted of it: for those who look, and of no account to what is answered.
ghost use Rattle.std.specs.Prelude.{◌≡◌};
ghost use Rattle.xds_stats.specs.Boards.{is_nack, taken_kind};

use crate::counts::Counts;
use crate::doors::Doors;
use crate::latencies::{Latencies, micros_between};
use crate::moment::Moment;
use crate::numbers::{JournalCounts, Numbers, RestCounts, StreamCounts, more};
use crate::puts::PutCounts;
use crate::sight::Heard;
use crate::stream_status::StreamStatus;
use crate::trend::Trend;
use std::alloc::Global;
use std::collections::BTreeMap;
use std::time::Instant;
use xds_ledger::Outcome;
use xds_message::Draft;
use xds_resource::{Refusal, TypeName};

/// What is known of a replica.
#[derive(Drop)]
pub struct Board {
    alloc: Global,
    /// Its open streams, by their numbers.
    pub streams: BTreeMap<u64, StreamStatus>,
    pub counts: Counts,
    /// The connections that are served as streams, and those that weren't.
    pub doors: Doors,
    pub rest: RestCounts,
    pub journal: JournalCounts,
    pub refused: u64,
    // When the last change was made here, and how many microseconds later the last response was polled.
    changed: Option<Instant>,
    pub lag: Option<u64>,
    /// The changes that were made here, of each type, and how long it took until streams accepted them.
    pub puts: PutCounts,
    pub accepts: Latencies,
    /// How many changes and responses there were in the last minutes.
    pub trend: Trend,
}

/// What a request shows that is told.
#[derive(Clone, Copy, Debug, PartialEq, Eq)]
pub struct News {
    /// It is the first on its stream.
    pub is_first: bool,
    /// It rejects the last response.
    pub is_rejected: bool,
}

impl Board {
    ghost use Rattle.std.specs.Prelude.{◌≡◌, ◌&&◌, not, if◌then◌else◌};
    ghost use Rattle.std.specs.Ordering.{nat_cmp};
    ghost use Rattle.std.specs.BTreeMap as tree;
    ghost use Rattle.xds_message.specs.DraftTexts.{kind_of};
    ghost use Rattle.xds_stats.specs.Boards.{heard_at, is_nack, more, responded_at, verdict_on};
    ghost use Rattle.xds_stats.specs.Doorways.{doors_after, has_room};
    ghost use Rattle.xds_stats.specs.Latencies.{marked_at};

    /// That of a replica without a stream.
    pub fn new(alloc: Global) -> Board {
        Board {
            alloc,
            streams: BTreeMap::new(alloc),
            counts: Counts::new(),
            doors: Doors::new(),
            rest: RestCounts::new(),
            journal: JournalCounts::new(),
            refused: 0,
            changed: None,
            lag: None,
            puts: PutCounts::new(),
            accepts: Latencies::new(),
            trend: Trend::new(alloc),
        }
    }

    /// What was counted by now.
    pub fn numbers(&self) -> Numbers
        ensures types { result.types ≡ self.now.counts }
        ensures doors { result.doors ≡ self.now.doors }
        ensures rest { result.rest ≡ self.now.rest }
        ensures journal { result.journal ≡ self.now.journal }
        ensures refused { result.refused ≡ self.now.refused }
        ensures lag { result.lag ≡ self.now.lag }
        ensures accepts { result.accepts ≡ self.now.accepts }
    {
        Numbers {
            types: self.counts,
            streams: self.streams_by_variant(),
            doors: self.doors,
            rest: self.rest,
            journal: self.journal,
            refused: self.refused,
            lag: self.lag,
            accepts: self.accepts,
        }
    }

    fn streams_by_variant(&self) -> StreamCounts {
        let mut streams = StreamCounts::new();
        for status in self.streams.values() {
            streams.count(status.variant);
        }
        streams
    }

    /// A connection came: whether it is served, where no more than so many may be at a time. None is once the server ends.
    pub fn admit(&mut self, has_ended: bool, most: Option<u16>) -> bool
        ensures served { result ≡ (not has_ended && has_room self.old.doors.inside most) }
        ensures after { self.new.doors ≡ (if has_ended then self.old.doors else doors_after self.old.doors most) }
    {
        if has_ended {
            return false;
        }
        self.doors.admit(most)
    }

    /// A change was refused.
    pub fn refuse(&mut self)
        ensures { self.new.refused ≡ more self.old.refused }
    {
        self.refused = more(self.refused);
    }

    /// A change of a type was made here now.
    pub fn change(&mut self, kind: TypeName, now: Moment)
        ensures puts { self.new.puts ≡ marked_at self.old.puts kind now.instant }
        ensures counts { self.new.counts ≡ self.old.counts }
        ensures streams { self.new.streams ≡ self.old.streams }
    {
        self.changed = now.instant;
        self.puts.put(kind, now.instant);
        self.trend.put(now.millis);
    }

    /// A response was polled now.
    pub fn polled(&mut self, now: Moment) {
        if let Some(lag) = micros_between(self.changed, now.instant) {
            self.lag = Some(lag);
        }
    }

    /// A stream was opened, for a client at this address, at this moment of the wall clock.
    pub fn open(&mut self, stream: u64, peer: String, millis: u64) -> Result<(), Refusal> {
        let status = StreamStatus::new(self.alloc, peer, millis);
        match self.streams.insert(stream, status) {
            Ok(_) => Ok(()),
            Err(_) => Err(Refusal::OutOfMemory),
        }
    }

    /// A stream was closed.
    pub fn close(&mut self, stream: u64) {
        drop(self.streams.remove(&stream));
    }

    // What a request says of the last response of its type on a stream: nothing, where it is out of date.
    fn verdict(&self, stream: u64, heard: &Heard, outcome: Outcome) -> Option<bool>
        ensures { result ≡ verdict_on (tree.get nat_cmp self.now.streams stream) heard.now outcome }
    {
        let Some(kind) = taken_kind(heard, outcome) else {
            return None;
        };
        let Some(status) = self.streams.get(&stream) else {
            return None;
        };
        status.types.of(kind).verdict(heard)
    }

    // How long ago the put was made that a stream accepts now, if there is one.
    fn waited(&self, stream: u64, kind: Option<TypeName>, now: Moment) -> Option<u64> {
        let status = self.streams.get(&stream)?;
        micros_between(status.types.of(kind?).put, now.instant)
    }

    // A stream accepts a response of a type now. How long the put took is counted, if it tells one first.
    fn accept(&mut self, stream: u64, kind: Option<TypeName>, now: Moment)
        ensures counts { self.new.counts ≡ self.old.counts }
        ensures streams { self.new.streams ≡ self.old.streams }
    {
        if let Some(micros) = self.waited(stream, kind, now) {
            self.accepts = self.accepts.observed(micros);
        }
    }

    /// A request came on a stream, and this became of it: it was taken, or it is out of date. What it accepts or rejects is counted, and
    /// what it says is noted, as far as there is memory for its texts.
    pub fn hear(&mut self, stream: u64, heard: &Heard, outcome: Outcome, now: Moment) -> News
        ensures counts { self.new.counts ≡ heard_at self.old.counts (tree.get nat_cmp self.old.streams stream) heard.now outcome }
        ensures rejected { result.is_rejected ≡ is_nack (verdict_on (tree.get nat_cmp self.old.streams stream) heard.now outcome) }
    {
        let verdict = self.verdict(stream, heard, outcome);
        if let Some(kind) = heard.kind {
            self.counts.judge(kind, verdict);
        }
        if verdict == Some(true) {
            self.accept(stream, heard.kind, now);
        }
        News {
            is_first: self.note(stream, heard, outcome, now),
            is_rejected: is_nack(verdict),
        }
    }

    // Notes what a request says on a stream. Answers whether it is the first there.
    fn note(&mut self, stream: u64, heard: &Heard, outcome: Outcome, now: Moment) -> bool
        ensures { self.new.counts ≡ self.old.counts }
    {
        let alloc = self.alloc;
        let puts = self.puts;
        let Some(status) = self.streams.get_mut(&stream) else {
            return false;
        };
        let is_first = status.variant.is_none();
        if let Some(kind) = taken_kind(heard, outcome) {
            let made = puts.of(kind).made;
            let _ = status.types.at(kind).hear(alloc, heard, made, now.millis);
        }
        let _ = status.greet(alloc, heard);
        is_first
    }

    /// A stream was told a response. It is counted, and noted as far as there is memory for its texts.
    pub fn respond(&mut self, stream: u64, draft: &Draft, now: Moment)
        ensures { self.new.counts ≡ responded_at self.old.counts (kind_of draft.now) }
    {
        let alloc = self.alloc;
        let kind = draft.kind();
        let made = self.puts.of(kind);
        self.counts.respond(kind);
        self.trend.respond(now.millis);
        if let Some(status) = self.streams.get_mut(&stream) {
            let version = version_of(draft);
            let nonce = draft.nonce();
            let of = status.types.at(kind);
            let _ = of.respond(alloc, version, nonce, made, now.millis);
        }
    }
}

// Whether what a request says is a rejection.
fn is_nack(verdict: Option<bool>) -> bool
    ensures { result ≡ is_nack verdict }
{
    match verdict {
        Some(accepts) => !accepts,
        None => false,
    }
}

// rule: stale-nonce
// The type of a request that was taken.
fn taken_kind(heard: &Heard, outcome: Outcome) -> Option<TypeName>
    ensures { result ≡ taken_kind heard.now outcome }
{
    match outcome {
        Outcome::Taken => heard.kind,
        Outcome::Ignored => None,
    }
}

fn version_of(draft: &Draft) -> &str {
    match draft {
        Draft::Sotw(draft) => draft.version(),
        Draft::Delta(draft) => draft.version(),
    }
}
