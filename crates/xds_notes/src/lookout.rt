// What is known of a replica for those who look: threads note it, and it is told or shown.
ghost use Rattle.std.specs.Prelude.{◌≡◌};

use crate::ending::Ending;
use crate::note::Note;
use std::alloc::Global;
use std::sync::{Arc, Mutex, Wait};
use xds_events::Reply;
use xds_ledger::{Outcome, VariantName};
use xds_message::Draft;
use xds_resource::{Refusal, Stamp};
use xds_stats::board::Board;
use xds_stats::html::rows_html;
use xds_stats::log_event::{FirstRequest, LogEvent, Maker, Rejection, StreamPlace};
use xds_stats::moment::Moment;
use xds_stats::numbers::Numbers;
use xds_stats::plain_status::plain_text;
use xds_stats::sight::{Heard, Sight};
use xds_stats::status_text::streams_text;

/// What a replica's streams may be.
#[derive(Clone, Copy, Debug, PartialEq, Eq)]
pub struct Limits {
    /// How many there are at a time, at most; any number, where none is said.
    pub streams: Option<u16>,
    /// Within how many seconds the first frame of each comes; at any time, where none is said.
    pub idle_seconds: Option<u16>,
    /// Whether a put is refused by which the whole response of its type would be too long for a frame.
    pub refuses_long: bool,
    /// By how many threads they are served, from 1; by two, where none is said.
    pub workers: Option<u16>,
}

/// Where threads note what happens at a replica. It has a lock of its own, which is held for a note at a time, and never while the
/// node's is waited for.
pub struct Lookout {
    alloc: Global,
    /// The place of the replica among those of the server, from 1.
    replica: u16,
    /// Its number, by which its writes are stamped.
    number: u16,
    limits: Limits,
    board: Mutex<Board>,
    ending: Arc<Ending>,
}

// Written out: docs/PROVING.md, "Drops".
impl Drop for Lookout {
    fn drop(self) {
        let Lookout {
            alloc: _,
            replica: _,
            number: _,
            limits: _,
            board: _,
            ending: _,
        } = self;
    }
}

impl Lookout {
    /// That of a replica at which nothing happened, by its place among those of the server, from 1, and its number.
    pub fn new(
        alloc: Global,
        replica: u16,
        number: u16,
        limits: Limits,
        ending: Arc<Ending>,
    ) -> Lookout {
        Lookout {
            alloc,
            replica,
            number,
            limits,
            board: Mutex::new(Board::new(alloc)),
            ending,
        }
    }

    /// What threads tell of the server.
    pub fn ending(&self) -> &Ending {
        &self.ending
    }

    /// Within how many seconds the first frame of a stream has to come.
    pub fn idle_seconds(&self) -> Option<u16>
        ensures { result ≡ self.now.limits.idle_seconds }
    {
        self.limits.idle_seconds
    }

    /// By how many threads the streams are served, if that is said.
    pub fn workers(&self) -> Option<u16>
        ensures { result ≡ self.now.limits.workers }
    {
        self.limits.workers
    }

    /// Whether a put is refused by which the whole response of its type would be too long for a frame.
    pub fn refuses_long(&self) -> bool
        ensures { result ≡ self.now.limits.refuses_long }
    {
        self.limits.refuses_long
    }

    /// A connection came: whether it is served as a stream. If so, it leaves once it ends. None is once the server ends.
    pub fn admit<R: Wait>(&self, rt: &R, now: Moment) -> bool {
        let has_ended = self.ending.has_come(rt);
        let is_served = self.board.lock(rt).admit(has_ended, self.limits.streams);
        if !is_served && !has_ended && self.ending.logs() {
            self.log(rt, now, Ok(LogEvent::TurnedAway(self.replica)));
        }
        is_served
    }

    /// A connection that was served has ended.
    pub fn leave<R: Wait>(&self, rt: &R) {
        self.board.lock(rt).doors.leave();
    }

    fn place(&self, stream: u64) -> StreamPlace {
        StreamPlace {
            replica: self.replica,
            stream,
        }
    }

    // Tells an event, where events are told, and there was memory for it.
    fn log<R: Wait>(&self, rt: &R, now: Moment, event: Result<LogEvent, Refusal>) {
        if let Ok(event) = event {
            self.ending.log(rt, now.millis, event);
        }
    }

    /// A stream was opened for a client at this address.
    pub fn opened<R: Wait>(&self, rt: &R, stream: u64, peer: String, now: Moment) {
        if self.ending.logs() {
            let event = connected(self.alloc, self.place(stream), peer.as_str());
            self.log(rt, now, event);
        }
        let mut board = self.board.lock(rt);
        let _ = board.open(stream, peer, now.millis);
    }

    /// A stream ended, by a refusal or without one.
    pub fn ended<R: Wait>(&self, rt: &R, stream: u64, refusal: Option<Refusal>, now: Moment) {
        self.board.lock(rt).close(stream);
        if self.ending.logs() {
            self.log(rt, now, Ok(LogEvent::Ended(self.place(stream), refusal)));
        }
    }

    /// The place of the replica among those of the server, from 1.
    pub fn replica(&self) -> u16
        ensures { result ≡ self.now.replica }
    {
        self.replica
    }

    /// Its number, by which its writes are stamped.
    pub fn number(&self) -> u16
        ensures { result ≡ self.now.number }
    {
        self.number
    }

    /// What was counted by now.
    pub fn numbers<R: Wait>(&self, rt: &R) -> Numbers {
        self.board.lock(rt).numbers()
    }

    /// What is known of the open streams, as a list of JSON.
    pub fn streams<R: Wait>(&self, rt: &R, alloc: Global) -> Result<String, Refusal> {
        streams_text(alloc, &self.board.lock(rt))
    }

    /// What is known of the open streams, as rows of a table of HTML.
    pub fn rows<R: Wait>(&self, rt: &R, alloc: Global) -> Result<String, Refusal> {
        rows_html(alloc, &self.board.lock(rt))
    }

    /// What is known of the open streams, as lines of a plain text.
    pub fn lines<R: Wait>(&self, rt: &R, alloc: Global) -> Result<String, Refusal> {
        plain_text(alloc, self.replica, &self.board.lock(rt))
    }

    /// A picture of the changes and the responses of the last minutes up to this moment of the wall clock, as SVG.
    pub fn picture<R: Wait>(&self, rt: &R, alloc: Global, millis: u64) -> Result<String, Refusal> {
        self.board.lock(rt).trend.svg(alloc, millis)
    }

    /// The journal was cut.
    pub fn cut<R: Wait>(&self, rt: &R) {
        self.board.lock(rt).journal.cut(true);
    }

    /// The journal couldn't be cut.
    pub fn cut_failed<R: Wait>(&self, rt: &R, refusal: Refusal, now: Moment) {
        self.board.lock(rt).journal.cut(false);
        if self.ending.logs() {
            self.log(rt, now, Ok(LogEvent::CutFailed(self.replica, refusal)));
        }
    }

    /// The recording of the replica's trace ended by a refusal, if it did. That is told in any case.
    pub fn recording_ended<R: Wait>(&self, rt: &R, ended: Result<(), Refusal>) {
        if let Err(refusal) = ended {
            self.ending
                .announce(rt, Note::RecordingEnded(self.replica, refusal));
        }
    }

    /// The first frame of a stream didn't come within so many seconds.
    pub fn idle<R: Wait>(&self, rt: &R, stream: u64, seconds: u16, now: Moment) {
        if self.ending.logs() {
            self.log(rt, now, Ok(LogEvent::Idle(self.place(stream), seconds)));
        }
    }

    /// A change is made here, as a write of this stamp.
    pub fn changed<R: Wait>(&self, rt: &R, maker: Maker, stamp: Stamp, millis: u64) {
        if self.ending.logs() {
            let event = LogEvent::Changed(self.replica, maker, stamp);
            self.ending.log(rt, millis, event);
        }
    }

    /// A change was refused.
    pub fn refused<R: Wait>(&self, rt: &R) {
        self.board.lock(rt).refuse();
    }

    /// A poll over HTTP was answered with this status.
    pub fn polled<R: Wait>(&self, rt: &R, status: u16) {
        self.board.lock(rt).rest.count(status);
    }

    /// An event that showed this left no record.
    pub fn unrecorded<R: Wait>(&self, rt: &R, sight: &Sight) {
        self.board.lock(rt).journal.count(is_part(sight), false);
    }

    /// An event that showed this was answered so, about now. The events of a stream are to be told one after another, as they were
    /// answered.
    pub fn answered<R: Wait>(
        &self,
        rt: &R,
        sight: &Sight,
        answer: &Result<Reply, Refusal>,
        now: Moment,
    ) {
        self.board.lock(rt).journal.count(is_part(sight), true);
        match (sight, answer) {
            (Sight::Request(stream, heard), Ok(Reply::Answered(outcome))) => {
                self.heard(rt, *stream, heard, *outcome, now);
            }
            (Sight::Poll(stream), Ok(Reply::Polled(Some(draft)))) => {
                self.responded(rt, *stream, draft, now);
            }
            (Sight::Change(kind), Ok(_)) => self.board.lock(rt).change(*kind, now),
            _ => {}
        }
    }

    fn responded<R: Wait>(&self, rt: &R, stream: u64, draft: &Draft, now: Moment) {
        let mut board = self.board.lock(rt);
        board.polled(now);
        board.respond(stream, draft, now);
    }

    fn heard<R: Wait>(&self, rt: &R, stream: u64, heard: &Heard, outcome: Outcome, now: Moment) {
        let news = self.board.lock(rt).hear(stream, heard, outcome, now);
        if !self.ending.logs() {
            return;
        }
        let place = self.place(stream);
        if news.is_first {
            self.log(rt, now, first_request(self.alloc, place, heard));
        }
        if news.is_rejected {
            self.log(rt, now, rejected(self.alloc, place, heard));
        }
        if heard.kind.is_none() {
            self.log(rt, now, unknown(self.alloc, place, heard));
        }
    }
}

fn unknown(alloc: Global, place: StreamPlace, heard: &Heard) -> Result<LogEvent, Refusal> {
    let type_url = String::from_str(alloc, heard.type_url.as_str())?;
    Ok(LogEvent::UnknownType(place, type_url))
}

fn connected(alloc: Global, place: StreamPlace, peer: &str) -> Result<LogEvent, Refusal> {
    Ok(LogEvent::Connected(place, String::from_str(alloc, peer)?))
}

fn first_request(alloc: Global, place: StreamPlace, heard: &Heard) -> Result<LogEvent, Refusal> {
    let (node, cluster) = match &heard.node {
        Some((node, cluster)) => (node.as_str(), cluster.as_str()),
        None => ("", ""),
    };
    let first = FirstRequest {
        node: String::from_str(alloc, node)?,
        cluster: String::from_str(alloc, cluster)?,
        type_url: String::from_str(alloc, heard.type_url.as_str())?,
        is_delta: heard.variant == VariantName::Delta,
    };
    Ok(LogEvent::FirstRequest(place, first))
}

fn rejected(alloc: Global, place: StreamPlace, heard: &Heard) -> Result<LogEvent, Refusal> {
    let message = match &heard.rejection {
        Some(message) => message.as_str(),
        None => "",
    };
    let rejection = Rejection {
        type_url: String::from_str(alloc, heard.type_url.as_str())?,
        nonce: String::from_str(alloc, heard.nonce.as_str())?,
        message: String::from_str(alloc, message)?,
    };
    Ok(LogEvent::Rejected(place, rejection))
}

fn is_part(sight: &Sight) -> bool {
    match sight {
        Sight::Part => true,
        _ => false,
    }
}
