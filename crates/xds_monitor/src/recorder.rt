// A replica's trace, as threads record it.
ghost use Rattle.std.specs.Prelude.{◌≡◌};

use crate::recording::{Piece, Recording};
use crate::reel::{Reel, Seals};
use std::alloc::Global;
use std::fs::File;
use std::io::Write;
use std::sync::{Condvar, Mutex, Wait};
use std::time::{Clock, Duration, Instant};
use xds_node::Host;
use xds_notes::ending::left_of;
use xds_resource::Refusal;

/// A recorder on a file.
pub type Tape = Recorder<Reel<File>>;

// How a recording ended before the server did, if it did, and whether it is finished.
#[derive(Clone, Copy)]
struct RecordingEnd {
    ended: Option<Refusal>,
    is_finished: bool,
}

/// Where the segments of a replica go. A thread that cuts the journal has its lock for as long as it writes, so that segments come
/// in order, and only one of them is in memory: who fills the journal meanwhile waits. How it ended lies under a lock of its own, so that
/// who looks never waits for a write.
pub struct Recorder<W> {
    alloc: Global,
    replica: u16,
    recording: Mutex<Recording<W>>,
    outcome: Mutex<RecordingEnd>,
    // It is finished.
    finished: Condvar,
}

// Written out: docs/PROVING.md, "Drops".
impl<W: Drop> Drop for Recorder<W> {
    fn drop(self) {
        let Recorder {
            alloc: _,
            replica: _,
            recording: _,
            outcome: _,
            finished: _,
        } = self;
    }
}

impl<W: Write> Recorder<W> {
    /// That of a replica at which nothing happened.
    pub fn new(alloc: Global, replica: u16, writer: W) -> Recorder<W> {
        Recorder {
            alloc,
            replica,
            recording: Mutex::new(Recording::new(writer)),
            outcome: Mutex::new(RecordingEnd {
                ended: None,
                is_finished: false,
            }),
            finished: Condvar::new(),
        }
    }

    /// The number of the replica.
    pub fn replica(&self) -> u16
        ensures { result ≡ self.now.replica }
    {
        self.replica
    }

    // rule: cuts
    /// Cuts the journal of the replica, and writes what was cut. The node's lock is held for the cut alone. The outer answer is that
    /// of the cut; the inner one is the refusal by which the recording ended just now, if it did. It may wait for others that cut.
    pub fn record<R: Wait, H: Host<Segment: Piece>>(
        &self,
        rt: &R,
        node: &H,
    ) -> Result<Result<(), Refusal>, Refusal> {
        let mut recording = self.recording.lock(rt);
        match node.cut(rt) {
            Ok(segment) => Ok(self.noted(rt, recording.take(self.alloc, &segment))),
            Err(refusal) => Err(refusal),
        }
    }

    // rule: cuts
    /// The same where the journal is full, and none where it isn't, as where another thread has cut it meanwhile.
    pub fn record_full<R: Wait, H: Host<Segment: Piece>>(
        &self,
        rt: &R,
        node: &H,
    ) -> Result<Option<Result<(), Refusal>>, Refusal> {
        let mut recording = self.recording.lock(rt);
        match node.cut_full(rt) {
            Ok(Some(segment)) => {
                let written = recording.take(self.alloc, &segment);
                Ok(Some(self.noted(rt, written)))
            }
            Ok(None) => Ok(None),
            Err(refusal) => Err(refusal),
        }
    }

    // Notes the refusal by which it ended just now, if it did.
    fn noted<R: Wait>(&self, rt: &R, ended: Result<(), Refusal>) -> Result<(), Refusal>
        ensures { result ≡ ended }
    {
        if let Err(refusal) = ended {
            self.outcome.lock(rt).ended = Some(refusal);
        }
        ended
    }

    /// The refusal by which it ended, if it did. It waits for no write.
    pub fn ended<R: Wait>(&self, rt: &R) -> Option<Refusal> {
        self.outcome.lock(rt).ended
    }

    /// It is finished, and how it ended is told.
    pub fn finish<R: Wait>(&self, rt: &R) {
        self.outcome.lock(rt).is_finished = true;
        self.finished.notify_all();
    }

    /// Waits until it is finished, but no longer than this time, whatever is written meanwhile. Answers whether it is.
    pub fn wait<R: Wait + Clock>(&self, rt: &R, time: Duration) -> bool {
        let Ok(begun) = Instant::now(rt) else {
            return false;
        };
        let mut outcome = self.outcome.lock(rt);
        for _ in 0..u64::MAX {
            if outcome.is_finished {
                return true;
            }
            let Some(left) = left_of(rt, begun, time) else {
                return false;
            };
            let (next, _) = self.finished.wait_timeout(rt, outcome, left);
            outcome = next;
        }
        false
    }
}

impl<W: Seals> Recorder<W> {
    /// Seals it, where the rest was cut so: whole, or by the refusal of that cut. Answers the refusal by which it ended just now, if it
    /// did.
    pub fn seal<R: Wait>(&self, rt: &R, rest: Result<(), Refusal>) -> Result<(), Refusal> {
        let ended = self.recording.lock(rt).finish(rest);
        self.noted(rt, ended)
    }

    /// Ends it where what was written is gone. Answers the refusal by which it ended just now, if it did. It may wait for others that
    /// write.
    pub fn look<R: Wait>(&self, rt: &R) -> Result<(), Refusal> {
        let ended = self.recording.lock(rt).look();
        self.noted(rt, ended)
    }
}
