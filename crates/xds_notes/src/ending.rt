// How a server ends, and what is told until then: by whichever thread comes to it, and waited for by the first thread.
ghost use Rattle.std.specs.Prelude.{◌≡◌};
ghost use Rattle.xds_notes.specs.Endings.{noted};

use crate::fault::Fault;
use crate::note::Note;
use crate::recent::Recent;
use std::alloc::Global;
use std::collections::VecDeque;
use std::sync::{Condvar, Mutex, MutexGuard, Wait};
use std::time::{Clock, Duration, Instant};
use xds_resource::Refusal;
use xds_stats::log_event::LogEvent;
use xds_stats::moment::utc_text;

/// Why a server ends.
#[derive(Clone, Copy, Debug, PartialEq, Eq)]
pub enum End {
    /// As many streams have ended as were asked for.
    Streams,
    /// An operator stopped it.
    Stopped,
    /// A line of the input, counted from 1, is refused.
    Line(u64, Refusal),
    /// The server can't go on.
    Refused(Refusal),
}

/// What a server tells while it serves.
#[derive(Clone, Copy, Debug, PartialEq, Eq)]
pub struct Telling {
    /// Whether changes that are refused are told.
    pub changes: bool,
    /// Whether what an operator cares for is told.
    pub events: bool,
    /// Whether that is told as JSON.
    pub json: bool,
}

/// As many seconds as frames that were begun have to be written at the end.
pub const DRAIN_SECONDS: u64 = 3;

/// As many notes as wait to be told, at most.
pub const MOST_NOTES: usize = 1_024;

/// What comes next of a server.
#[derive(Drop)]
pub enum Next {
    /// Something is to be told.
    Note(Note),
    /// It ends.
    End(End),
}

// What is known of the end, and what is still to be told.
struct EndingState {
    // How many streams are still to end, where that was said.
    left: Option<u16>,
    end: Option<End>,
    notes: VecDeque<Note>,
    // How many notes aren't told.
    missed: u64,
    // Whether nothing more is to be told.
    is_closed: bool,
    // Whether all was told.
    is_told: bool,
    // How many frames of responses are being written.
    writing: u64,
    // Whether nobody is answered yet, and whether clients are to be answered as soon as it may be.
    is_held: bool,
    is_asked: bool,
}

// Written out: docs/PROVING.md, "Drops".
impl Drop for EndingState {
    fn drop(self) {
        let EndingState {
            left: _,
            end: _,
            notes: _,
            missed: _,
            is_closed: _,
            is_told: _,
            writing: _,
            is_held: _,
            is_asked: _,
        } = self;
    }
}

impl EndingState {
    ghost use Rattle.std.specs.Prelude.{◌≡◌, ◌-◌, [], None, false};
    ghost use Rattle.std.specs.Option.{option_map};
    ghost use Rattle.xds_notes.specs.Endings.{first_end, counted_end, has_place, counts_missed, Adds, TakesNote, Announces, IsNext};

    // Nothing has happened, and so many streams are to end, where that is said.
    fn new(alloc: Global, streams: Option<u16>) -> EndingState
        ensures left { result.left ≡ streams }
        ensures end { result.end ≡ None }
        ensures told { (result.notes.items ≡ []) × (result.missed ≡ 0) }
        ensures rest { (result.is_closed ≡ false) × (result.is_told ≡ false) × (result.writing ≡ 0) × (result.is_held ≡ false) × (result.is_asked ≡ false) }
    {
        EndingState {
            left: streams,
            end: None,
            notes: VecDeque::new(alloc),
            missed: 0,
            is_closed: false,
            is_told: false,
            writing: 0,
            is_held: false,
            is_asked: false,
        }
    }

    // A stream more has ended.
    fn count(&mut self)
        ensures left { self.new.left ≡ option_map (λ n. n - 1) self.old.left }
        ensures end { self.new.end ≡ counted_end self.old.left self.old.end }
        ensures kept { (self.new.notes ≡ self.old.notes) × (self.new.missed ≡ self.old.missed) }
        ensures rest { (self.new.is_closed ≡ self.old.is_closed) × (self.new.is_told ≡ self.old.is_told) × (self.new.writing ≡ self.old.writing) × (self.new.is_held ≡ self.old.is_held) × (self.new.is_asked ≡ self.old.is_asked) }
    {
        if let Some(left) = self.left {
            let left = left.saturating_sub(1);
            self.left = Some(left);
            if left == 0 {
                self.tell(End::Streams);
            }
        }
    }

    // It ends so, unless it ended before.
    fn tell(&mut self, end: End)
        ensures left { self.new.left ≡ self.old.left }
        ensures end { self.new.end ≡ first_end self.old.end end }
        ensures kept { (self.new.notes ≡ self.old.notes) × (self.new.missed ≡ self.old.missed) }
        ensures rest { (self.new.is_closed ≡ self.old.is_closed) × (self.new.is_told ≡ self.old.is_told) × (self.new.writing ≡ self.old.writing) × (self.new.is_held ≡ self.old.is_held) × (self.new.is_asked ≡ self.old.is_asked) }
    {
        if self.end.is_none() {
            self.end = Some(end);
        }
    }

    // Whether there is a place for a note more: none where as many wait as may wait, and none once the server ends.
    fn has_place(&self) -> bool
        ensures { result ≡ has_place self.now.end self.now.notes.items }
    {
        match self.end {
            Some(_) => false,
            None => self.notes.len() < MOST_NOTES,
        }
    }

    // A note more is to be told, where there is a place for it. Else it counts as missed.
    fn take(&mut self, note: Note)
        ensures end { (self.new.left ≡ self.old.left) × (self.new.end ≡ self.old.end) }
        ensures told { TakesNote (has_place self.old.end self.old.notes.items) self.old.is_closed note self.old.notes.items self.new.notes.items self.old.missed self.new.missed }
        ensures rest { (self.new.is_closed ≡ self.old.is_closed) × (self.new.is_told ≡ self.old.is_told) × (self.new.writing ≡ self.old.writing) × (self.new.is_held ≡ self.old.is_held) × (self.new.is_asked ≡ self.old.is_asked) }
    {
        if self.has_place() {
            self.push(note);
        } else {
            drop(note);
            self.miss();
        }
    }

    // A note more is to be told, also once the server ends, as long as something may be told.
    fn announce(&mut self, note: Note)
        ensures end { (self.new.left ≡ self.old.left) × (self.new.end ≡ self.old.end) }
        ensures told { Announces self.old.is_closed note self.old.notes.items self.new.notes.items self.old.missed self.new.missed }
        ensures rest { (self.new.is_closed ≡ self.old.is_closed) × (self.new.is_told ≡ self.old.is_told) × (self.new.writing ≡ self.old.writing) × (self.new.is_held ≡ self.old.is_held) × (self.new.is_asked ≡ self.old.is_asked) }
    {
        if self.is_closed {
            drop(note);
        } else {
            self.push(note);
        }
    }

    // A note more is to be told. Where there is no memory for it, it counts as missed.
    fn push(&mut self, note: Note)
        ensures end { (self.new.left ≡ self.old.left) × (self.new.end ≡ self.old.end) }
        ensures told { Adds self.old.is_closed note self.old.notes.items self.new.notes.items self.old.missed self.new.missed }
        ensures rest { (self.new.is_closed ≡ self.old.is_closed) × (self.new.is_told ≡ self.old.is_told) × (self.new.writing ≡ self.old.writing) × (self.new.is_held ≡ self.old.is_held) × (self.new.is_asked ≡ self.old.is_asked) }
    {
        match self.notes.push_back(note) {
            Ok(()) => {}
            Err(_) => self.miss(),
        }
    }

    // A note isn't told. It is counted as long as something may be told.
    fn miss(&mut self)
        ensures end { (self.new.left ≡ self.old.left) × (self.new.end ≡ self.old.end) }
        ensures missed { self.new.missed ≡ counts_missed self.old.is_closed self.old.missed }
        ensures notes { self.new.notes ≡ self.old.notes }
        ensures rest { (self.new.is_closed ≡ self.old.is_closed) × (self.new.is_told ≡ self.old.is_told) × (self.new.writing ≡ self.old.writing) × (self.new.is_held ≡ self.old.is_held) × (self.new.is_asked ≡ self.old.is_asked) }
    {
        if !self.is_closed {
            self.missed = self.missed.saturating_add(1);
        }
    }

    // What comes next, if something does: what is to be told comes before the end. How much isn't told is told at once while the
    // server serves, and then once more, behind all that is told.
    fn next(&mut self) -> Option<Next>
        ensures end { (self.new.left ≡ self.old.left) × (self.new.end ≡ self.old.end) }
        ensures next { IsNext self.old.end self.old.is_closed self.old.notes.items self.new.notes.items self.old.missed self.new.missed result }
        ensures rest { (self.new.is_closed ≡ self.old.is_closed) × (self.new.is_told ≡ self.old.is_told) × (self.new.writing ≡ self.old.writing) × (self.new.is_held ≡ self.old.is_held) × (self.new.is_asked ≡ self.old.is_asked) }
    {
        if let Some(note) = self.notes.pop_front() {
            return Some(Next::Note(note));
        }
        if self.missed > 0 && (self.end.is_none() || self.is_closed) {
            let count = self.missed;
            self.missed = 0;
            return Some(Next::Note(Note::Missed(count)));
        }
        match self.end {
            Some(end) => Some(Next::End(end)),
            None => None,
        }
    }
}

/// What threads tell of a server, up to its end.
pub struct Ending {
    alloc: Global,
    state: Mutex<EndingState>,
    // Something was told, or the server ends.
    told: Condvar,
    // There is room for notes.
    room: Condvar,
    // No frame is being written.
    quiet: Condvar,
    // The server ends, nothing more is to be told, all was told, or clients may be answered.
    over: Condvar,
    // The changes that were refused last.
    recent: Mutex<Recent>,
    telling: Telling,
}

// Written out: docs/PROVING.md, "Drops".
impl Drop for Ending {
    fn drop(self) {
        let Ending {
            alloc: _,
            state: _,
            told: _,
            room: _,
            quiet: _,
            over: _,
            recent: _,
            telling: _,
        } = self;
    }
}

impl Ending {
    /// The server ends after so many streams, where that is said, and tells this until then.
    pub fn after(alloc: Global, streams: Option<u16>, telling: Telling) -> Ending
        ensures { result.telling ≡ telling }
    {
        Ending {
            alloc,
            state: Mutex::new(EndingState::new(alloc, streams)),
            told: Condvar::new(),
            room: Condvar::new(),
            quiet: Condvar::new(),
            over: Condvar::new(),
            recent: Mutex::new(Recent::new(alloc)),
            telling,
        }
    }

    /// A stream has ended. It may wait for the lock.
    pub fn stream_ended<R: Wait>(&self, rt: &R) {
        let mut state = self.state.lock(rt);
        state.count();
        drop(state);
        self.notify();
    }

    /// The server ends so, unless it ended before. It may wait for the lock.
    pub fn end<R: Wait>(&self, rt: &R, end: End) {
        let mut state = self.state.lock(rt);
        state.tell(end);
        drop(state);
        self.notify();
    }

    // Something was told that may be the end.
    fn notify(&self) {
        self.told.notify_all();
        self.room.notify_all();
        self.over.notify_all();
    }

    /// Tells that a line of the input, or the change that it says, is refused, where such are told. It waits until there is room
    /// for a note more, unless the server ends: then it counts as left out.
    pub fn refuse<R: Wait>(&self, rt: &R, line: u64, fault: Fault) {
        self.remember(rt, line, fault);
        if self.telling.changes {
            self.note(rt, Note::Refused(line, fault));
        }
    }

    /// A line of changes is refused, which is told in another way.
    pub fn remember<R: Wait>(&self, rt: &R, line: u64, fault: Fault) {
        self.recent.lock(rt).add(line, fault);
    }

    /// The lines of changes that were refused last, the last one first.
    pub fn refused_text<R: Wait>(&self, rt: &R, alloc: Global) -> Result<String, Refusal> {
        self.recent.lock(rt).text(alloc)
    }

    /// Whether what an operator cares for is told.
    pub fn logs(&self) -> bool
        ensures { result ≡ self.now.telling.events }
    {
        self.telling.events
    }

    // An event as it is told.
    fn noted(&self, time: String, event: LogEvent) -> Note
        ensures { result ≡ noted self.now.telling time event }
    {
        if self.telling.json {
            Note::Json(time, event)
        } else {
            Note::Event(time, event)
        }
    }

    /// Tells something that an operator cares for, at this moment of the wall clock, where such is told. Where there is no room, and once
    /// the server ends, it counts as left out.
    pub fn log<R: Wait>(&self, rt: &R, millis: u64, event: LogEvent) {
        if !self.telling.events {
            drop(event);
            return;
        }
        let note = match utc_text(self.alloc, millis) {
            Ok(time) => self.noted(time, event),
            Err(_) => {
                drop(event);
                return;
            }
        };
        let mut state = self.state.lock(rt);
        state.take(note);
        drop(state);
        self.told.notify_all();
    }

    /// Tells something. It waits until there is room for a note more, unless the server ends: then it counts as left out.
    pub fn note<R: Wait>(&self, rt: &R, note: Note) {
        let mut state = self.room_in(rt);
        state.take(note);
        drop(state);
        self.told.notify_all();
    }

    /// Tells something that there is only once in a while, also once the server ends, up to [`Ending::close`]. It waits for no room.
    pub fn announce<R: Wait>(&self, rt: &R, note: Note) {
        let mut state = self.state.lock(rt);
        state.announce(note);
        drop(state);
        self.told.notify_all();
    }

    // The state once there is room for a note more, or the server ends.
    fn room_in<'a, R: Wait>(&'a self, rt: &R) -> MutexGuard<'a, EndingState> {
        let mut state = self.state.lock(rt);
        for _ in rt.forever() {
            if state.notes.len() < MOST_NOTES || state.end.is_some() {
                return state;
            }
            state = self.room.wait(rt, state);
        }
        unreachable!()
    }

    /// Waits for what comes next: what is to be told, in order, and behind all of it the end, which stays. Once nothing more is to be
    /// told, how much was left out since the end comes before it.
    pub fn next<R: Wait>(&self, rt: &R) -> Next {
        let mut state = self.state.lock(rt);
        for _ in rt.forever() {
            if let Some(next) = state.next() {
                drop(state);
                self.room.notify_all();
                return next;
            }
            state = self.told.wait(rt, state);
        }
        unreachable!()
    }

    /// Nobody is answered from here on, up to [`Ending::open`]. It may wait for the lock.
    pub fn hold<R: Wait>(&self, rt: &R) {
        self.state.lock(rt).is_held = true;
    }

    /// Clients are to be answered, as soon as it may be. It may wait for the lock.
    pub fn ask<R: Wait>(&self, rt: &R) {
        let mut state = self.state.lock(rt);
        state.is_asked = true;
        drop(state);
        self.over.notify_all();
    }

    /// Waits until clients are to be answered, or the server ends. Answers whether they are.
    pub fn wait_asked<R: Wait>(&self, rt: &R) -> bool {
        let mut state = self.state.lock(rt);
        for _ in rt.forever() {
            if state.is_asked {
                return true;
            }
            if state.end.is_some() {
                return false;
            }
            state = self.over.wait(rt, state);
        }
        unreachable!()
    }

    /// Clients may be answered from here on. It may wait for the lock.
    pub fn open<R: Wait>(&self, rt: &R) {
        let mut state = self.state.lock(rt);
        state.is_held = false;
        drop(state);
        self.over.notify_all();
    }

    /// Whether nobody is answered yet. It may wait for the lock.
    pub fn is_held<R: Wait>(&self, rt: &R) -> bool {
        self.state.lock(rt).is_held
    }

    /// Waits until clients may be answered, but no longer than this time. Answers whether they may.
    pub fn wait_open_within<R: Wait + Clock>(&self, rt: &R, time: Duration) -> bool {
        let Ok(begun) = Instant::now(rt) else {
            return false;
        };
        let mut state = self.state.lock(rt);
        for _ in 0..u64::MAX {
            if !state.is_held {
                return true;
            }
            let Some(left) = left_of(rt, begun, time) else {
                return false;
            };
            let (next, _) = self.over.wait_timeout(rt, state, left);
            state = next;
        }
        false
    }

    /// Waits until clients may be answered, or the server ends. Answers whether they may.
    pub fn wait_open<R: Wait>(&self, rt: &R) -> bool {
        let mut state = self.state.lock(rt);
        for _ in rt.forever() {
            if !state.is_held {
                return true;
            }
            if state.end.is_some() {
                return false;
            }
            state = self.over.wait(rt, state);
        }
        unreachable!()
    }

    /// Whether the server ends.
    pub fn has_come<R: Wait>(&self, rt: &R) -> bool {
        self.state.lock(rt).end.is_some()
    }

    /// A frame of a response is begun, unless the server ends: then none is. Answers whether it is. It may wait for the lock.
    pub fn begin_frame<R: Wait>(&self, rt: &R) -> bool {
        let mut state = self.state.lock(rt);
        if state.end.is_some() {
            return false;
        }
        state.writing = state.writing.saturating_add(1);
        true
    }

    /// A frame that was begun is written, or given up.
    pub fn end_frame<R: Wait>(&self, rt: &R) {
        let mut state = self.state.lock(rt);
        state.writing = state.writing.saturating_sub(1);
        drop(state);
        self.quiet.notify_all();
    }

    /// Waits until no frame is being written, but no longer than this time.
    pub fn drain<R: Wait + Clock>(&self, rt: &R, time: Duration) {
        let Ok(begun) = Instant::now(rt) else {
            return;
        };
        let mut state = self.state.lock(rt);
        for _ in 0..u64::MAX {
            if state.writing == 0 {
                return;
            }
            let Some(left) = left_of(rt, begun, time) else {
                return;
            };
            let (next, _) = self.quiet.wait_timeout(rt, state, left);
            state = next;
        }
    }

    /// From here on nothing more is told but what waits already: what comes is dropped. It may wait for the lock.
    pub fn close<R: Wait>(&self, rt: &R) {
        let mut state = self.state.lock(rt);
        state.is_closed = true;
        drop(state);
        self.notify();
    }

    /// Waits until nothing more is to be told but what waits already.
    pub fn wait_closed<R: Wait>(&self, rt: &R) {
        let mut state = self.state.lock(rt);
        for _ in rt.forever() {
            if state.is_closed {
                return;
            }
            state = self.over.wait(rt, state);
        }
    }

    /// All was told.
    pub fn all_told<R: Wait>(&self, rt: &R) {
        let mut state = self.state.lock(rt);
        state.is_told = true;
        drop(state);
        self.over.notify_all();
    }

    /// Waits until all was told, but no longer than this time. Answers whether it was.
    pub fn wait_told<R: Wait + Clock>(&self, rt: &R, time: Duration) -> bool {
        let Ok(begun) = Instant::now(rt) else {
            return false;
        };
        let mut state = self.state.lock(rt);
        for _ in 0..u64::MAX {
            if state.is_told {
                return true;
            }
            let Some(left) = left_of(rt, begun, time) else {
                return false;
            };
            let (next, _) = self.over.wait_timeout(rt, state, left);
            state = next;
        }
        false
    }

    /// Waits for the end.
    pub fn wait<R: Wait>(&self, rt: &R) -> End {
        let mut state = self.state.lock(rt);
        for _ in rt.forever() {
            if let Some(end) = state.end {
                return end;
            }
            state = self.over.wait(rt, state);
        }
        unreachable!()
    }

    /// Waits for the end, but no longer than this time; for as long as it takes, where there is no clock.
    pub fn wait_within<R: Wait + Clock>(&self, rt: &R, time: Duration) -> Option<End> {
        let Ok(begun) = Instant::now(rt) else {
            return Some(self.wait(rt));
        };
        let mut state = self.state.lock(rt);
        for _ in 0..u64::MAX {
            if let Some(end) = state.end {
                return Some(end);
            }
            let Some(left) = left_of(rt, begun, time) else {
                return None;
            };
            let (next, _) = self.over.wait_timeout(rt, state, left);
            state = next;
        }
        None
    }
}

// How much is left of a time that began then; none where it has passed, or there is no clock.
pub fn left_of<R: Clock>(rt: &R, begun: Instant, time: Duration) -> Option<Duration> {
    let Ok(passed) = begun.elapsed(rt) else {
        return None;
    };
    let left = time.saturating_sub(passed);
    if left.is_zero() { None } else { Some(left) }
}
