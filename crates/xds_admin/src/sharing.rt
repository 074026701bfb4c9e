// Writes at an operator's port: those that a replica holds are listed, and those that come are merged. Both wait for a replica's thread in
// parts, between which other requests are answered.
use crate::reached::is_sent;
use crossbeam_channel::{RecvTimeoutError, Sender, unbounded};
use std::alloc::Global;
use std::mem;
use std::sync::Wait;
use std::time::{Clock, Duration};
use xds_causes::LineFault;
use xds_changes::marking::marks_text;
use xds_changes::order::{Answers, Order};
use xds_changes::wanting::WantedWrites;
use xds_changes::write_lines::{Lines, read_batch};
use xds_core::Marks;
use xds_http::{Page, Part};
use xds_machine::deadline::Deadline;
use xds_message::Batch;
use xds_notes::fault_line;
use xds_resource::Refusal;
use xds_upkeep::moves::Moves;

/// What a text for people is, as `content-type` says it.
pub(crate) const PLAIN: &str = "text/plain; charset=utf-8";

// The field of a head that has counts of changes.
const MARKS: &str = "xds-marks";

// As many milliseconds as a replica's thread has to take a question, while which no other request is answered.
const MOST_MILLISECONDS: u64 = 1_000;

// As many milliseconds as it has to answer one.
const ANSWER_MILLISECONDS: u64 = 30_000;

// As many milliseconds as an answer is waited for, or lines are made in, before other requests may be looked at.
const PART_MILLISECONDS: u64 = 1;

// How many lines are made before the time is looked at.
const LINES_AT_ONCE: usize = 16;

/// What changed at a replica, and its counts of changes then.
pub(crate) type Changed = (Batch, Marks);

// The answer of a replica's thread to a question, and until when it is waited for.
struct Awaited<T> {
    from: Answers<T>,
    deadline: Deadline,
}

// Written out: docs/PROVING.md, "Drops".
impl<T: Drop> Drop for Awaited<T> {
    fn drop(self) {
        let Awaited {
            from: _,
            deadline: _,
        } = self;
    }
}

// What has come of an answer.
#[derive(Drop)]
enum Awaiting<T> {
    Answer(T),
    Nothing,
    Waits,
}

impl<T: Drop> Awaited<T> {
    // The answer, if it comes in a moment. There is none where it is refused, or doesn't come in time.
    fn hear<R: Wait + Clock>(&self, rt: &R) -> Awaiting<T> {
        let moment = Duration::from_millis(PART_MILLISECONDS);
        match self.from.recv_timeout(rt, moment) {
            Ok(Ok(answer)) => Awaiting::Answer(answer),
            Err(RecvTimeoutError::Timeout) => {
                if self.deadline.rest(rt).is_zero() {
                    return Awaiting::Nothing;
                }
                Awaiting::Waits
            }
            _ => Awaiting::Nothing,
        }
    }
}

// Asks a replica's thread. None where it takes no question in time.
fn ask<R, T, O>(rt: &R, alloc: Global, orders: &Sender<Order>, order: O) -> Option<Awaited<T>>
where
    R: Wait + Clock,
    T: Drop,
    O: FnOnce(Sender<Result<T, Refusal>>) -> Order + Drop,
    requires { O.IsAlwaysCallable order }
{
    let deadline = Deadline::within(rt, Duration::from_millis(MOST_MILLISECONDS));
    let Ok((to, from)) = unbounded(alloc) else {
        drop(order);
        return None;
    };
    if !is_sent(rt, orders, order(to), deadline.rest(rt)) {
        return None;
    }
    Some(Awaited {
        from,
        deadline: Deadline::within(rt, Duration::from_millis(ANSWER_MILLISECONDS)),
    })
}

// How far a list has come.
#[derive(Drop)]
enum ListStage {
    // It waits until something changed.
    Waiting(Deadline),
    // The replica's thread was asked what changed.
    Asked(Awaited<Changed>),
    // It is made a text; the counts of changes are these.
    Making(Marks, Lines),
}

/// What a replica holds, or what changed there, on the way to who asked for it.
pub struct Listing {
    wanted: WantedWrites,
    stage: ListStage,
}

// Written out: docs/PROVING.md, "Drops".
impl Drop for Listing {
    fn drop(self) {
        let Listing {
            wanted: _,
            stage: _,
        } = self;
    }
}

impl Listing {
    /// What is wanted, of which nothing is listed.
    pub(crate) fn new<C: Clock>(clock: &C, wanted: WantedWrites) -> Listing {
        let deadline = Deadline::within(clock, Duration::from_secs(wanted.wait));
        Listing {
            wanted,
            stage: ListStage::Waiting(deadline),
        }
    }

    /// The place of the replica, from 1.
    pub(crate) fn replica(&self) -> u16 {
        self.wanted.replica
    }

    /// Goes on for a moment, with the replica's orders.
    pub(crate) fn go_on<R: Wait + Clock>(
        &mut self,
        rt: &R,
        alloc: Global,
        orders: &Sender<Order>,
        moves: &Moves,
    ) -> Result<Part, Refusal> {
        let next = match &mut self.stage {
            ListStage::Waiting(deadline) => {
                let is_past = moves.is_past(rt, self.wanted.replica, self.wanted.since);
                if !is_past && !deadline.rest(rt).is_zero() {
                    return Ok(Part::Waits);
                }
                let since = self.wanted.since;
                match ask(rt, alloc, orders, move |to| Order::Since(since, to)) {
                    Some(question) => ListStage::Asked(question),
                    None => return Ok(unavailable(alloc)),
                }
            }
            ListStage::Asked(question) => match question.hear(rt) {
                Awaiting::Answer((batch, marks)) => ListStage::Making(
                    marks,
                    Lines::of(alloc, batch),
                ),
                Awaiting::Nothing => return Ok(unavailable(alloc)),
                Awaiting::Waits => return Ok(Part::More),
            },
            ListStage::Making(marks, lines) => {
                if !make(rt, alloc, lines)? {
                    return Ok(Part::More);
                }
                return Ok(Part::Done(writes_page(alloc, lines.take(alloc), *marks)?));
            }
        };
        drop(mem::replace(&mut self.stage, next));
        Ok(Part::More)
    }
}

// Makes lines for a moment. Answers whether all are made.
fn make<R: Wait + Clock>(rt: &R, alloc: Global, lines: &mut Lines) -> Result<bool, Refusal> {
    let deadline = Deadline::within(rt, Duration::from_millis(PART_MILLISECONDS));
    for _ in 0..u64::MAX {
        if lines.make(alloc, LINES_AT_ONCE)? {
            return Ok(true);
        }
        if deadline.rest(rt).is_zero() {
            return Ok(false);
        }
    }
    Ok(false)
}

// The lines of writes, and the counts of changes at which they are all that changed.
fn writes_page(alloc: Global, text: String, marks: Marks) -> Result<Page, Refusal> {
    let value = match marks_text(alloc, marks) {
        Ok(value) => value,
        Err(refusal) => {
            drop(text);
            return Err(refusal);
        }
    };
    Ok(Page {
        status: 200,
        kind: PLAIN,
        text,
        field: Some((MARKS, value)),
    })
}

// 503 alone.
fn unavailable(alloc: Global) -> Part {
    Part::Done(plain(503, String::new(alloc)))
}

/// A text for people, with a status.
pub(crate) fn plain(status: u16, text: String) -> Page {
    Page {
        status,
        kind: PLAIN,
        text,
        field: None,
    }
}

/// Writes that a replica's thread was asked to merge.
pub struct Merging {
    question: Awaited<u128>,
}

// Written out: docs/PROVING.md, "Drops".
impl Drop for Merging {
    fn drop(self) {
        let Merging { question: _ } = self;
    }
}

impl Merging {
    /// Has the writes merged that the lines of a body spell. A page where nothing is merged: a line spells none, or the replica's thread
    /// takes no order in time.
    pub(crate) fn begin<R: Wait + Clock>(
        rt: &R,
        alloc: Global,
        orders: &Sender<Order>,
        body: &[u8],
    ) -> Result<Result<Page, Merging>, Refusal> {
        let batch = match read_batch(alloc, body) {
            Ok(batch) => batch,
            Err(fault) => return Ok(Ok(bad_line_page(alloc, fault)?)),
        };
        match ask(rt, alloc, orders, move |to| Order::Merge(batch, to)) {
            Some(question) => Ok(Err(Merging { question })),
            None => Ok(Ok(plain(503, String::new(alloc)))),
        }
    }

    /// Waits for a moment until they are merged, and answers how many names grew. Where no answer comes in time it is 503, though they
    /// may still be merged.
    pub(crate) fn go_on<R: Wait + Clock>(&self, rt: &R, alloc: Global) -> Result<Part, Refusal> {
        match self.question.hear(rt) {
            Awaiting::Answer(grown) => Ok(Part::Done(plain(200, grown_text(alloc, grown)?))),
            Awaiting::Nothing => Ok(unavailable(alloc)),
            Awaiting::Waits => Ok(Part::More),
        }
    }
}

// What tells of a line that spells no write.
fn bad_line_page(alloc: Global, fault: LineFault) -> Result<Page, Refusal> {
    if fault.refusal == Refusal::OutOfMemory {
        return Err(Refusal::OutOfMemory);
    }
    let line = u64::try_from(fault.line).unwrap_or(u64::MAX);
    Ok(plain(400, fault_line(alloc, line, fault.refusal)?))
}

// How many names grew, in words.
fn grown_text(alloc: Global, grown: u128) -> Result<String, Refusal> {
    Ok(format!(in alloc; "grew {grown}\n")?)
}
