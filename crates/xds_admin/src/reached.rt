// A replica as an operator's port reaches it: what its thread is asked, and for how long its answer is waited for.
use crate::joint::AllMade;
use crate::page::{counts_html, replica_html, streams_html};
use crossbeam_channel::{RecvTimeoutError, Sender, TryRecvError, unbounded};
use std::alloc::Global;
use std::mem;
use std::sync::{Arc, Mutex, Wait};
use std::time::{Clock, Duration};
use xds_changes::change::Change;
use xds_changes::order::{Answers, Order};
use xds_core::Marks;
use xds_machine::deadline::Deadline;
use xds_message::Batch;
use xds_monitor::{Tape, recorded_text};
use xds_notes::{Fault, Lookout};
use xds_resource::{Refusal, Stamp};
use xds_stats::{ReplicaSizes, responses_json, warnings_html};

/// As many milliseconds as are waited for what replicas' threads answer to one request, or to one line of many.
pub(crate) const MOST_MILLISECONDS: u64 = 1_000;

/// A replica, as an operator's port reaches it.
pub struct ReachedReplica {
    pub lookout: Arc<Lookout>,
    pub orders: Sender<Order>,
    /// What its trace is recorded on, if it is.
    pub tape: Option<Arc<Tape>>,
    /// The answer to a question of what it holds, which didn't come in time.
    pub late: Mutex<Option<Answers<ReplicaSizes>>>,
}

// Written out: docs/PROVING.md, "Drops".
impl Drop for ReachedReplica {
    fn drop(self) {
        let ReachedReplica {
            lookout: _,
            orders: _,
            tape: _,
            late: _,
        } = self;
    }
}

impl ReachedReplica {
    // Hands an order to the replica's thread. Whether there was room for it in time.
    fn hand<R: Wait + Clock>(&self, rt: &R, order: Order, deadline: Deadline) -> bool {
        is_sent(rt, &self.orders, order, deadline.rest(rt))
    }

    /// Asks what is held, unless it was asked before and didn't answer yet. None where there is no room for the question in time.
    pub(crate) fn ask<R: Wait + Clock>(
        &self,
        rt: &R,
        alloc: Global,
        deadline: Deadline,
    ) -> Option<Answers<ReplicaSizes>> {
        match self.late_answer(rt) {
            Some(late) => Some(late),
            None => self.ask_anew(rt, alloc, deadline),
        }
    }

    fn ask_anew<R: Wait + Clock>(
        &self,
        rt: &R,
        alloc: Global,
        deadline: Deadline,
    ) -> Option<Answers<ReplicaSizes>> {
        let Ok((to, from)) = unbounded(alloc) else {
            return None;
        };
        if self.hand(rt, Order::Look(to), deadline) {
            Some(from)
        } else {
            None
        }
    }

    // What a question before is still answered by. An answer that has come meanwhile is passed over.
    fn late_answer<R: Wait>(&self, rt: &R) -> Option<Answers<ReplicaSizes>> {
        let late = mem::replace(&mut *self.late.lock(rt), None);
        match late {
            Some(from) => match from.try_recv(rt) {
                Err(TryRecvError::Empty) => Some(from),
                _ => None,
            },
            None => None,
        }
    }

    /// What is held, by the answer to a question, where it comes in time.
    pub(crate) fn look<R: Wait + Clock>(
        &self,
        rt: &R,
        asked: Option<Answers<ReplicaSizes>>,
        deadline: Deadline,
    ) -> Option<ReplicaSizes> {
        let Some(from) = asked else {
            return None;
        };
        match from.recv_timeout(rt, deadline.rest(rt)) {
            Ok(look) => look.ok(),
            Err(RecvTimeoutError::Timeout) => {
                *self.late.lock(rt) = Some(from);
                None
            }
            Err(RecvTimeoutError::Disconnected) => None,
        }
    }

    /// Makes a change. None where its thread doesn't answer in time; then the change may be made later, or never.
    pub(crate) fn make<R: Wait + Clock>(
        &self,
        rt: &R,
        alloc: Global,
        change: Change,
    ) -> Option<Result<Stamp, Fault>> {
        let (to, from) = match unbounded(alloc) {
            Ok(ends) => ends,
            Err(_) => {
                drop(change);
                return Some(Err(Fault::of(Refusal::OutOfMemory)));
            }
        };
        let deadline = Deadline::within(rt, Duration::from_millis(MOST_MILLISECONDS));
        if !self.hand(rt, Order::Asked(change, to), deadline) {
            return None;
        }
        from.recv_timeout(rt, deadline.rest(rt)).ok()
    }

    /// Hands changes that are made together, or looked at alone, to its thread. Answers where it answers; none where it doesn't take them in
    /// time.
    pub(crate) fn hand_all<R: Wait + Clock>(
        &self,
        rt: &R,
        alloc: Global,
        changes: Vec<Change>,
        is_tried: bool,
    ) -> Option<AllMade> {
        let Ok((to, from)) = unbounded(alloc) else {
            drop(changes);
            return None;
        };
        let deadline = Deadline::within(rt, Duration::from_millis(MOST_MILLISECONDS));
        if self.hand(rt, Order::All(changes, is_tried, to), deadline) {
            Some(from)
        } else {
            None
        }
    }

    /// All that is held. None where its thread doesn't answer in time.
    pub(crate) fn content<R: Wait + Clock>(
        &self,
        rt: &R,
        alloc: Global,
        deadline: Deadline,
    ) -> Option<Batch> {
        let Ok((to, from)) = unbounded(alloc) else {
            return None;
        };
        if !self.hand(rt, Order::Entries(to), deadline) {
            return None;
        }
        match from.recv_timeout(rt, deadline.rest(rt)) {
            Ok(Ok(held)) => Some(held),
            _ => None,
        }
    }

    /// Its counts of changes. None where its thread doesn't answer in time.
    pub(crate) fn marks<R: Wait + Clock>(&self, rt: &R, alloc: Global) -> Option<Marks> {
        let deadline = Deadline::within(rt, Duration::from_millis(MOST_MILLISECONDS));
        self.marks_by(rt, alloc, deadline)
    }

    /// The same, where its thread doesn't answer by a deadline.
    pub(crate) fn marks_by<R: Wait + Clock>(
        &self,
        rt: &R,
        alloc: Global,
        deadline: Deadline,
    ) -> Option<Marks> {
        let Ok((to, from)) = unbounded(alloc) else {
            return None;
        };
        if !self.hand(rt, Order::Marks(to), deadline) {
            return None;
        }
        match from.recv_timeout(rt, deadline.rest(rt)) {
            Ok(Ok(marks)) => Some(marks),
            _ => None,
        }
    }

    /// What a browser shows of it: what it holds, where that is known, what was counted, and its streams.
    pub(crate) fn html<R: Wait>(
        &self,
        rt: &R,
        alloc: Global,
        look: Option<ReplicaSizes>,
        millis: u64,
    ) -> Result<String, Refusal> {
        let lookout = &self.lookout;
        let mut text = replica_html(alloc, lookout.replica(), lookout.number())?;
        let numbers = lookout.numbers(rt);
        text.push_str(counts_html(alloc, look, &numbers)?.as_str())?;
        if let Some(look) = look {
            text.push_str(warnings_html(alloc, &look)?.as_str())?;
        }
        text.push_str(lookout.picture(rt, alloc, millis)?.as_str())?;
        let rows = lookout.rows(rt, alloc)?;
        text.push_str(streams_html(alloc, rows.as_str())?.as_str())?;
        Ok(text)
    }

    /// What is shown of it: its recording, where there is one, how long its responses are, where that is known, and its streams.
    pub(crate) fn status<R: Wait>(
        &self,
        rt: &R,
        alloc: Global,
        look: Option<ReplicaSizes>,
    ) -> Result<String, Refusal> {
        let place = self.lookout.replica();
        let number = self.lookout.number();
        let recording = match &self.tape {
            Some(tape) => recorded_text(alloc, tape.ended(rt))?,
            None => String::new(alloc),
        };
        let recording = recording.as_str();
        let responses = match look {
            Some(look) => responses_json(alloc, &look)?,
            None => String::from_str(alloc, "null")?,
        };
        let responses = responses.as_str();
        let streams = self.lookout.streams(rt, alloc)?;
        let streams = streams.as_str();
        Ok(format!(in alloc;
            "{{\"replica\":{place},\"number\":{number},{recording}\"responses\":{responses},\"streams\":{streams}}}"
        )?)
    }
}

/// Sends a message, unless there is no room for it in time. Answers whether it was sent: how one that wasn't ends is a step here, whatever
/// its type.
pub(crate) fn is_sent<R: Wait + Clock, M: Drop>(
    rt: &R,
    to: &Sender<M>,
    message: M,
    time: Duration,
) -> bool {
    to.send_timeout(rt, message, time).is_ok()
}
