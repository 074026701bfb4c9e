// Notes the events of a replica for those who look.
ghost use Rattle.std.specs.Prelude.{◌≡◌};
ghost use Rattle.xds_stats.specs.Boards.{stream_of};

use crate::turns::Turns;
use std::alloc::Global;
use std::sync::{Arc, Mutex, MutexGuard, Wait};
use std::time::Clock;
use xds_core::{Event, Reply};
use xds_node::Unrecorded;
use xds_notes::lookout::Lookout;
use xds_resource::Refusal;
use xds_stats::moment::Moment;
use xds_stats::sight::{Sight, sight_of};

/// What notes each event of a replica, once it was answered, outside of the node's lock. The requests and the polls of a stream are
/// noted in the order in which the node answers them: each call of a stream waits until the one before is noted. So are the changes that
/// are made here and the polls of all streams: each of these waits until the one before of that replica is noted.
pub struct Observer<C> {
    alloc: Global,
    clock: C,
    lookout: Arc<Lookout>,
    turns: Turns,
    // Who makes a change, or polls.
    order: Mutex<()>,
}

// Written out: docs/PROVING.md, "Drops".
impl<C: Drop> Drop for Observer<C> {
    fn drop(self) {
        let Observer {
            alloc: _,
            clock: _,
            lookout: _,
            turns: _,
            order: _,
        } = self;
    }
}

impl<C: Clock> Observer<C> {
    /// One that notes events at this lookout, those of a stream by its turns, which nobody else takes.
    pub fn new(alloc: Global, clock: C, lookout: Arc<Lookout>, turns: Turns) -> Observer<C> {
        Observer {
            alloc,
            clock,
            lookout,
            turns,
            order: Mutex::new(()),
        }
    }

    /// Where it notes them.
    pub(crate) fn lookout(&self) -> &Lookout {
        &self.lookout
    }

    /// What an event shows.
    pub(crate) fn sight(&self, event: &Event) -> Sight {
        sight_of(self.alloc, event)
    }

    /// The turn of an event's stream, if the event is one of which the order is noted. It waits for whoever has it.
    pub(crate) fn turn<R: Wait>(&self, rt: &R, sight: &Sight) -> Option<MutexGuard<'_, ()>> {
        let stream = stream_of(sight)?;
        self.turns.take(rt, stream)
    }

    /// The turn of a change that is made here, or of a poll. It waits for whoever has it.
    pub(crate) fn order<R: Wait>(&self, rt: &R, sight: &Sight) -> Option<MutexGuard<'_, ()>> {
        if is_ordered(sight) {
            Some(self.order.lock(rt))
        } else {
            None
        }
    }

    /// Notes how an event that showed this was answered.
    pub(crate) fn note<R: Wait>(
        &self,
        rt: &R,
        sight: &Sight,
        answer: &Result<Result<Reply, Refusal>, Unrecorded>,
    ) {
        match answer {
            Ok(answer) => {
                let now = Moment::now(&self.clock);
                self.lookout.answered(rt, sight, answer, now);
            }
            Err(_) => self.lookout.unrecorded(rt, sight),
        }
    }

    /// Notes what came of a cut; none was made where the journal wasn't full.
    pub(crate) fn cut<R: Wait>(&self, rt: &R, cut: Result<Option<()>, Refusal>) {
        match cut {
            Ok(Some(())) => self.lookout.cut(rt),
            Ok(None) => {}
            Err(refusal) => {
                self.lookout
                    .cut_failed(rt, refusal, Moment::now(&self.clock));
            }
        }
    }

    // rule: loaded-first
    /// Whether posts are answered already. Where they aren't, it is noted that one is replied to with 503.
    pub(crate) fn takes_posts<R: Wait>(&self, rt: &R) -> bool {
        let is_held = self.lookout.ending().is_held(rt);
        if is_held {
            self.lookout.polled(rt, 503);
        }
        !is_held
    }

    /// Notes that a post was replied to with this status.
    pub(crate) fn replied<R: Wait>(&self, rt: &R, status: u16) {
        self.lookout.polled(rt, status);
    }
}

// The stream whose request or poll an event is, if it is one.
fn stream_of(sight: &Sight) -> Option<u64>
    ensures { result ≡ stream_of sight.now }
{
    match sight {
        Sight::Request(stream, _) => Some(*stream),
        Sight::Poll(stream) => Some(*stream),
        Sight::Change(_) | Sight::Part | Sight::Other => None,
    }
}

// Whether an event is one of which the order is noted over all streams: a change that is made here, or a poll.
fn is_ordered(sight: &Sight) -> bool {
    match sight {
        Sight::Poll(_) | Sight::Change(_) => true,
        Sight::Request(_, _) | Sight::Part | Sight::Other => false,
    }
}
