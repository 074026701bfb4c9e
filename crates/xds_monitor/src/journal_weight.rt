// What the journal of a replica weighs, and when it is cut for that.
use crate::weights::{answer_weight, event_weight, written_weight};
use std::alloc::Global;
use std::sync::{Mutex, MutexGuard, Wait};
use xds_core::{Event, Reply};
use xds_resource::Refusal;

/// About how many bytes the records of a journal may take: 4 MiB. A journal with more of them is cut, whatever its length.
pub const MOST_BYTES: u64 = 4_194_304;

/// About how many bytes the records of a journal take since it was cut for that. It is cut again once they take about [`MOST_BYTES`].
/// So requests as long as a frame may be, or responses that state very much, take no more memory than that, beside what the replica
/// holds. Where its trace is recorded, a response counts by its text, so that what is still to be written of a trace is never much
/// more, either.
#[derive(Drop)]
pub struct JournalWeight {
    alloc: Global,
    is_recorded: bool,
    weight: Mutex<u64>,
    // Whose turn it is to cut it for that.
    turn: Mutex<()>,
}

impl JournalWeight {
    /// That of a journal without a record, and whether its trace is recorded.
    pub fn new(alloc: Global, is_recorded: bool) -> JournalWeight {
        JournalWeight {
            alloc,
            is_recorded,
            weight: Mutex::new(0),
            turn: Mutex::new(()),
        }
    }

    /// About how many bytes an event takes in a record.
    pub(crate) fn asked(&self, event: &Event) -> u64 {
        event_weight(self.alloc, event)
    }

    fn answered(&self, answer: &Result<Reply, Refusal>) -> u64 {
        if self.is_recorded {
            written_weight(self.alloc, answer)
        } else {
            answer_weight(answer)
        }
    }

    /// Counts a record, whose event takes so many bytes. Answers whether the journal is too heavy then. It may wait.
    pub(crate) fn count<R: Wait>(
        &self,
        rt: &R,
        asked: u64,
        answer: &Result<Reply, Refusal>,
    ) -> bool {
        let bytes = asked.saturating_add(self.answered(answer));
        let mut weight = self.weight.lock(rt);
        *weight = (*weight).saturating_add(bytes);
        *weight > MOST_BYTES
    }

    // rule: cuts
    /// The turn to cut a journal that is too heavy, until it is dropped; none where another cut it while this waited. So no more is held
    /// back than a journal, where what is cut is written slowly. The count begins anew, so a cut that finds no memory is tried again once
    /// as much came again.
    pub(crate) fn lighten<R: Wait>(&self, rt: &R) -> Option<MutexGuard<'_, ()>> {
        let turn = self.turn.lock(rt);
        let mut weight = self.weight.lock(rt);
        if *weight > MOST_BYTES {
            *weight = 0;
            Some(turn)
        } else {
            None
        }
    }
}
