// Where the segments of a replica's journal go.
use crate::recorder::Tape;
use crate::recording::Piece;
use std::sync::{Arc, Wait};
use xds_node::Host;
use xds_notes::lookout::Lookout;
use xds_resource::Refusal;

/// Where the segments of a replica's journal go: to a tape, if there is one, and else nowhere.
#[derive(Drop)]
pub struct SegmentSink {
    tape: Option<Arc<Tape>>,
}

impl SegmentSink {
    pub fn new(tape: Option<Arc<Tape>>) -> SegmentSink {
        SegmentSink { tape }
    }

    /// Cuts the journal of the node. That its recording ended by that is noted at the lookout. It may wait.
    pub(crate) fn cut<R: Wait, H: Host<Segment: Piece>>(
        &self,
        rt: &R,
        node: &H,
        lookout: &Lookout,
    ) -> Result<(), Refusal> {
        match &self.tape {
            Some(tape) => {
                let recorded = tape.record(rt, node)?;
                lookout.recording_ended(rt, recorded);
            }
            None => drop(node.cut(rt)?),
        }
        Ok(())
    }

    /// The same where the journal is full, and none where it isn't, as where another thread has cut it meanwhile.
    pub(crate) fn cut_full<R: Wait, H: Host<Segment: Piece>>(
        &self,
        rt: &R,
        node: &H,
        lookout: &Lookout,
    ) -> Result<Option<()>, Refusal> {
        match &self.tape {
            Some(tape) => match tape.record_full(rt, node)? {
                Some(recorded) => {
                    lookout.recording_ended(rt, recorded);
                    Ok(Some(()))
                }
                None => Ok(None),
            },
            None => match node.cut_full(rt)? {
                Some(segment) => {
                    drop(segment);
                    Ok(Some(()))
                }
                None => Ok(None),
            },
        }
    }
}
