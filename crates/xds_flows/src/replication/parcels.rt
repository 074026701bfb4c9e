// What passes between the threads of two replicas: parcels one way, and receipts the other.
ghost use Rattle.std.specs.Prelude.{◌≡◌, ◌⊎◌, IfOk, IfErr, OnOk, List};
ghost use Rattle.xds_resource.specs.PerType.{PerType};
ghost use Rattle.xds_resource.specs.Writes.{StampedWrite};
ghost use Rattle.xds_resource.specs.declared.refusal.Refusal.TheVariants.{OutOfMemory, FrameTooLong, NotJson, BadMessage, WrongVariant};
ghost use Rattle.xds_frames.specs.Frames.{IsFrame, frame_bytes};
ghost use Rattle.xds_flows.specs.Parcels.{batch_frame, IsFrameOf};

use std::alloc::Global;
use std::marker::Model;
use xds_frames::{FrameKind, first_frame, write_frame};
use xds_message::Batch;
use xds_resource::Refusal;

/// The frame of a part of a batch, and whether it is the last one. Contracts see the frame's bytes.
pub struct Parcel {
    pub frame: Vec<u8>,
    pub last: bool,
}

// Written out: docs/PROVING.md, "Drops".
impl Drop for Parcel {
    fn drop(self) {
        let Parcel { frame: _, last: _ } = self;
    }
}

impl Model for Parcel {
    ghost use Rattle.std.specs.Prelude.{ℕ, List, Bool};

    ghost Value = { List ℕ × Bool };

    ghost view = { λ p. (p.frame.items, p.last) };
}

/// What became of a batch.
#[derive(Clone, Copy, Debug, PartialEq, Eq, Drop)]
pub enum Receipt {
    /// All of its parts were merged.
    Merged,
    /// A part of it wasn't.
    Lost,
}

impl Parcel {
    /// The parcel of a part. `FrameTooLong` only where the part's text has 16,777,216 bytes or more, and then there is no
    /// parcel of it; else it is refused only by `OutOfMemory`.
    pub fn pack(alloc: Global, part: &Batch, last: bool) -> Result<Parcel, Refusal>
        ensures ok { IfOk result (λ p. p ≡ (frame_bytes (batch_frame part.now), last)) }
        ensures fits { OnOk result (IsFrame (batch_frame part.now)) }
        ensures refused { IfErr result (λ e. (e ≡ OutOfMemory) ⊎ ((e ≡ FrameTooLong) × ¬ IsFrame (batch_frame part.now))) }
    {
        match part.write(alloc) {
            Err(_) => Err(Refusal::OutOfMemory),
            Ok(text) => match write_frame(alloc, FrameKind::Batch, text.as_bytes()) {
                Ok(frame) => Ok(Parcel { frame, last }),
                Err(refusal) => Err(refusal),
            },
        }
    }

    /// The part in it. Refused where the bytes are no frame of a batch (as a decoder and `Batch::read` tell it;
    /// `Truncated` where less than a frame is there, `WrongVariant` where it is of another kind). A frame of a batch is
    /// refused only by `OutOfMemory`.
    pub fn unpack(&self, alloc: Global) -> Result<Batch, Refusal>
        ensures ok { IfOk result (IsFrameOf self.now.0) }
        ensures refused { IfErr result (λ e. (b : PerType (List StampedWrite)) → IsFrameOf self.now.0 b → e ≡ OutOfMemory) }
    {
        match first_frame(&self.frame) {
            Err(refusal) => Err(refusal),
            Ok(None) => Err(Refusal::Truncated),
            Ok(Some(frame)) => match frame.kind {
                FrameKind::Batch => Batch::read(alloc, frame.text),
                _ => Err(Refusal::WrongVariant),
            },
        }
    }
}
