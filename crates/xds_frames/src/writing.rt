// How frames are written.
ghost use Rattle.std.specs.Prelude.{◌≡◌, ◌≤◌, OnErr, length};
ghost use Rattle.xds_resource.specs.declared.refusal.Refusal.TheVariants.{FrameTooLong};
ghost use Rattle.xds_resource.specs.Refusals.{Gives};
ghost use Rattle.xds_frames.specs.Frames.{longest};
ghost use Rattle.xds_frames.specs.Writing.{head_written, frame_written, frame_added};

use crate::frame::{FrameKind, LONGEST};
use std::alloc::Global;
use xds_resource::Refusal;

/// What stands before a text of this length: four bytes of length, and the kind.
///
/// A text of 16,777,216 bytes or more is refused by `FrameTooLong`, here and below.
pub fn frame_head(kind: FrameKind, length: usize) -> Result<[u8; 5], Refusal>
    ensures { result ≡ head_written kind length }
{
    if length >= LONGEST {
        return Err(Refusal::FrameTooLong);
    }
    let [a, b, c, d] = (length as u32 + 1).to_be_bytes();
    Ok([a, b, c, d, kind.number()])
}

/// Puts a frame at the end of the bytes, or leaves them as they were.
pub fn push_frame(out: &mut Vec<u8>, kind: FrameKind, text: &[u8]) -> Result<(), Refusal>
    ensures written { Gives (λ _. out.new.items) result (frame_added out.old.items kind text.now) }
    ensures too_long { longest ≤ length text.now → result ≡ Err FrameTooLong }
    ensures kept { OnErr result (out.new.items ≡ out.old.items) }
{
    let head = frame_head(kind, text.len())?;
    out.reserve(head.len() + text.len())?;
    out.extend_from_slice(&head)?;
    out.extend_from_slice(text)?;
    Ok(())
}

/// The bytes of a frame.
pub fn write_frame(alloc: Global, kind: FrameKind, text: &[u8]) -> Result<Vec<u8>, Refusal>
    ensures written { Gives (λ bytes. bytes.items) result (frame_written kind text.now) }
    ensures too_long { longest ≤ length text.now → result ≡ Err FrameTooLong }
{
    let mut bytes = Vec::new(alloc);
    push_frame(&mut bytes, kind, text)?;
    Ok(bytes)
}
