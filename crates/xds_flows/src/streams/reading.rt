// Bytes read, and requests found in them.
ghost use Rattle.std.specs.Prelude.{◌≡◌, ◌<◌, true, IfOk, IfErr, length};
ghost use Rattle.xds_resource.specs.declared.refusal.Refusal.TheVariants.{OutOfMemory};
ghost use Rattle.xds_frames.specs.Devices.{seen};
ghost use Rattle.xds_frames.specs.Frames.{IsPartial};
ghost use Rattle.xds_core.specs.StreamsSeen.{message_of};
ghost use Rattle.xds_node.specs.Ending.{IsUnread};
ghost use Rattle.xds_node.specs.Requests.{Spells};
ghost use Rattle.xds_node.specs.Turning.{Fills, GivesRequest, left_to_do};

use std::alloc::Global;
use std::io::Read;
use xds_core::Request;
use xds_frames::{Counted, Decoder, FrameKind};
use xds_message::{DeltaDiscoveryRequest, DiscoveryRequest};
use xds_resource::Refusal;

/// As many bytes as are read at once.
pub(crate) const PIECE: usize = 4096;

// The request that a frame's text spells.
fn request_of(alloc: Global, kind: FrameKind, text: &[u8]) -> Result<Request, Refusal>
    ensures ok { IfOk result (λ q. Spells (record { kind = kind; text = text.now }) (message_of q)) }
    ensures refused { IfErr result (IsUnread (record { kind = kind; text = text.now })) }
{
    match kind {
        FrameKind::DiscoveryRequest => {
            let request = DiscoveryRequest::read(alloc, text)?;
            Ok(Request::Sotw(request))
        }
        FrameKind::DeltaDiscoveryRequest => {
            let request = DeltaDiscoveryRequest::read(alloc, text)?;
            Ok(Request::Delta(request))
        }
        _ => Err(Refusal::WrongVariant),
    }
}

/// The request of the next frame, if a whole one is there. Refused by a fault of the bytes, as `Decoder::next` tells it,
/// where the frame is none of a client (`WrongVariant`), and as its message is read (`NotJson`, `BadMessage`).
pub fn next_request(alloc: Global, decoder: &mut Decoder) -> Result<Option<Request>, Refusal>
    ensures { GivesRequest decoder.old result decoder.new }
{
    match decoder.next()? {
        Some(frame) => Ok(Some(request_of(alloc, frame.kind, frame.text)?)),
        None => Ok(None),
    }
}

// rule: whole-frames
/// Reads a piece, where there is less than a frame. Answers whether there was one; there is none at the end of the input.
/// `Truncated` where that comes within a frame, and `Device` where the call of the reader failed.
pub fn fill<R: Read>(decoder: &mut Decoder, reader: &mut Counted<R>) -> Result<bool, Refusal>
    requires { IsPartial decoder.old }
    ensures filled { Fills decoder.old (seen R.remaining reader.old reader.new) result decoder.new }
    ensures falls { IfOk result (λ more. more ≡ true → left_to_do reader.new.calls decoder.new < left_to_do reader.old.calls decoder.old) }
{
    let mut piece = [0; PIECE];
    let Ok(count) = reader.read(&mut piece) else {
        return Err(Refusal::Device);
    };
    if count == 0 {
        decoder.finish()?;
        return Ok(false);
    }
    decoder.feed(&piece[..count])?;
    Ok(true)
}
