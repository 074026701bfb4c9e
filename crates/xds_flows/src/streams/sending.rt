// Responses sent: each written as a frame.
ghost use Rattle.std.specs.Prelude.{◌≡◌, IfOk, IfErr, Ok};
ghost use Rattle.xds_frames.specs.Devices.{seen};
ghost use Rattle.xds_core.specs.StreamsSeen.{message_of};
ghost use Rattle.xds_node.specs.Sending.{IsHeadOf, IsUnframed, Sends, kind_of};
ghost use Rattle.xds_node.specs.Turning.{AnswersOne, IsOpen, SendsDue};

use std::alloc::Global;
use std::io::Write;
use xds_core::{Core, Request};
use xds_frames::frame::LONGEST;
use xds_frames::{Counted, FrameKind, frame_head};
use xds_message::{Draft, Pieces};
use xds_node::node::asking::{ask, poll};
use xds_resource::Refusal;

// How many bytes are gathered before they are written.
const BLOCK: usize = 32_768;

// Room for what stands round the texts of resources that are written as one.
const ENDS: usize = 512;

pub(crate) fn kind_of(draft: &Draft) -> FrameKind
    ensures { result ≡ kind_of draft.now }
{
    match draft {
        Draft::Sotw(_) => FrameKind::DiscoveryResponse,
        Draft::Delta(_) => FrameKind::DeltaDiscoveryResponse,
    }
}

/// What stands before a text in its frame, in a block that has room for some of the text, too.
pub(crate) fn head_of(alloc: Global, kind: FrameKind, text: &Pieces<'_>) -> Result<Vec<u8>, Refusal>
    ensures ok { IfOk result (λ head. IsHeadOf (record { kind = kind; text = text.now }) head.items) }
    ensures refused { IfErr result (λ e. IsUnframed (record { kind = kind; text = text.now }) e) }
{
    let Some(length) = text.length_up_to(LONGEST) else {
        return Err(Refusal::FrameTooLong);
    };
    let head = frame_head(kind, length)?;
    let mut block = Vec::with_capacity(alloc, room_for(length, text.is_joined()))?;
    block.extend_from_slice(&head)?;
    Ok(block)
}

// The size of a block for a frame of this length of text: short frames are written in one piece, and of long ones whose resources
// are written as one only what stands round these is gathered.
fn room_for(length: usize, is_joined: bool) -> usize {
    if length < BLOCK {
        return length + 5;
    }
    if is_joined { ENDS } else { BLOCK }
}

/// Writes a response as a frame: the texts of resources from where they are stored, so that the whole is never in memory.
/// `FrameTooLong` where the text is too long for a frame, and `Device` where a call of the writer failed.
pub fn send<W: Write>(alloc: Global, draft: &Draft, writer: &mut Counted<W>) -> Result<(), Refusal>
    ensures { Sends draft.now result (seen W.contents writer.old writer.new) }
{
    let text = draft.pieces(alloc)?;
    let block = head_of(alloc, kind_of(draft), &text)?;
    match text.write(writer, block) {
        Ok(()) => Ok(()),
        Err(refusal) => Err(refusal),
    }
}

// Polls for responses of all types until there is none, and sends each.
fn send_due<W: Write>(
    alloc: Global,
    core: &mut Core,
    stream: u64,
    writer: &mut Counted<W>,
) -> Result<(), Refusal>
    requires { IsOpen stream core.old }
    ensures sends { SendsDue stream core.old (seen W.contents writer.old writer.new) result core.new }
    ensures open { IsOpen stream core.new }
{
    while let Some(draft) = poll(core, stream)? {
        send(alloc, &draft, writer)?;
    }
    Ok(())
}

// Answers a request: the replica takes it, and all responses that are then due are sent.
pub(crate) fn answer<W: Write>(
    alloc: Global,
    core: &mut Core,
    stream: u64,
    request: Request,
    writer: &mut Counted<W>,
) -> Result<(), Refusal>
    requires { IsOpen stream core.old }
    ensures answers { AnswersOne stream (message_of request) core.old (seen W.contents writer.old writer.new) result core.new }
    ensures open { IsOpen stream core.new }
{
    ask(core, stream, request)?;
    send_due(alloc, core, stream, writer)
}
