// A stream from its opening to its close.
ghost use Rattle.std.specs.Prelude.{◌≡◌, ◌<◌, true, IfOk, []};
ghost use Rattle.xds_frames.specs.Devices.{seen};
ghost use Rattle.xds_node.specs.Running.{Runs, Serves};
ghost use Rattle.xds_node.specs.Turning.{IsOpen, Turns, left_to_do};

use crate::streams::reading::{fill, next_request};
use crate::streams::sending::answer;
use std::alloc::Global;
use std::io::{Read, Write};
use xds_core::Core;
use xds_frames::{Counted, Decoder};
use xds_node::node::asking::{close, open};
use xds_resource::Refusal;

/// Serves one stream of a replica: it is opened, each request that is read is answered by all responses that are then due,
/// each written as a frame, and it is closed in every case.
///
/// It answers `Ok` where the input ends between frames, and else the first refusal: of a frame (`EmptyFrame`, `FrameTooLong`,
/// `UnknownKind`; `Truncated` where the input ends within one), of its message (`WrongVariant` where the frame is none of
/// a client, `NotJson`, `BadMessage`), of the replica (`CounterSpent` where the stream can't be opened, `WrongVariant` and
/// `BadMessage` at a request, `NonceSpent` at a response), `FrameTooLong` at a response that is too long for a frame, `Device`
/// where a call of the reader or the writer failed, and `OutOfMemory`. What came before the fault was answered.
///
/// The writer isn't flushed. The memory in use is that of one frame and one piece of the input, and for a response that of a
/// block of 32 KiB.
pub fn run_stream<R: Read, W: Write>(
    alloc: Global,
    core: &mut Core,
    reader: &mut Counted<R>,
    writer: &mut Counted<W>,
) -> Result<(), Refusal>
    ensures { Runs core.old (seen R.remaining reader.old reader.new) (seen W.contents writer.old writer.new) result core.new }
{
    let stream = open(core)?;
    let served = serve(alloc, core, stream, reader, writer);
    close(core, stream);
    served
}

// Serves an open stream to its end.
fn serve<R: Read, W: Write>(
    alloc: Global,
    core: &mut Core,
    stream: u64,
    reader: &mut Counted<R>,
    writer: &mut Counted<W>,
) -> Result<(), Refusal>
    requires { IsOpen stream core.old }
    ensures serves { Serves stream core.old [] (seen R.remaining reader.old reader.new) (seen W.contents writer.old writer.new) result core.new }
    ensures open { IsOpen stream core.new }
{
    let mut decoder = Decoder::new(alloc);
    while turn(alloc, core, stream, &mut decoder, reader, writer)? {}
    Ok(())
}

// Answers the next request, or reads a piece where none is there whole. Answers whether there is more to be done.
fn turn<R: Read, W: Write>(
    alloc: Global,
    core: &mut Core,
    stream: u64,
    decoder: &mut Decoder,
    reader: &mut Counted<R>,
    writer: &mut Counted<W>,
) -> Result<bool, Refusal>
    requires { IsOpen stream core.old }
    ensures turns { Turns stream core.old decoder.old (seen R.remaining reader.old reader.new) (seen W.contents writer.old writer.new) result core.new decoder.new }
    ensures open { IsOpen stream core.new }
    ensures falls { IfOk result (λ more. more ≡ true → left_to_do reader.new.calls decoder.new < left_to_do reader.old.calls decoder.old) }
{
    match next_request(alloc, decoder)? {
        Some(request) => {
            answer(alloc, core, stream, request, writer)?;
            Ok(true)
        }
        None => fill(decoder, reader),
    }
}
