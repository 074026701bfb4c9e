// A client's stream from its first request to its last answer.
ghost use Rattle.std.specs.Prelude.{◌≡◌, ◌<◌, ◌+◌, OnOk, []};
ghost use Rattle.xds_frames.specs.Devices.{seen};
ghost use Rattle.xds_frames.specs.Frames.{IsPartial};
ghost use Rattle.xds_client.specs.Running.{Runs, Serves, Starts};
ghost use Rattle.xds_client.specs.Turning.{Fills, Turns, client_of, devices, left_to_do, variant_of};

use crate::answering::{ResponseReply, StreamClient};
use crate::opening::open;
use crate::subscription::Subscription;
use std::alloc::Global;
use std::io::{Read, Write};
use xds_frames::{Counted, Decoder, write_whole};
use xds_resource::{Refusal, TypeName};

/// As many bytes as are read at once.
const PIECE: usize = 4096;

/// Asks for names of a type on a stream, and answers responses until there were as many as are wanted. Of each response a
/// line is printed, `taken NONCE` or `refused NONCE`, and a line for each resource of the type that is held then; then the
/// request is written that says so. Requests and lines are flushed.
///
/// It answers `Ok` once the last answer is written, and else the first refusal: of a frame (`EmptyFrame`, `FrameTooLong`,
/// `UnknownKind`), `Truncated` where the input ends before the last response, be it within a frame or between two,
/// `WrongVariant` where a frame is no response of the client's variant, `NotJson` and `BadMessage` where its text spells none,
/// `BadMessage` where it is of a type that isn't asked for, `FrameTooLong` where a request is too long for a frame, `Device`
/// where a call of the reader or of a writer failed, and `OutOfMemory`. What came before the fault was printed and answered.
pub fn run_client<R: Read, W: Write, O: Write>(
    alloc: Global,
    wish: &Subscription<'_>,
    reader: &mut Counted<R>,
    writer: &mut Counted<W>,
    output: &mut Counted<O>,
) -> Result<(), Refusal>
    ensures { Runs wish.now result (devices (seen R.remaining reader.old reader.new) (seen W.contents writer.old writer.new) (seen O.contents output.old output.new) reader.old.calls reader.new.calls) }
{
    let (mut client, said) = open(alloc, wish)?;
    let answer = start(
        alloc,
        wish,
        &mut client,
        said.as_slice(),
        reader,
        writer,
        output,
    );
    drop(client);
    answer
}

// Says the first requests, and serves the stream.
fn start<R: Read, W: Write, O: Write>(
    alloc: Global,
    wish: &Subscription<'_>,
    client: &mut StreamClient,
    said: &[u8],
    reader: &mut Counted<R>,
    writer: &mut Counted<W>,
    output: &mut Counted<O>,
) -> Result<(), Refusal>
    ensures { Starts (variant_of client.old) wish.now.kind (client_of client.old) wish.now.responses said.now result (devices (seen R.remaining reader.old reader.new) (seen W.contents writer.old writer.new) (seen O.contents output.old output.new) reader.old.calls reader.new.calls) }
{
    write_whole(writer, said)?;
    serve(alloc, wish, client, reader, writer, output)
}

// Answers as many responses as are wanted.
fn serve<R: Read, W: Write, O: Write>(
    alloc: Global,
    wish: &Subscription<'_>,
    client: &mut StreamClient,
    reader: &mut Counted<R>,
    writer: &mut Counted<W>,
    output: &mut Counted<O>,
) -> Result<(), Refusal>
    ensures { Serves (variant_of client.old) wish.now.kind (client_of client.old) wish.now.responses [] result (devices (seen R.remaining reader.old reader.new) (seen W.contents writer.old writer.new) (seen O.contents output.old output.new) reader.old.calls reader.new.calls) }
{
    let mut decoder = Decoder::new(alloc);
    let mut left = wish.responses;
    while left > 0 {
        if !turn(
            alloc,
            wish.kind,
            client,
            &mut decoder,
            reader,
            writer,
            output,
        )? {
            continue;
        }
        left -= 1;
    }
    Ok(())
}

// Answers the next response, or reads a piece where none is there whole. Answers whether it was a response.
fn turn<R: Read, W: Write, O: Write>(
    alloc: Global,
    kind: TypeName,
    client: &mut StreamClient,
    decoder: &mut Decoder,
    reader: &mut Counted<R>,
    writer: &mut Counted<W>,
    output: &mut Counted<O>,
) -> Result<bool, Refusal>
    ensures turns { Turns (variant_of client.old) kind (client_of client.old) decoder.old result (client_of client.new) decoder.new (devices (seen R.remaining reader.old reader.new) (seen W.contents writer.old writer.new) (seen O.contents output.old output.new) reader.old.calls reader.new.calls) }
    ensures variant { variant_of client.new ≡ variant_of client.old }
    ensures falls { OnOk result (left_to_do reader.new.calls decoder.new < left_to_do reader.old.calls decoder.old) }
{
    match client.answer_next(alloc, kind, decoder)? {
        Some(reply) => {
            write_whole(output, reply.lines.as_bytes())?;
            write_whole(writer, reply.frame.as_slice())?;
            Ok(true)
        }
        None => {
            fill(decoder, reader)?;
            Ok(false)
        }
    }
}

// rule: whole-frames
// Reads a piece, where there is less than a frame.
fn fill<R: Read>(decoder: &mut Decoder, reader: &mut Counted<R>) -> Result<(), Refusal>
    requires { IsPartial decoder.old }
    ensures filled { Fills decoder.old (seen R.remaining reader.old reader.new) result decoder.new }
    ensures called { OnOk result (reader.new.calls ≡ reader.old.calls + 1) }
    ensures falls { OnOk result (left_to_do reader.new.calls decoder.new < left_to_do reader.old.calls decoder.old) }
{
    let mut piece = [0; PIECE];
    let Ok(count) = reader.read(&mut piece) else {
        return Err(Refusal::Device);
    };
    if count == 0 {
        return Err(Refusal::Truncated);
    }
    decoder.feed(&piece[..count])
}
