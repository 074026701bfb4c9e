// The reading thread of a stream.
ghost use Rattle.std.specs.Prelude.{◌≡◌, ℕ, List, [], ◌++◌, IsOk, MatchResult, Result, Ok, Err};
ghost use Rattle.xds_core.specs.Legal.{Record};
ghost use Rattle.xds_frames.specs.Devices.{seen};
ghost use Rattle.xds_core.specs.StreamsSeen.{message_of};
ghost use Rattle.xds_flows.specs.Reading.{Asks, HasRead, ReadsAll};

use crate::streams::alone::queue_of_one;
use crate::streams::poll_reader::poll_requests;
use crate::streams::ways::ByCalls;
use futures::task::{Poll, Queue};
use std::alloc::{AllocGlobal, Global};
use std::io::Read;
use std::random::RandomSource;
use std::sync::Wait;
use xds_core::{Event, Request};
use xds_frames::{Counted, Decoder};
use xds_node::node::calls::{answered, close};
use xds_node::{Gate, Host};
use xds_resource::Refusal;

/// The reading thread of a stream: it reads frames, and makes of each the request that it spells. The last thing that it
/// asks for is the close of the stream, whatever happened before; it leaves a record, or was refused one (`JournalFull`
/// in spite of a cut, `OutOfMemory`), and then the stream may stay open. The gate is passed before each read.
///
/// It answers `Ok` where the input ends between frames and nothing was refused, and else the first refusal: of a frame or
/// of its message, as `run_stream` tells them, of the request, and `NoStream` where the stream was closed meanwhile;
/// `JournalFull` and `OutOfMemory` where a request left no record.
pub fn serve_reader<H: Host, G: Gate<H::Segment>, D: Read, R: Wait + RandomSource + AllocGlobal>(
    rt: &R,
    alloc: Global,
    node: &H,
    seat: &mut H::Seat,
    stream: u64,
    reader: &mut Counted<D>,
    gate: &G,
) -> Result<(), Refusal>
    ensures { (told : List (ℕ × Record)) × (tried : List Record) × (H.told seat.new ≡ H.told seat.old ++ told)
        × (H.refused seat.new ≡ H.refused seat.old ++ tried)
        × ReadsAll stream told tried (seen D.remaining reader.old reader.new) result }
{
    let served = read_requests(rt, alloc, node, seat, stream, reader, gate);
    close(rt, node, gate, seat, stream);
    served
}

// Reads and asks to the end of the input, or the first refusal, by polls that this thread makes.
fn read_requests<H: Host, G: Gate<H::Segment>, D: Read, R: Wait + RandomSource + AllocGlobal>(
    rt: &R,
    alloc: Global,
    node: &H,
    seat: &mut H::Seat,
    stream: u64,
    reader: &mut Counted<D>,
    gate: &G,
) -> Result<(), Refusal>
    ensures { (told : List (ℕ × Record)) × (tried : List Record) × (H.told seat.new ≡ H.told seat.old ++ told)
        × (H.refused seat.new ≡ H.refused seat.old ++ tried)
        × HasRead stream told tried [] (seen D.remaining reader.old reader.new) result }
{
    match queue_of_one(rt) {
        Ok(queue) => read_by(rt, alloc, &queue, node, seat, stream, reader, gate),
        Err(refusal) => Err(refusal),
    }
}

// Polls until the reading ends.
fn read_by<H: Host, G: Gate<H::Segment>, D: Read, R: Wait>(
    rt: &R,
    alloc: Global,
    queue: &Queue,
    node: &H,
    seat: &mut H::Seat,
    stream: u64,
    reader: &mut Counted<D>,
    gate: &G,
) -> Result<(), Refusal>
    ensures { (told : List (ℕ × Record)) × (tried : List Record) × (H.told seat.new ≡ H.told seat.old ++ told)
        × (H.refused seat.new ≡ H.refused seat.old ++ tried)
        × HasRead stream told tried [] (seen D.remaining reader.old reader.new) result }
{
    let mut decoder = Decoder::new(alloc);
    let mut passed = false;
    for _ in rt.forever() {
        let Some(mut cx) = queue.next(rt) else {
            continue;
        };
        let polled = poll_requests::<H, G, D, ByCalls, R>(
            rt,
            alloc,
            node,
            seat,
            stream,
            &mut decoder,
            reader,
            &mut passed,
            gate,
            &mut cx,
        );
        cx.end(&polled);
        match polled {
            Poll::Pending => {}
            Poll::Ready(end) => return end,
        }
    }
    unreachable!()
}

// Hands a request to the node.
pub(crate) fn ask<H: Host, G: Gate<H::Segment>, R: Wait>(
    rt: &R,
    node: &H,
    gate: &G,
    seat: &mut H::Seat,
    stream: u64,
    request: Request,
) -> Result<(), Refusal>
    ensures { (tries : List Record) × (H.refused seat.new ≡ H.refused seat.old ++ tries)
        × Asks stream (message_of request) (H.told seat.old) (H.told seat.new) tries result }
{
    granted(answered(rt, node, gate, seat, Event::Request(stream, request)))
}

// Whether an event was answered, without its reply.
fn granted<T: Drop>(answer: Result<T, Refusal>) -> Result<(), Refusal>
    ensures { MatchResult result (λ _. IsOk answer) (λ e. answer ≡ Err e) }
{
    match answer {
        Ok(_) => Ok(()),
        Err(refusal) => Err(refusal),
    }
}
