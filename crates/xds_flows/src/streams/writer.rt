// The writing thread of a stream.
ghost use Rattle.std.specs.Prelude.{◌≡◌, ◌≢◌, ℕ, List, [], ◌++◌, MatchBool, None, Result, Ok, Err};
ghost use Rattle.xds_resource.specs.declared.refusal.Refusal.TheVariants.{NoStream};
ghost use Rattle.xds_core.specs.Legal.{Record};
ghost use Rattle.xds_frames.specs.Devices.{seen};
ghost use Rattle.xds_flows.specs.Owing.{GivesUp, WritesFrom, write_at};
ghost use Rattle.xds_flows.specs.Writing.{WritesAll};

use crate::streams::alone::queue_of_one;
use crate::streams::poll_writer::{close_at_stop, next_response, poll_responses};
use crate::streams::ways::ByCalls;
use futures::task::{Poll, Queue};
use std::alloc::{AllocGlobal, Global};
use std::io::Write;
use std::random::RandomSource;
use std::sync::Wait;
use xds_frames::Counted;
use xds_message::Unsent;
use xds_node::{Gate, Host};
use xds_resource::Refusal;

/// The writing thread of a stream: it waits until a response is due, polls, and writes the response as a frame, outside of
/// the node's lock. The gate is passed before each frame.
///
/// It answers `Ok` once a poll finds the stream closed; then it asks for nothing more. Any other refusal is answered once it
/// asked for the close of the stream, as `serve_reader` does: of a poll (`NonceSpent`; `JournalFull` and `OutOfMemory` where it
/// left no record), or of a response, as `FrameTooLong`, `Device` and `OutOfMemory`, of which a beginning may be written.
pub fn serve_writer<H: Host, G: Gate<H::Segment>, W: Write, R: Wait + RandomSource + AllocGlobal>(
    rt: &R,
    alloc: Global,
    node: &H,
    seat: &mut H::Seat,
    stream: u64,
    writer: &mut Counted<W>,
    gate: &G,
) -> Result<(), Refusal>
    ensures { (told : List (ℕ × Record)) × (tried : List Record) × (H.told seat.new ≡ H.told seat.old ++ told)
        × (H.refused seat.new ≡ H.refused seat.old ++ tried)
        × WritesAll stream told tried (seen W.contents writer.old writer.new) result }
{
    let served = write_responses(rt, alloc, node, seat, stream, writer, gate);
    close_at_stop(rt, node, gate, seat, stream, &served);
    served
}

// Polls and writes until a poll finds the stream closed, by polls that this thread makes. Where there is no memory for that, what is due is
// given up.
fn write_responses<H: Host, G: Gate<H::Segment>, W: Write, R: Wait + RandomSource + AllocGlobal>(
    rt: &R,
    alloc: Global,
    node: &H,
    seat: &mut H::Seat,
    stream: u64,
    writer: &mut Counted<W>,
    gate: &G,
) -> Result<(), Refusal>
    ensures { WritesFrom stream (write_at H.told H.refused W.contents seat.old None [] writer.old) result
        (write_at H.told H.refused W.contents seat.new None [] writer.new) }
{
    for _ in rt.forever() {
        if let Ok(queue) = queue_of_one(rt) {
            return write_by(rt, alloc, &queue, node, seat, stream, writer, gate);
        }
        if let Some(end) = give_up(rt, node, seat, stream, gate) {
            return end;
        }
    }
    unreachable!()
}

// Waits until something is due, and polls for a response that can't be written. Answers how the writing ends, unless none was given.
fn give_up<H: Host, G: Gate<H::Segment>, R: Wait>(
    rt: &R,
    node: &H,
    seat: &mut H::Seat,
    stream: u64,
    gate: &G,
) -> Option<Result<(), Refusal>>
    ensures { GivesUp stream (H.told seat.old) (H.told seat.new) (H.refused seat.old) (H.refused seat.new) result }
{
    node.wait_due(rt, stream);
    match next_response(rt, node, seat, stream, gate) {
        Ok(Some(draft)) => {
            drop(draft);
            Some(Err(Refusal::OutOfMemory))
        }
        Ok(None) => None,
        Err(end) => Some(end),
    }
}

// Polls until the writing ends.
fn write_by<H: Host, G: Gate<H::Segment>, W: Write, R: Wait>(
    rt: &R,
    alloc: Global,
    queue: &Queue,
    node: &H,
    seat: &mut H::Seat,
    stream: u64,
    writer: &mut Counted<W>,
    gate: &G,
) -> Result<(), Refusal>
    ensures { WritesFrom stream (write_at H.told H.refused W.contents seat.old None [] writer.old) result
        (write_at H.told H.refused W.contents seat.new None [] writer.new) }
{
    let mut given = None;
    let mut owed = Unsent::none(alloc);
    for _ in rt.forever() {
        let Some(mut cx) = queue.next(rt) else {
            continue;
        };
        let polled = poll_responses::<H, G, W, ByCalls, R>(
            rt, alloc, node, seat, stream, &mut given, &mut owed, writer, gate, &mut cx,
        );
        cx.end(&polled);
        match polled {
            Poll::Pending => {}
            Poll::Ready(end) => return end,
        }
    }
    unreachable!()
}

// Whether a refusal tells that a stream isn't open.
pub(crate) fn is_closed(refusal: Refusal) -> bool
    ensures { MatchBool result (refusal ≡ NoStream) (refusal ≢ NoStream) }
{
    refusal == Refusal::NoStream
}
