// The writing half of a stream, as polls: nothing may be due, and the writer and the gate may be pending. And as a future, which owns
// its seat.
ghost use Rattle.std.specs.Prelude.{◌≡◌, ◌<◌, ◌≤◌, ◌++◌, ℕ, List, [], length, drop, None, IfSome, IsSome, IsSomeAnd, MatchResult};
ghost use Rattle.xds_core.specs.Legal.{Record};
ghost use Rattle.futures.specs.Task.{Covers, Keeps};
ghost use Rattle.futures.specs.Poll.{IfReady, OnPending};
ghost use Rattle.xds_frames.specs.Devices.{MoreFailed, seen};
ghost use Rattle.xds_flows.specs.Owing.{AsGiven, Asked, BeginsGiven, Closes, EndOf, IfEnded, OnGoing, PutsOnce, Waits, WriteLeads, WritesFrom, WritesOn, taken_by, write_at};

use crate::streams::known::KnownWrite;
use crate::streams::ways::{ByPolls, Writes};
use crate::streams::writer::is_closed;
use futures::Future;
use futures::task::{Context, Poll};
use std::alloc::Global;
use std::sync::Wait;
use std::{io, mem};
use xds_core::Event;
use xds_frames::Counted;
use xds_message::{Draft, Unsent};
use xds_node::node::calls::{answered, close};
use xds_node::{Gate, Host, Place, draft_in};
use xds_resource::Refusal;

/// As many turns as one poll makes before it lets other streams run.
const TURNS: usize = 64;

// Writes some of what is under way, and counts a call that fails. A write that takes nothing is one that failed.
fn poll_some<W, P: Writes<W>>(
    writer: &mut Counted<W>,
    cx: &mut Context<'_>,
    owed: &mut Unsent,
) -> Poll<Result<(), Refusal>>
    requires { 0 < length owed.old }
    ensures put { PutsOnce (seen P.contents writer.old writer.new) owed.old owed.new result }
    ensures registered { OnPending result (Covers cx.new (P.needs writer.new.inner)) }
    ensures left { OnPending result (0 < length owed.new) }
    ensures kept { Keeps cx.old cx.new }
{
    let Poll::Ready(written) = P::poll_write(&mut writer.inner, cx, owed.chunk()) else {
        return Poll::Pending;
    };
    Poll::Ready(take(writer, owed, count_of(written)))
}

// How many bytes a write took: none where it failed.
fn count_of(written: io::Result<usize>) -> usize
    ensures { result ≡ taken_by written }
{
    match written {
        Ok(count) => count,
        Err(_) => 0,
    }
}

// Takes what was written from what is owed. A write that took nothing is one that failed.
fn take<W>(writer: &mut Counted<W>, owed: &mut Unsent, count: usize) -> Result<(), Refusal>
    requires { count ≤ length owed.old }
    ensures left { owed.new ≡ drop count owed.old }
    ensures inner { writer.new.inner ≡ writer.old.inner }
    ensures ends { MatchResult result (λ _. writer.new.failed ≡ writer.old.failed) (λ e. (e ≡ Refusal.Device) × MoreFailed writer.old.failed writer.new.failed) }
{
    if count == 0 {
        return Err(failed(writer));
    }
    owed.advance(count);
    Ok(())
}

// Counts a call that failed.
fn failed<W>(writer: &mut Counted<W>) -> Refusal
    ensures inner { writer.new.inner ≡ writer.old.inner }
    ensures failed { MoreFailed writer.old.failed writer.new.failed }
    ensures device { result ≡ Refusal.Device }
{
    writer.failed = writer.failed.saturating_add(1);
    Refusal::Device
}

// Begins the response that was given: what is left to be written of its frame is owed then.
fn begin_given<W, P: Writes<W>>(
    alloc: Global,
    given: &mut Option<Draft>,
    owed: &mut Unsent,
    writer: &mut Counted<W>,
) -> Result<(), Refusal>
    requires { IsSome given.old }
    ensures { BeginsGiven given.old given.new (seen P.contents writer.old writer.new) owed.new result }
{
    let Some(draft) = given.take() else {
        unreachable!();
    };
    let begun = P::begin(alloc, &draft, writer);
    drop(draft);
    match begun {
        Ok(left) => {
            *owed = left;
            Ok(())
        }
        Err(refusal) => Err(refusal),
    }
}

// Why a poll that was refused ends the writing.
fn end_of(refusal: Refusal) -> Result<(), Refusal>
    ensures { EndOf refusal result }
{
    if is_closed(refusal) {
        return Ok(());
    }
    Err(refusal)
}

// Polls for the next response: nothing where none is given; or the end.
pub(crate) fn next_response<H: Host, G: Gate<H::Segment>, R: Wait>(
    rt: &R,
    node: &H,
    seat: &mut H::Seat,
    stream: u64,
    gate: &G,
) -> Result<Option<Draft>, Result<(), Refusal>>
    ensures { Asked stream (H.told seat.old) (H.told seat.new) (H.refused seat.old) (H.refused seat.new) result }
{
    match answered(rt, node, gate, seat, Event::Poll(stream, None)) {
        Ok(reply) => Ok(draft_in(reply)),
        Err(refusal) => Err(end_of(refusal)),
    }
}

// Writes what is under way; or begins what was given, once the gate lets it; or waits until something is due and polls.
fn poll_turn<H: Host, G: Gate<H::Segment>, W, P: Writes<W>, R: Wait>(
    rt: &R,
    alloc: Global,
    node: &H,
    seat: &mut H::Seat,
    stream: u64,
    given: &mut Option<Draft>,
    owed: &mut Unsent,
    writer: &mut Counted<W>,
    gate: &G,
    cx: &mut Context<'_>,
) -> Poll<Option<Result<(), Refusal>>>
    ensures going { OnGoing result (WriteLeads stream (write_at H.told H.refused P.contents seat.old given.old owed.old writer.old)
        (write_at H.told H.refused P.contents seat.new given.new owed.new writer.new)) }
    ensures ended { IfEnded result (λ r. WritesFrom stream (write_at H.told H.refused P.contents seat.old given.old owed.old writer.old) r
        (write_at H.told H.refused P.contents seat.new given.new owed.new writer.new)) }
    ensures registered { OnPending result (Covers cx.new (Waits (AsGiven (H.rings node.now) (G.waits gate.now) given.new) (P.needs writer.new.inner) owed.new)) }
    ensures kept { Keeps cx.old cx.new }
{
    if !owed.is_empty() {
        return match poll_some::<W, P>(writer, cx, owed) {
            Poll::Pending => Poll::Pending,
            Poll::Ready(Ok(())) => Poll::Ready(None),
            Poll::Ready(Err(refusal)) => Poll::Ready(Some(Err(refusal))),
        };
    }
    if given.is_some() {
        if let Poll::Pending = gate.poll_pass(rt, cx, Place::BeforeWrite, stream) {
            return Poll::Pending;
        }
        return match begin_given::<W, P>(alloc, given, owed, writer) {
            Ok(()) => Poll::Ready(None),
            Err(refusal) => Poll::Ready(Some(Err(refusal))),
        };
    }
    if let Poll::Pending = P::poll_due(rt, node, cx, stream) {
        return Poll::Pending;
    }
    match next_response(rt, node, seat, stream, gate) {
        Ok(next) => {
            drop(mem::replace(given, next));
            Poll::Ready(None)
        }
        Err(end) => Poll::Ready(Some(end)),
    }
}

/// Polls and writes until a poll finds the stream closed, as far as replica, writer and gate let it. `given` is a response that isn't
/// begun, as its gate wasn't passed, and `owed` is what is left to be written of the one under way: neither at first.
pub fn poll_responses<H: Host, G: Gate<H::Segment>, W, P: Writes<W>, R: Wait>(
    rt: &R,
    alloc: Global,
    node: &H,
    seat: &mut H::Seat,
    stream: u64,
    given: &mut Option<Draft>,
    owed: &mut Unsent,
    writer: &mut Counted<W>,
    gate: &G,
    cx: &mut Context<'_>,
) -> Poll<Result<(), Refusal>>
    ensures going { OnPending result (WriteLeads stream (write_at H.told H.refused P.contents seat.old given.old owed.old writer.old)
        (write_at H.told H.refused P.contents seat.new given.new owed.new writer.new)) }
    ensures ended { IfReady result (λ r. WritesFrom stream (write_at H.told H.refused P.contents seat.old given.old owed.old writer.old) r
        (write_at H.told H.refused P.contents seat.new given.new owed.new writer.new)) }
    ensures registered { OnPending result (Covers cx.new (Waits (AsGiven (H.rings node.now) (G.waits gate.now) given.new) (P.needs writer.new.inner) owed.new)) }
    ensures kept { Keeps cx.old cx.new }
{
    for _ in 0..TURNS {
        match poll_turn::<H, G, W, P, R>(
            rt, alloc, node, seat, stream, given, owed, writer, gate, cx,
        ) {
            Poll::Pending => return Poll::Pending,
            Poll::Ready(None) => {}
            Poll::Ready(Some(end)) => return Poll::Ready(end),
        }
    }
    cx.yield_now()
}

// Asks for the close of a stream, where the writing stopped before a poll found that it isn't open.
pub(crate) fn close_at_stop<H: Host, G: Gate<H::Segment>, R: Wait>(
    rt: &R,
    node: &H,
    gate: &G,
    seat: &mut H::Seat,
    stream: u64,
    served: &Result<(), Refusal>,
)
    ensures { (closing : List (ℕ × Record)) × (tries : List Record) × (H.told seat.new ≡ H.told seat.old ++ closing)
        × (H.refused seat.new ≡ H.refused seat.old ++ tries) × Closes stream closing tries served.now }
{
    match served {
        Ok(()) => {}
        Err(_refusal) => close(rt, node, gate, seat, stream),
    }
}

/// Where the writing half of a stream stands.
#[derive(Drop)]
pub struct Writing<'a, H, G, S, W, R> {
    pub rt: &'a R,
    pub alloc: Global,
    pub node: &'a H,
    pub gate: &'a G,
    pub stream: u64,
    pub seat: S,
    /// A response that isn't begun.
    pub given: Option<Draft>,
    /// What is left to be written of the one under way.
    pub owed: Unsent,
    pub writer: Counted<W>,
}

/// How the writing half of a stream ended.
#[derive(Drop)]
pub struct WriteEnd<S, W> {
    pub result: Result<(), Refusal>,
    pub seat: S,
    pub writer: Counted<W>,
}

impl<H, G, S: Drop, W: Drop, R> Writing<'_, H, G, S, W, R> {
    fn end(self, served: Result<(), Refusal>) -> WriteEnd<S, W>
        ensures { result ≡ record { result = served; seat = self.entry.seat; writer = self.entry.writer } }
    {
        let Writing {
            rt: _,
            alloc: _,
            node: _,
            gate: _,
            stream: _,
            seat,
            given: _,
            owed: _,
            writer,
        } = self;
        WriteEnd {
            result: served,
            seat,
            writer,
        }
    }
}

/// The writing half of a stream: what `serve_writer` does, as a future.
#[derive(Drop)]
pub struct WritingHalf<'a, H, G, S, W, R> {
    pub state: Option<Writing<'a, H, G, S, W, R>>,
}

impl<H: Host, G: Gate<H::Segment>, W: KnownWrite, R: Wait> Future
    for WritingHalf<'_, H, G, H::Seat, W, R> {
    type Output = WriteEnd<H::Seat, W>;

    ghost can_poll = { λ f. IsSome f.state };

    ghost needs = { λ f s. IsSomeAnd f.state (λ at. Waits (AsGiven (H.rings at.node.now) (G.waits at.gate.now) at.given) (W.needs at.writer.inner) at.owed s) };

    ghost gives = { λ f end. IfSome f.state (λ at. WritesOn at.stream (write_at H.told H.refused W.contents at.seat at.given at.owed at.writer) end.result
        (write_at H.told H.refused W.contents end.seat None [] end.writer)) };

    fn poll(&mut self, cx: &mut Context<'_>) -> Poll<Self::Output> {
        let Some(at) = &mut self.state else {
            unreachable!();
        };
        match poll_responses::<H, G, W, ByPolls, R>(
            at.rt,
            at.alloc,
            at.node,
            &mut at.seat,
            at.stream,
            &mut at.given,
            &mut at.owed,
            &mut at.writer,
            at.gate,
            cx,
        ) {
            Poll::Pending => Poll::Pending,
            Poll::Ready(served) => {
                close_at_stop(at.rt, at.node, at.gate, &mut at.seat, at.stream, &served);
                Poll::Ready(self.state.take().unwrap().end(served))
            }
        }
    }
}
