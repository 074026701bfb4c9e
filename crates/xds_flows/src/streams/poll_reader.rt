// The reading half of a stream, as polls: the reader may be pending, and so may the gate. And as a future, which owns its seat.
ghost use Rattle.std.specs.Prelude.{◌≡◌, ◌<◌, ℕ, List, [], ◌++◌, length, Result, Ok, Err, IfSome, IsSome, IsSomeAnd};
ghost use Rattle.futures.specs.Task.{Covers, Keeps};
ghost use Rattle.futures.specs.Poll.{IfReady, OnPending};
ghost use Rattle.xds_core.specs.Legal.{Record};
ghost use Rattle.xds_frames.specs.Devices.{seen};
ghost use Rattle.xds_frames.specs.Frames.{IsPartial};
ghost use Rattle.xds_node.specs.Turning.{Fills};
ghost use Rattle.xds_flows.specs.Reading.{HasRead, IsRead, TurnReads};
ghost use Rattle.xds_flows.specs.Waiting.{AtWork, Gets, IsAwaited, ReadsOn, Taken};

use crate::streams::gating::poll_gate;
use crate::streams::known::KnownRead;
use crate::streams::reader::ask;
use crate::streams::reading::{PIECE, next_request};
use crate::streams::ways::{ByPolls, Reads};
use futures::Future;
use futures::task::{Context, Poll};
use std::alloc::Global;
use std::sync::Wait;
use xds_frames::{Counted, Decoder};
use xds_node::node::calls::close;
use xds_node::{Gate, Host, Place};
use xds_resource::Refusal;

/// As many turns as one poll makes before it lets other streams run.
const TURNS: usize = 64;

// Reads a piece, and counts a call that fails.
fn poll_piece<D, P: Reads<D>>(
    reader: &mut Counted<D>,
    cx: &mut Context<'_>,
    buf: &mut [u8],
) -> Poll<Result<usize, Refusal>>
    requires { 0 < length buf.old }
    ensures got { Gets (seen P.remaining reader.old reader.new) buf.new result }
    ensures registered { OnPending result (Covers cx.new (P.needs reader.new.inner)) }
    ensures kept { Keeps cx.old cx.new }
{
    match P::poll_read(&mut reader.inner, cx, buf) {
        Poll::Pending => Poll::Pending,
        Poll::Ready(Ok(count)) => Poll::Ready(Ok(count)),
        Poll::Ready(Err(_)) => {
            reader.failed = reader.failed.saturating_add(1);
            Poll::Ready(Err(Refusal::Device))
        }
    }
}

// Puts a piece behind what is held, of which there is less than a frame. Answers whether there was one.
fn take_piece(decoder: &mut Decoder, piece: &[u8]) -> Result<bool, Refusal>
    requires { IsPartial decoder.old }
    ensures { Taken decoder.old piece.now result decoder.new }
{
    if piece.is_empty() {
        decoder.finish()?;
        return Ok(false);
    }
    decoder.feed(piece)?;
    Ok(true)
}

// rule: whole-frames
// `fill`, where the reader may be pending.
fn poll_fill<D, P: Reads<D>>(
    decoder: &mut Decoder,
    reader: &mut Counted<D>,
    cx: &mut Context<'_>,
) -> Poll<Result<bool, Refusal>>
    requires { IsPartial decoder.old }
    ensures filled { IfReady result (λ r. Fills decoder.old (seen P.remaining reader.old reader.new) r decoder.new) }
    ensures waits { OnPending result (IsAwaited (seen P.remaining reader.old reader.new) × (decoder.new ≡ decoder.old)) }
    ensures registered { OnPending result (Covers cx.new (P.needs reader.new.inner)) }
    ensures kept { Keeps cx.old cx.new }
{
    let mut piece = [0; PIECE];
    match poll_piece::<D, P>(reader, cx, &mut piece) {
        Poll::Pending => Poll::Pending,
        Poll::Ready(Ok(count)) => Poll::Ready(take_piece(decoder, &piece[..count])),
        Poll::Ready(Err(refusal)) => Poll::Ready(Err(refusal)),
    }
}

// The same, once the gate was passed for this read.
fn poll_more<S: Drop, G: Gate<S>, D, P: Reads<D>, R: Wait>(
    rt: &R,
    stream: u64,
    decoder: &mut Decoder,
    reader: &mut Counted<D>,
    passed: &mut bool,
    gate: &G,
    cx: &mut Context<'_>,
) -> Poll<Result<bool, Refusal>>
    requires { IsPartial decoder.old }
    ensures filled { IfReady result (λ r. Fills decoder.old (seen P.remaining reader.old reader.new) r decoder.new) }
    ensures waits { OnPending result (IsAwaited (seen P.remaining reader.old reader.new) × (decoder.new ≡ decoder.old)) }
    ensures registered { OnPending result (Covers cx.new (AtWork (G.waits gate.now) (P.needs reader.new.inner) passed.new)) }
    ensures kept { Keeps cx.old cx.new }
{
    if let Poll::Pending = poll_gate(rt, gate, Place::BeforeRead, stream, passed, cx) {
        return Poll::Pending;
    }
    match poll_fill::<D, P>(decoder, reader, cx) {
        Poll::Pending => Poll::Pending,
        Poll::Ready(answer) => {
            *passed = false;
            Poll::Ready(answer)
        }
    }
}

// Asks for the next frame, or reads a piece where none is there whole. Answers whether there is more to be done.
fn poll_turn<H: Host, G: Gate<H::Segment>, D, P: Reads<D>, R: Wait>(
    rt: &R,
    alloc: Global,
    node: &H,
    seat: &mut H::Seat,
    stream: u64,
    decoder: &mut Decoder,
    reader: &mut Counted<D>,
    passed: &mut bool,
    gate: &G,
    cx: &mut Context<'_>,
) -> Poll<Result<bool, Refusal>>
    ensures ready { IfReady result (λ r. (told : List (ℕ × Record)) × (tried : List Record) × (H.told seat.new ≡ H.told seat.old ++ told)
        × (H.refused seat.new ≡ H.refused seat.old ++ tried)
        × TurnReads stream told tried decoder.old (seen P.remaining reader.old reader.new) r decoder.new) }
    ensures waits { OnPending result ((told : List (ℕ × Record)) × (tried : List Record) × (H.told seat.new ≡ H.told seat.old ++ told)
        × (H.refused seat.new ≡ H.refused seat.old ++ tried)
        × IsRead stream told tried decoder.old (seen P.remaining reader.old reader.new) decoder.new) }
    ensures registered { OnPending result (Covers cx.new (AtWork (G.waits gate.now) (P.needs reader.new.inner) passed.new)) }
    ensures kept { Keeps cx.old cx.new }
{
    match next_request(alloc, decoder) {
        Ok(Some(request)) => match ask(rt, node, gate, seat, stream, request) {
            Ok(()) => Poll::Ready(Ok(true)),
            Err(refusal) => Poll::Ready(Err(refusal)),
        },
        Ok(None) => poll_more::<H::Segment, G, D, P, R>(
            rt, stream, decoder, reader, passed, gate, cx,
        ),
        Err(refusal) => Poll::Ready(Err(refusal)),
    }
}

/// Reads and asks to the end of the input, or the first refusal, as far as reader and gate let it. `decoder` holds what was read of
/// a frame, and `passed` says whether the gate was passed for the next read: none and `false` at first.
pub fn poll_requests<H: Host, G: Gate<H::Segment>, D, P: Reads<D>, R: Wait>(
    rt: &R,
    alloc: Global,
    node: &H,
    seat: &mut H::Seat,
    stream: u64,
    decoder: &mut Decoder,
    reader: &mut Counted<D>,
    passed: &mut bool,
    gate: &G,
    cx: &mut Context<'_>,
) -> Poll<Result<(), Refusal>>
    ensures ready { IfReady result (λ r. (told : List (ℕ × Record)) × (tried : List Record) × (H.told seat.new ≡ H.told seat.old ++ told)
        × (H.refused seat.new ≡ H.refused seat.old ++ tried)
        × HasRead stream told tried decoder.old (seen P.remaining reader.old reader.new) r) }
    ensures waits { OnPending result ((told : List (ℕ × Record)) × (tried : List Record) × (H.told seat.new ≡ H.told seat.old ++ told)
        × (H.refused seat.new ≡ H.refused seat.old ++ tried)
        × IsRead stream told tried decoder.old (seen P.remaining reader.old reader.new) decoder.new) }
    ensures registered { OnPending result (Covers cx.new (AtWork (G.waits gate.now) (P.needs reader.new.inner) passed.new)) }
    ensures kept { Keeps cx.old cx.new }
{
    for _ in 0..TURNS {
        match poll_turn::<H, G, D, P, R>(
            rt, alloc, node, seat, stream, decoder, reader, passed, gate, cx,
        ) {
            Poll::Pending => return Poll::Pending,
            Poll::Ready(Ok(true)) => {}
            Poll::Ready(Ok(false)) => return Poll::Ready(Ok(())),
            Poll::Ready(Err(refusal)) => return Poll::Ready(Err(refusal)),
        }
    }
    cx.yield_now()
}

/// Where the reading half of a stream stands.
#[derive(Drop)]
pub struct Reading<'a, H, G, S, D, R> {
    pub rt: &'a R,
    pub alloc: Global,
    pub node: &'a H,
    pub gate: &'a G,
    pub stream: u64,
    pub seat: S,
    pub decoder: Decoder,
    pub reader: Counted<D>,
    /// Whether the gate was passed for the next read.
    pub passed: bool,
}

/// How the reading half of a stream ended.
#[derive(Drop)]
pub struct ReadEnd<S, D> {
    pub result: Result<(), Refusal>,
    pub seat: S,
    pub reader: Counted<D>,
}

impl<H, G, S: Drop, D: Drop, R> Reading<'_, H, G, S, D, R> {
    fn end(self, served: Result<(), Refusal>) -> ReadEnd<S, D>
        ensures { result ≡ record { result = served; seat = self.entry.seat; reader = self.entry.reader } }
    {
        let Reading {
            rt: _,
            alloc: _,
            node: _,
            gate: _,
            stream: _,
            seat,
            decoder: _,
            reader,
            passed: _,
        } = self;
        ReadEnd {
            result: served,
            seat,
            reader,
        }
    }
}

/// The reading half of a stream: what `serve_reader` does, as a future.
#[derive(Drop)]
pub struct ReadingHalf<'a, H, G, S, D, R> {
    pub state: Option<Reading<'a, H, G, S, D, R>>,
}

impl<H: Host, G: Gate<H::Segment>, D: KnownRead, R: Wait> Future
    for ReadingHalf<'_, H, G, H::Seat, D, R> {
    type Output = ReadEnd<H::Seat, D>;

    ghost can_poll = { λ f. IsSome f.state };

    ghost needs = { λ f s. IsSomeAnd f.state (λ at. AtWork (G.waits at.gate.now) (D.needs at.reader.inner) at.passed s) };

    ghost gives = { λ f end. IfSome f.state (λ at. (told : List (ℕ × Record)) × (tried : List Record) × (H.told end.seat ≡ H.told at.seat ++ told)
        × (H.refused end.seat ≡ H.refused at.seat ++ tried)
        × ReadsOn at.stream told tried at.decoder (seen D.remaining at.reader end.reader) end.result) };

    fn poll(&mut self, cx: &mut Context<'_>) -> Poll<Self::Output> {
        let Some(at) = &mut self.state else {
            unreachable!();
        };
        match poll_requests::<H, G, D, ByPolls, R>(
            at.rt,
            at.alloc,
            at.node,
            &mut at.seat,
            at.stream,
            &mut at.decoder,
            &mut at.reader,
            &mut at.passed,
            at.gate,
            cx,
        ) {
            Poll::Pending => Poll::Pending,
            Poll::Ready(served) => {
                close(at.rt, at.node, at.gate, &mut at.seat, at.stream);
                Poll::Ready(self.state.take().unwrap().end(served))
            }
        }
    }
}
