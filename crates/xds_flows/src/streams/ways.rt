// How a reader is read and a writer is written to, and how something due is waited for: by calls that wait, or by polls that may be
// pending.
ghost use Rattle.std.specs.Prelude.{IfOk, IfErr};
ghost use Rattle.xds_flows.specs.Owing.{Frames};
ghost use Rattle.xds_node.specs.Sending.{IsHeadOf, IsUnframed, frame_of};

use crate::streams::known::{KnownRead, KnownWrite};
use crate::streams::sending::{head_of, kind_of, send};
use futures::task::{Context, Poll};
use std::alloc::Global;
use std::io;
use std::io::{Read, Write};
use std::sync::Wait;
use xds_frames::Counted;
use xds_message::{Draft, Unsent};
use xds_node::{Host, WaitEnd};
use xds_resource::Refusal;

/// By calls that wait until something comes or there is room, in a thread of its own.
#[derive(Clone, Copy, Debug, Drop)]
pub struct ByCalls;

/// By polls, of which one that finds nothing is pending.
#[derive(Clone, Copy, Debug, Drop)]
pub struct ByPolls;

/// A way in which a reader is read.
pub trait Reads<D> {
    ghost use Rattle.std.specs.Prelude.{◌<◌, ℕ, List, Option, length};
    ghost use Rattle.futures.specs.Task.{Covers, Keeps};
    ghost use Rattle.futures.specs.Poll.{OnPending};
    ghost use Rattle.xds_flows.specs.Waiting.{Comes};

    // The bytes that a reader has left, where they are known.
    ghost remaining: { D → Option (List ℕ) };

    // The sources that a pending read waits for.
    ghost needs: { D → ℕ → Type 0 };

    /// One read.
    fn poll_read(reader: &mut D, cx: &mut Context<'_>, buf: &mut [u8]) -> Poll<io::Result<usize>>
        requires { 0 < length buf.old }
        ensures comes { Comes (remaining reader.old) (remaining reader.new) buf.new result }
        ensures registered { OnPending result (Covers cx.new (needs reader.new)) }
        ensures kept { Keeps cx.old cx.new };
}

impl<D: Read> Reads<D> for ByCalls {
    ghost remaining = { D.remaining };

    ghost needs = { λ _ _. ⊥ };

    fn poll_read(reader: &mut D, _cx: &mut Context<'_>, buf: &mut [u8]) -> Poll<io::Result<usize>> {
        Poll::Ready(reader.read(buf))
    }
}

impl<D: KnownRead> Reads<D> for ByPolls {
    ghost remaining = { D.remaining };

    ghost needs = { D.needs };

    fn poll_read(reader: &mut D, cx: &mut Context<'_>, buf: &mut [u8]) -> Poll<io::Result<usize>> {
        reader.poll_read(cx, buf)
    }
}

/// A way in which a stream's writer waits and is written to.
pub trait Writes<W> {
    ghost use Rattle.std.specs.Prelude.{ℕ, List, Option};
    ghost use Rattle.futures.specs.Task.{Covers, Keeps};
    ghost use Rattle.futures.specs.Poll.{OnPending};
    ghost use Rattle.xds_frames.specs.Devices.{seen};
    ghost use Rattle.xds_flows.specs.Owing.{Begins};
    ghost use Rattle.xds_flows.specs.Waiting.{Takes};

    // The bytes that a writer holds, where they are known.
    ghost contents: { W → Option (List ℕ) };

    // The sources that a pending write waits for.
    ghost needs: { W → ℕ → Type 0 };

    /// Ready once a poll of the stream would give something, or the stream isn't open.
    fn poll_due<H: Host, R: Wait>(
        rt: &R,
        node: &H,
        cx: &mut Context<'_>,
        stream: u64,
    ) -> Poll<WaitEnd>
        ensures registered { OnPending result (Covers cx.new (H.rings node.now)) }
        ensures kept { Keeps cx.old cx.new };

    /// Begins a response. Answers what is left to be written of its frame.
    fn begin(alloc: Global, draft: &Draft, writer: &mut Counted<W>) -> Result<Unsent, Refusal>
        ensures { Begins draft.now (seen contents writer.old writer.new) result };

    /// One write.
    fn poll_write(writer: &mut W, cx: &mut Context<'_>, buf: &[u8]) -> Poll<io::Result<usize>>
        ensures takes { Takes (contents writer.old) (contents writer.new) buf.now result }
        ensures registered { OnPending result (Covers cx.new (needs writer.new)) }
        ensures kept { Keeps cx.old cx.new };
}

impl<W: Write> Writes<W> for ByCalls {
    ghost contents = { W.contents };

    ghost needs = { λ _ _. ⊥ };

    fn poll_due<H: Host, R: Wait>(
        rt: &R,
        node: &H,
        _cx: &mut Context<'_>,
        stream: u64,
    ) -> Poll<WaitEnd> {
        Poll::Ready(node.wait_due(rt, stream))
    }

    // The whole is written here, from where its bodies are stored.
    fn begin(alloc: Global, draft: &Draft, writer: &mut Counted<W>) -> Result<Unsent, Refusal> {
        match send(alloc, draft, writer) {
            Ok(()) => Ok(Unsent::none(alloc)),
            Err(refusal) => Err(refusal),
        }
    }

    fn poll_write(writer: &mut W, _cx: &mut Context<'_>, buf: &[u8]) -> Poll<io::Result<usize>> {
        Poll::Ready(writer.write(buf))
    }
}

impl<W: KnownWrite> Writes<W> for ByPolls {
    ghost contents = { W.contents };

    ghost needs = { W.needs };

    fn poll_due<H: Host, R: Wait>(
        rt: &R,
        node: &H,
        cx: &mut Context<'_>,
        stream: u64,
    ) -> Poll<WaitEnd> {
        node.poll_due(rt, cx, stream)
    }

    // Nothing of it is written yet. The bodies are where they are stored.
    fn begin(alloc: Global, draft: &Draft, _writer: &mut Counted<W>) -> Result<Unsent, Refusal> {
        framed(alloc, draft)
    }

    fn poll_write(writer: &mut W, cx: &mut Context<'_>, buf: &[u8]) -> Poll<io::Result<usize>> {
        writer.poll_write(cx, buf)
    }
}

// The frame of a response, of which nothing is written. It isn't held whole.
fn framed(alloc: Global, draft: &Draft) -> Result<Unsent, Refusal>
    ensures { Frames draft.now result }
{
    let block = block_of(alloc, draft)?;
    match draft.unsent(alloc, block) {
        Ok(frame) => Ok(frame),
        Err(_) => Err(Refusal::OutOfMemory),
    }
}

// What stands before the text of a response in its frame, in a block that has room for some of the text, too.
fn block_of(alloc: Global, draft: &Draft) -> Result<Vec<u8>, Refusal>
    ensures ok { IfOk result (λ head. IsHeadOf (frame_of draft.now) head.items) }
    ensures refused { IfErr result (λ e. IsUnframed (frame_of draft.now) e) }
{
    let text = draft.pieces(alloc)?;
    head_of(alloc, kind_of(draft), &text)
}
