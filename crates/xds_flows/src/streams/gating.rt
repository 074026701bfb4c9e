// The gate, passed once for each read and once for each response.
ghost use Rattle.std.specs.Prelude.{◌≡◌, true, false};
ghost use Rattle.futures.specs.Task.{Covers, Keeps};
ghost use Rattle.futures.specs.Poll.{IfReady, OnPending};

use futures::task::{Context, Poll};
use std::sync::Wait;
use xds_node::{Gate, Place};

/// Passes the gate, unless it was passed.
pub(crate) fn poll_gate<S: Drop, G: Gate<S>, R: Wait>(
    rt: &R,
    gate: &G,
    place: Place,
    stream: u64,
    passed: &mut bool,
    cx: &mut Context<'_>,
) -> Poll<()>
    ensures passed { IfReady result (λ _. passed.new ≡ true) }
    ensures held { OnPending result (passed.new ≡ false) }
    ensures registered { OnPending result (Covers cx.new (G.waits gate.now)) }
    ensures kept { Keeps cx.old cx.new }
{
    if *passed {
        return Poll::Ready(());
    }
    match gate.poll_pass(rt, cx, place, stream) {
        Poll::Pending => Poll::Pending,
        Poll::Ready(()) => {
            *passed = true;
            Poll::Ready(())
        }
    }
}
