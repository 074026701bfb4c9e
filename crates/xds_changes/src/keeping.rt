// The input of a server that keeps going: a line that is refused is told, and the next is read.
ghost use Rattle.xds_changes.specs.Keeping.{HandsSaid, KeepsInput, KeepsPiece};

use crate::input::{Hands, Replicas};
use crate::order::Order;
use crate::said_lines::{Kept, SaidLine};
use crossbeam_channel::Sender;
use std::alloc::Global;
use std::io::{ErrorKind, Read};
use std::sync::Wait;
use xds_notes::{End, Ending, Fault};
use xds_resource::Refusal;
use xds_script::lines::split_line;

// As many bytes as are read at once, at most.
const PIECE: usize = 4_096;

/// What the changes of an input are handed to, and its refused lines are told.
pub trait Keeps: Hands {
    ghost use Rattle.std.specs.Prelude.{ℕ};
    ghost use Rattle.xds_resource.specs.declared.refusal.Refusal.{Refusal as Cause};

    // How what stands behind it is before and after a line of this number was told to be refused so.
    ghost refuses: { Self → Self → ℕ → Cause → Type 0 };

    /// Tells that the line of this number is refused.
    fn refuse<R: Wait>(&mut self, rt: &R, line: u64, fault: Fault)
        ensures { refuses self.old self.new line fault.refusal };
}

impl<'a> Keeps for Replicas<'a> {
    ghost use Rattle.std.specs.Prelude.{⊤};

    // Nothing is claimed of what another thread is told.
    ghost refuses = { λ _ _ _ _. ⊤ };

    fn refuse<R: Wait>(&mut self, rt: &R, line: u64, fault: Fault) {
        self.ending.refuse(rt, line, fault);
    }
}

/// Takes the input's lines to its end, and hands each change to its replica. A line that is no change is told, and so is one for
/// a replica that isn't there. A reader that fails ends the server.
pub fn keep_input<I: Read, R: Wait>(
    rt: &R,
    alloc: Global,
    input: &mut I,
    senders: &[Sender<Order>],
    ending: &Ending,
) {
    let mut replicas = Replicas { senders, ending };
    if let Err(end) = keep_lines(rt, alloc, input, &mut replicas) {
        ending.end(rt, end);
    }
}

/// Takes the lines of an input, however its bytes come, to its end: each change is handed over and each refused line is told, in
/// order, by its number from 1. The one failure is a read's (`Device`). A read that was interrupted is made again.
pub fn keep_lines<I: Read, H: Keeps, R: Wait>(
    rt: &R,
    alloc: Global,
    input: &mut I,
    hands: &mut H,
) -> Result<(), End>
    ensures { KeepsInput H.hands H.refuses hands.old hands.new (I.remaining input.old) (I.remaining input.new) result }
{
    let mut kept = Kept::new(alloc);
    for _ in rt.forever() {
        let mut buffer = [0u8; PIECE];
        match input.read(&mut buffer) {
            Ok(0) => {
                hand_said(rt, hands, kept.end(alloc));
                return Ok(());
            }
            Ok(count) => keep_piece(rt, alloc, hands, &mut kept, &buffer[..count]),
            Err(error) if error.kind() == ErrorKind::Interrupted => {}
            Err(_) => return Err(End::Refused(Refusal::Device)),
        }
    }
    unreachable!()
}

// Takes the lines that end in a piece, and holds what stands behind them.
fn keep_piece<H: Keeps, R: Wait>(
    rt: &R,
    alloc: Global,
    hands: &mut H,
    kept: &mut Kept,
    piece: &[u8],
)
    ensures { KeepsPiece H.hands H.refuses hands.old hands.new kept.old kept.new piece.now }
{
    let mut rest = piece;
    while let Some((part, following)) = split_line(rest) {
        kept.hold(part);
        hand_said(rt, hands, kept.end(alloc));
        rest = following;
    }
    kept.hold(rest);
}

// Hands over the change that a line says, or tells that it is refused.
fn hand_said<H: Keeps, R: Wait>(rt: &R, hands: &mut H, said: SaidLine)
    ensures { HandsSaid H.hands H.refuses hands.old hands.new said }
{
    let SaidLine { line, what } = said;
    match what {
        Ok(Some(change)) => hands.hand(rt, change),
        Ok(None) => {}
        Err(fault) => hands.refuse(rt, line, fault),
    }
}
