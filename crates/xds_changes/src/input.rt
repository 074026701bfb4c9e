// The input of a server: lines that say what is put and deleted, taken while it serves.
ghost use Rattle.std.specs.Prelude.{◌≡◌, ◌<◌, ◌+◌, ◌⊎◌, map, IfSome, IfNone};
ghost use Rattle.xds_changes.specs.Changes.{change_of};
ghost use Rattle.xds_changes.specs.Handing.{AllHanded, behind, HandsLast, TakesInput};

use crate::change::Change;
use crate::held_line::{HeldLine, TakenPiece};
use crate::order::Order;
use crossbeam_channel::Sender;
use std::alloc::Global;
use std::io::{ErrorKind, Read};
use std::sync::Wait;
use xds_causes::Cause;
use xds_notes::{End, Ending, Fault};
use xds_resource::Refusal;

/// How many bytes are read at once, at most.
const PIECE: usize = 4_096;

/// What the changes of an input are handed to. The replicas of a server are such.
pub trait Hands {
    ghost use Rattle.xds_changes.specs.Changes.{Written, change_of};

    // How what stands behind it is before and after a change was handed over.
    ghost hands: { Self → Self → Written → Type 0 };

    /// Hands a change to its replica. What is for a replica that isn't there is passed over.
    fn hand<R: Wait>(&mut self, rt: &R, change: Change)
        ensures { hands self.old self.new (change_of change) };
}

/// The replicas of a server, each by what changes are sent to its thread by. The first has number 1.
#[derive(Drop)]
pub struct Replicas<'a> {
    pub senders: &'a [Sender<Order>],
    /// Where it is told that a replica isn't there.
    pub ending: &'a Ending,
}

impl<'a> Hands for Replicas<'a> {
    ghost use Rattle.std.specs.Prelude.{⊤};

    // Nothing is claimed of what another thread is sent.
    ghost hands = { λ _ _ _. ⊤ };

    fn hand<R: Wait>(&mut self, rt: &R, change: Change) {
        let line = change.line;
        let replica = change.replica;
        if !send(rt, self.senders, replica, Order::Change(change)) {
            self.ending
                .refuse(rt, line, Fault::by(Cause::NoSuchReplica));
        }
    }
}

/// Takes the input's lines to its end, and hands each change to its replica, of which the first has number 1. What is for a
/// replica that isn't there is passed over. A line that is no change ends the server, and so does a reader that fails.
pub fn take_input<I: Read, R: Wait>(
    rt: &R,
    alloc: Global,
    input: &mut I,
    senders: &[Sender<Order>],
    ending: &Ending,
) {
    let mut replicas = Replicas { senders, ending };
    if let Err(end) = take_lines(rt, alloc, input, &mut replicas) {
        ending.end(rt, end);
    }
}

/// Takes the lines of an input, however its bytes come, and hands over each change, in order: to the end of the input, or to the
/// first line that is no change (`BadScript`), that is too long (`TooLong`) or for which there was no memory, which is told with its number, or until a read fails
/// (`Device`). A read that was interrupted is made again.
pub fn take_lines<I: Read, H: Hands, R: Wait>(
    rt: &R,
    alloc: Global,
    input: &mut I,
    hands: &mut H,
) -> Result<(), End>
    ensures { TakesInput H.hands hands.old hands.new (I.remaining input.old) (I.remaining input.new) result }
{
    let mut held = HeldLine::new(alloc);
    let mut line = 1u64;
    for _ in rt.forever() {
        let mut buffer = [0u8; PIECE];
        match input.read(&mut buffer) {
            Ok(0) => return take_last(rt, hands, held.finish(alloc), line),
            Ok(count) => match take_changes(rt, hands, held.take(alloc, &buffer[..count]), line) {
                Ok(next) => line = next,
                Err(end) => return Err(end),
            },
            Err(error) if error.kind() == ErrorKind::Interrupted => {}
            Err(_) => return Err(End::Refused(Refusal::Device)),
        }
    }
    unreachable!()
}

// Hands on what was taken of the input, of which the first line has this number. Answers the number of the line behind it.
fn take_changes<H: Hands, R: Wait>(
    rt: &R,
    hands: &mut H,
    taken: TakenPiece,
    line: u64,
) -> Result<u64, End>
    ensures handed { AllHanded H.hands hands.old hands.new (map change_of taken.changes.items) }
    ensures line { result ≡ behind line taken.lines taken.refused }
{
    let TakenPiece {
        changes,
        lines,
        refused,
    } = taken;
    hand_all(rt, hands, changes);
    let line = line.saturating_add(lines as u64);
    match refused {
        Some(refusal) => Err(End::Line(line, refusal)),
        None => Ok(line),
    }
}

// Hands changes on, in order.
fn hand_all<H: Hands, R: Wait>(rt: &R, hands: &mut H, changes: Vec<Change>)
    ensures { AllHanded H.hands hands.old hands.new (map change_of changes.items) }
{
    for change in changes {
        hands.hand(rt, change);
    }
}

// Hands on what the last line says.
fn take_last<H: Hands, R: Wait>(
    rt: &R,
    hands: &mut H,
    change: Result<Option<Change>, Refusal>,
    line: u64,
) -> Result<(), End>
    ensures { HandsLast H.hands hands.old hands.new change line result }
{
    match change {
        Ok(Some(change)) => {
            hands.hand(rt, change);
            Ok(())
        }
        Ok(None) => Ok(()),
        Err(refusal) => Err(End::Line(line, refusal)),
    }
}

// The place of the replica of this number among so many, if it is there.
fn place_of(number: u16, replicas: usize) -> Option<usize>
    ensures there { IfSome result (λ place. (place + 1 ≡ number) × (place < replicas)) }
    ensures none { IfNone result ((number ≡ 0) ⊎ (replicas < number)) }
{
    let number = number as usize;
    if number == 0 || number > replicas {
        return None;
    }
    Some(number - 1)
}

// Sends something to the replica of this number. Answers whether it is there.
fn send<R: Wait, T: Drop>(rt: &R, replicas: &[Sender<T>], number: u16, it: T) -> bool {
    let Some(place) = place_of(number, replicas.len()) else {
        return false;
    };
    match replicas.get(place) {
        Some(replica) => {
            let _ = replica.send(rt, it);
            true
        }
        None => false,
    }
}
