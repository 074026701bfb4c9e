// How worker threads call a node.
ghost use Rattle.std.specs.Prelude.{◌≡◌, ◌≢◌, ℕ, List, [], ◌∷◌, ◌++◌, IfOk, IfErr, OnOk, OnErr, MatchBool};
ghost use Rattle.xds_resource.specs.declared.refusal.Refusal.TheVariants.{JournalFull};
ghost use Rattle.xds_core.specs.Legal.{Record};
ghost use Rattle.xds_core.specs.Seen.{event_of, answer_of};
ghost use Rattle.xds_node.specs.Told.{IsTold, LeavesNoRecord};
ghost use Rattle.xds_node.specs.WorkersTold.{IsAnswered, IsClosing, IsTried, in_vain};

use crate::node::seat::Unrecorded;
use crate::streams::hosts::{Gate, Host};
use std::sync::Wait;
use xds_core::{Event, Reply};
use xds_resource::Refusal;

// rule: cuts
/// One event of a seat, as [`Host::call`] makes it. Where the journal is full it is cut, unless another thread has done so, the gate
/// keeps the segment, and the event is tried once more. So `JournalFull` comes only where that was in vain, and else `OutOfMemory`, where there
/// was no memory; then no record is left. An event is never tried thrice, and never twice but where the journal was full.
pub fn called<H: Host, G: Gate<H::Segment>, R: Wait>(
    rt: &R,
    node: &H,
    gate: &G,
    seat: &mut H::Seat,
    event: Event,
) -> Result<Result<Reply, Refusal>, Refusal>
    ensures told { IfOk result (λ a. IsTold (H.told seat.old) (H.told seat.new) (event_of event) (answer_of a)) }
    ensures unrecorded { IfErr result LeavesNoRecord }
    ensures err { OnErr result (H.told seat.new ≡ H.told seat.old) }
    ensures tried { (tries : List Record) × (H.refused seat.new ≡ H.refused seat.old ++ tries) × IsTried (event_of event) result tries }
{
    match node.call(rt, seat, event) {
        Ok(answer) => Ok(answer),
        Err(Unrecorded { refusal, event }) => {
            if !is_full(refusal) {
                drop(event);
                return Err(refusal);
            }
            if let Ok(Some(segment)) = node.cut_full(rt) {
                gate.keep(rt, segment);
            }
            called_again(rt, node, seat, event)
        }
    }
}

// Whether a refusal tells that the journal is full.
fn is_full(refusal: Refusal) -> bool
    ensures { MatchBool result (refusal ≡ JournalFull) (refusal ≢ JournalFull) }
{
    refusal == Refusal::JournalFull
}

// One event of a seat. Where it leaves no record it is given up.
fn called_again<H: Host, R: Wait>(
    rt: &R,
    node: &H,
    seat: &mut H::Seat,
    event: Event,
) -> Result<Result<Reply, Refusal>, Refusal>
    ensures told { IfOk result (λ a. IsTold (H.told seat.old) (H.told seat.new) (event_of event) (answer_of a)) }
    ensures unrecorded { IfErr result LeavesNoRecord }
    ensures err { OnErr result (H.told seat.new ≡ H.told seat.old) }
    ensures granted { OnOk result (H.refused seat.new ≡ H.refused seat.old) }
    ensures refused { IfErr result (λ e. H.refused seat.new ≡ H.refused seat.old ++ in_vain (event_of event) e ∷ []) }
{
    match node.call(rt, seat, event) {
        Ok(answer) => Ok(answer),
        Err(Unrecorded { refusal, event }) => {
            drop(event);
            Err(refusal)
        }
    }
}

/// One event of a seat: its reply, or the refusal, of which there may be a record or none.
pub fn answered<H: Host, G: Gate<H::Segment>, R: Wait>(
    rt: &R,
    node: &H,
    gate: &G,
    seat: &mut H::Seat,
    event: Event,
) -> Result<Reply, Refusal>
    ensures { (tries : List Record) × (H.refused seat.new ≡ H.refused seat.old ++ tries)
        × IsAnswered (H.told seat.old) (H.told seat.new) tries (event_of event) (answer_of result) }
{
    match called(rt, node, gate, seat, event) {
        Ok(Ok(reply)) => Ok(reply),
        Ok(Err(refusal)) => Err(refusal),
        Err(refusal) => Err(refusal),
    }
}

/// Asks for the close of a stream. A close that is refused leaves it as it is.
pub fn close<H: Host, G: Gate<H::Segment>, R: Wait>(
    rt: &R,
    node: &H,
    gate: &G,
    seat: &mut H::Seat,
    stream: u64,
)
    ensures { (closing : List (ℕ × Record)) × (tries : List Record) × (H.told seat.new ≡ H.told seat.old ++ closing)
        × (H.refused seat.new ≡ H.refused seat.old ++ tries) × IsClosing stream closing tries }
{
    drop(called(rt, node, gate, seat, Event::Close(stream)));
}
