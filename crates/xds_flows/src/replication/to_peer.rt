// The thread that tells another replica what changed.
ghost use Rattle.std.specs.Prelude.{◌≡◌, ◌⊎◌, ℕ, List, [], ◌∷◌, ◌++◌, Bool, OnOk, OnErr, IfOk, IfErr, Result, Ok, Err};
ghost use Rattle.xds_resource.specs.PerType.{PerType, each};
ghost use Rattle.xds_resource.specs.declared.refusal.Refusal.TheVariants.{OutOfMemory};
ghost use Rattle.xds_core.specs.Counts.{counts_of};
ghost use Rattle.xds_message.specs.Batches.{in_order};
ghost use Rattle.xds_core.specs.Legal.{Record};
ghost use Rattle.xds_core.specs.Seen.{reply_of};
ghost use Rattle.xds_frames.specs.Frames.{IsFrame, frame_bytes};
ghost use Rattle.xds_exchange.specs.Ends.{put_by, taken_by, IsSameEnd, IsSameSource, Begins};
ghost use Rattle.xds_flows.specs.Exchanging.{Turn, TurnEnds, HasTold, Puts, Settles, given_up};
ghost use Rattle.xds_flows.specs.Parcels.{batch_frame, changed_in, parcels_of};
ghost use Rattle.xds_flows.specs.declared.replication.parcels.Receipt.{Receipt};

use crate::replication::exchange::{Ended, SendFailure};
use crate::replication::parcels::{Parcel, Receipt};
use std::alloc::Global;
use std::sync::Wait;
use xds_core::{Event, Marks, Reply};
use xds_exchange::{Incoming, Outbox, Outgoing};
use xds_message::Batch;
use xds_node::node::calls::answered;
use xds_node::node::shared::differ;
use xds_node::{Gate, Host};
use xds_resource::Refusal;

/// How often in a row a batch that was lost or given up is told again at once.
pub const MOST_AGAIN: u64 = 16;

/// The thread that tells another replica what changed here. It waits until the counts of changes differ from those that
/// it saw, asks for what changed since the peer was told, puts that as parcels, and takes one receipt for them; where
/// nothing changed there is neither. Where the receipt is lost, or the batch is given up (`OutOfMemory`, or `JournalFull` in
/// spite of a cut), all is told again at once: up to [`MOST_AGAIN`] times in a row, and then at the next change. Each part fits a
/// frame.
///
/// After the node is stopped it does so once more. Then it answers `Stopped`, or the refusal for which that batch was given
/// up; and `Unlinked` as soon as the other end of a channel is gone.
pub fn exchange_out<H: Host, G: Gate<H::Segment>, R: Wait>(
    rt: &R,
    alloc: Global,
    node: &H,
    seat: &mut H::Seat,
    out: &mut Outgoing<Parcel>,
    receipts: &mut Incoming<Receipt>,
    gate: &G,
) -> Result<Ended, Refusal>
    ensures end { IsSameEnd out.old out.new }
    ensures source { IsSameSource receipts.old receipts.new }
    ensures told { (told : List (ℕ × Record)) × (tried : List Record) × (put : List (List ℕ × Bool)) × (got : List Receipt)
        × (H.told seat.new ≡ H.told seat.old ++ told) × (H.refused seat.new ≡ H.refused seat.old ++ tried)
        × (put_by out.new ≡ put_by out.old ++ put)
        × (taken_by receipts.new ≡ taken_by receipts.old ++ got) × HasTold told tried put got result }
{
    let mut peer = nothing();
    let mut seen = nothing();
    let mut again = 0;
    for _ in rt.forever() {
        let changed = node.wait_changed(rt, seen);
        match tell(rt, alloc, node, seat, &mut peer, out, receipts, gate) {
            Ok(true) => match changed {
                Some(marks) => seen = seen_after(peer, marks, &mut again),
                None => return Ok(Ended::Stopped),
            },
            Ok(false) => return Ok(Ended::Unlinked),
            Err(refusal) => match changed {
                Some(marks) => seen = seen_after(peer, marks, &mut again),
                None => return Err(refusal),
            },
        }
    }
    unreachable!()
}

// The marks of a peer that was told nothing.
fn nothing() -> Marks
    ensures { counts_of result ≡ each 0 }
{
    Marks {
        cluster: 0,
        endpoint: 0,
        listener: 0,
        route: 0,
        secret: 0,
    }
}

// rule: marks
// What counts as seen after a turn: what the peer was told, which is nothing where the batch was lost, so that it is told again at
// once. Once it was lost too often in a row, these marks.
fn seen_after(told: Marks, marks: Marks, again: &mut u64) -> Marks {
    if differ(told, nothing()) {
        *again = 0;
        return told;
    }
    if *again < MOST_AGAIN {
        *again += 1;
        return told;
    }
    *again = 0;
    marks
}

// rule: marks
// Tells the peer what changed after its marks. Answers whether the channels have their other ends.
fn tell<H: Host, G: Gate<H::Segment>, R: Wait>(
    rt: &R,
    alloc: Global,
    node: &H,
    seat: &mut H::Seat,
    peer: &mut Marks,
    out: &mut Outgoing<Parcel>,
    receipts: &mut Incoming<Receipt>,
    gate: &G,
) -> Result<bool, Refusal>
    ensures end { IsSameEnd out.old out.new }
    ensures source { IsSameSource receipts.old receipts.new }
    ensures told { (t : Turn) × (t.marks ≡ counts_of peer.old) × (t.after ≡ counts_of peer.new)
        × (H.told seat.new ≡ H.told seat.old ++ t.told) × (H.refused seat.new ≡ H.refused seat.old ++ t.tried)
        × (put_by out.new ≡ put_by out.old ++ t.put)
        × (taken_by receipts.new ≡ taken_by receipts.old ++ t.receipts) × TurnEnds t result }
{
    let marks = *peer;
    *peer = nothing();
    match answered(rt, node, gate, seat, Event::Since(marks)) {
        Err(refusal) => Err(refusal),
        Ok(reply) => {
            let (batch, now) = changed_in(alloc, reply);
            match settle(rt, alloc, batch, out, receipts) {
                Ok(Receipt::Merged) => {
                    *peer = now;
                    Ok(true)
                }
                Ok(Receipt::Lost) => Ok(true),
                Err(unsent) => given_up(unsent),
            }
        }
    }
}

// rule: marks
// How a turn ends whose batch isn't sent.
fn given_up(unsent: SendFailure) -> Result<bool, Refusal>
    ensures { result ≡ given_up unsent }
{
    match unsent {
        SendFailure::Unlinked => Ok(false),
        SendFailure::Refused(refusal) => Err(refusal),
    }
}

// rule: marks
// The batch that is told, and the marks that it comes up to.
fn changed_in(alloc: Global, reply: Reply) -> (Batch, Marks)
    ensures batch { result.0 ≡ (changed_in (reply_of reply)).0 }
    ensures marks { counts_of result.1 ≡ (changed_in (reply_of reply)).1 }
{
    match reply {
        Reply::Changed(batch, marks) => (batch, marks),
        _ => (Batch::new(alloc), nothing()),
    }
}

// rule: marks
// Puts all parcels of a batch, and takes the receipt. A batch without parcels counts as merged.
fn settle<R: Wait>(
    rt: &R,
    alloc: Global,
    batch: Batch,
    out: &mut Outgoing<Parcel>,
    receipts: &mut Incoming<Receipt>,
) -> Result<Receipt, SendFailure>
    ensures end { IsSameEnd out.old out.new }
    ensures source { IsSameSource receipts.old receipts.new }
    ensures settles { Settles (parcels_of (in_order batch)) (put_by out.old) (put_by out.new)
        (taken_by receipts.old) (taken_by receipts.new) result }
{
    let mut outbox = Outbox::new(alloc);
    if let Err(refusal) = outbox.fill(batch) {
        return Err(SendFailure::Refused(refusal));
    }
    let is_empty = outbox.len() == 0;
    if let Err(unsent) = put_all(rt, alloc, &mut outbox, out) {
        return Err(unsent);
    }
    if is_empty {
        return Ok(Receipt::Merged);
    }
    match receipts.take(rt) {
        Some(receipt) => Ok(receipt),
        None => Err(SendFailure::Unlinked),
    }
}

// Puts all parcels of what an outbox has.
fn put_all<R: Wait>(
    rt: &R,
    alloc: Global,
    outbox: &mut Outbox,
    out: &mut Outgoing<Parcel>,
) -> Result<(), SendFailure>
    ensures end { IsSameEnd out.old out.new }
    ensures puts { Puts (parcels_of outbox.old) (put_by out.old) (put_by out.new) result }
{
    for _ in rt.forever() {
        match outbox.next_part() {
            Ok(Some(part)) => {
                if let Err(unsent) = put_part(rt, alloc, &part, outbox.len() == 0, out) {
                    return Err(unsent);
                }
            }
            Ok(None) => return Ok(()),
            Err(refusal) => return Err(SendFailure::Refused(refusal)),
        }
    }
    unreachable!()
}

// Puts the parcel of a part, which fits a frame.
fn put_part<R: Wait>(
    rt: &R,
    alloc: Global,
    part: &Batch,
    last: bool,
    out: &mut Outgoing<Parcel>,
) -> Result<(), SendFailure>
    requires { IsFrame (batch_frame part.now) }
    ensures end { IsSameEnd out.old out.new }
    ensures puts { Puts ((frame_bytes (batch_frame part.now), last) ∷ []) (put_by out.old) (put_by out.new) result }
    ensures err { OnErr result (put_by out.new ≡ put_by out.old) }
{
    match Parcel::pack(alloc, part, last) {
        Err(refusal) => Err(SendFailure::Refused(refusal)),
        Ok(parcel) => match out.put(rt, parcel) {
            Ok(()) => Ok(()),
            Err(_) => Err(SendFailure::Unlinked),
        },
    }
}
