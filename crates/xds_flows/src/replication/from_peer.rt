// The thread that merges what another replica tells.
ghost use Rattle.std.specs.Prelude.{◌≡◌, ℕ, List, [], ◌∷◌, ◌++◌, Bool};
ghost use Rattle.xds_core.specs.Legal.{Record};
ghost use Rattle.xds_exchange.specs.Ends.{failed_by, put_by, taken_by, IsSameEnd, IsSameSource};
ghost use Rattle.xds_flows.specs.Exchanging.{Acknowledges, HasMerged, IsMerging, receipt_for};
ghost use Rattle.xds_flows.specs.declared.replication.parcels.Receipt.{Receipt};

use crate::replication::parcels::{Parcel, Receipt};
use std::alloc::Global;
use std::sync::Wait;
use xds_core::Event;
use xds_exchange::{Incoming, Outgoing};
use xds_node::{Gate, Host, called};

/// As many parcels as may be dropped.
pub const MOST_DROPPED: u64 = 9_223_372_036_854_775_807;

/// The thread that merges what another replica tells. Each parcel is merged, as one event, or dropped, where it spells no
/// batch or the merge leaves no record (`OutOfMemory`, `JournalFull` in spite of a cut). After the last parcel of a batch
/// it puts a receipt: `Merged`, or `Lost` where a part wasn't merged. Every receipt that is due is put, but for the last one
/// where the put of it failed.
///
/// It ends with the channel of the parcels, or where the put of a receipt failed, or once [`MOST_DROPPED`] parcels were dropped.
/// It answers how many were dropped.
pub fn exchange_in<H: Host, G: Gate<H::Segment>, R: Wait>(
    rt: &R,
    alloc: Global,
    node: &H,
    seat: &mut H::Seat,
    from: &mut Incoming<Parcel>,
    receipts: &mut Outgoing<Receipt>,
    gate: &G,
) -> u64
    ensures source { IsSameSource from.old from.new }
    ensures end { IsSameEnd receipts.old receipts.new }
    ensures merged { (told : List (ℕ × Record)) × (tried : List Record) × (taken : List (List ℕ × Bool)) × (given : List Receipt)
        × (H.told seat.new ≡ H.told seat.old ++ told) × (H.refused seat.new ≡ H.refused seat.old ++ tried)
        × (taken_by from.new ≡ taken_by from.old ++ taken)
        × (put_by receipts.new ≡ put_by receipts.old ++ given) × HasMerged told tried taken given result (failed_by receipts.old) (failed_by receipts.new) }
{
    let mut dropped = 0;
    let mut lost = false;
    for _ in rt.forever() {
        let Some(parcel) = from.take(rt) else {
            return dropped;
        };
        let (drops, merged) = merge(rt, alloc, node, gate, seat, &parcel);
        dropped += drops;
        lost = lost || !merged;
        if !acknowledge(rt, receipts, parcel.last, &mut lost) || dropped == MOST_DROPPED {
            return dropped;
        }
    }
    unreachable!()
}

// rule: marks
// Merges a parcel. Answers 1 where it was dropped, and whether it was merged.
fn merge<H: Host, G: Gate<H::Segment>, R: Wait>(
    rt: &R,
    alloc: Global,
    node: &H,
    gate: &G,
    seat: &mut H::Seat,
    parcel: &Parcel,
) -> (u64, bool)
    ensures { (told : List (ℕ × Record)) × (tried : List Record) × (H.told seat.new ≡ H.told seat.old ++ told)
        × (H.refused seat.new ≡ H.refused seat.old ++ tried) × IsMerging parcel.now told tried result }
{
    match parcel.unpack(alloc) {
        Err(_) => (1, false),
        Ok(batch) => match called(rt, node, gate, seat, Event::Merge(batch)) {
            Ok(Ok(_)) => (0, true),
            Ok(Err(_)) => (0, false),
            Err(_) => (1, false),
        },
    }
}

// rule: marks
// Puts the receipt of a batch behind its last parcel. Answers whether the receipts' channel has its other end, as far as
// that is known.
fn acknowledge<R: Wait>(
    rt: &R,
    receipts: &mut Outgoing<Receipt>,
    last: bool,
    lost: &mut bool,
) -> bool
    ensures end { IsSameEnd receipts.old receipts.new }
    ensures receipt { Acknowledges last lost.old lost.new (put_by receipts.old) (put_by receipts.new) (failed_by receipts.old) (failed_by receipts.new) result }
{
    if !last {
        return true;
    }
    let receipt = receipt_for(*lost);
    *lost = false;
    match receipts.put(rt, receipt) {
        Ok(()) => true,
        Err(_) => false,
    }
}

// rule: marks
fn receipt_for(lost: bool) -> Receipt
    ensures { result ≡ receipt_for lost }
{
    if lost { Receipt::Lost } else { Receipt::Merged }
}
