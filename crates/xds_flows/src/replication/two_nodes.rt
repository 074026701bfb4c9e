// An exchange as a whole: the worker at each of two nodes, and the channels between them.
ghost use Rattle.std.specs.Prelude.{◌≡◌, [], ◌++◌};
ghost use Rattle.xds_exchange.specs.Ends.{failed_by, put_by, taken_by, taken_of, AreEnds, IsOf, IsSameEnd};
ghost use Rattle.xds_flows.specs.TwoNodes.{Exchange, IsExchange, MergesAll, TellsAll};

use crate::replication::exchange::Ended;
use crate::replication::from_peer::exchange_in;
use crate::replication::parcels::{Parcel, Receipt};
use crate::replication::to_peer::exchange_out;
use std::alloc::Global;
use std::sync::Wait;
use std::thread::{Threads, join};
use xds_exchange::{Incoming, Outgoing, Taken};
use xds_node::{Gate, Host, NodeName, Seat, Segment, SharedNode};
use xds_resource::Refusal;

/// What came of an exchange: how the one ended that told, how many parcels the other dropped, how many puts by its end for
/// receipts have failed, and the seat of each.
pub struct Exchanged<M: NodeName, N: NodeName> {
    pub ended: Result<Ended, Refusal>,
    pub dropped: u64,
    pub failed: u64,
    pub teller: Seat<M>,
    pub merger: Seat<N>,
}

// Written out: docs/PROVING.md, "Drops".
impl<M: NodeName, N: NodeName> Drop for Exchanged<M, N> {
    fn drop(self) {
        let Exchanged {
            ended: _,
            dropped: _,
            failed: _,
            teller: _,
            merger: _,
        } = self;
    }
}

/// One node tells another what it holds and what comes to it, until it is stopped, in two threads, over two new channels.
/// Each worker does what its own contract says ([`exchange_out`], [`exchange_in`]). The parcels that were merged or dropped
/// are a beginning of those that were put, in order, and so are the receipts that were taken of those that were given.
pub fn exchange_both<M, N, G, K, R>(
    rt: &R,
    alloc: Global,
    from: (&SharedNode<M>, Seat<M>, &G),
    to: (&SharedNode<N>, Seat<N>, &K),
    parcels: (Outgoing<Parcel>, Incoming<Parcel>),
    receipts: (Outgoing<Receipt>, Incoming<Receipt>),
) -> Exchanged<M, N>
where
    M: NodeName + Send + Sync,
    N: NodeName + Send + Sync,
    G: Gate<Segment<M>> + Sync,
    K: Gate<Segment<N>> + Sync,
    R: Threads + Wait + Sync,
    requires parcels { AreEnds parcels.0 parcels.1 × (put_by parcels.0 ≡ []) × (taken_by parcels.1 ≡ []) }
    requires receipts { AreEnds receipts.0 receipts.1 × (put_by receipts.0 ≡ []) × (taken_by receipts.1 ≡ []) }
    ensures { (x : Exchange) × (result.teller.told ≡ from.entry.1.told ++ x.told) × (result.teller.refused ≡ from.entry.1.refused ++ x.tried)
        × (result.merger.told ≡ to.entry.1.told ++ x.merged) × (result.merger.refused ≡ to.entry.1.refused ++ x.retried)
        × IsExchange x result.ended result.dropped (failed_by receipts.0) result.failed }
{
    let (from, tells, tells_by) = from;
    let (to, merges, merges_by) = to;
    let (out, into) = parcels;
    let (back, got) = receipts;
    let ((ended, teller, out, got), (dropped, merger, back, taken)) = join(
        rt,
        move || -> (
            Result<Ended, Refusal>,
            Seat<M>,
            Outgoing<Parcel>,
            Taken<Receipt>,
        )
            ensures end { IsSameEnd out result.2 }
            ensures left { (o : _) → AreEnds o got → IsOf o result.3 }
            ensures told { TellsAll tells.told result.1.told tells.refused result.1.refused
                (put_by out) (put_by result.2) (taken_by got) (taken_of result.3) result.0 }
        { tell_all(rt, alloc, from, tells, tells_by, out, got) },
        move || -> (u64, Seat<N>, Outgoing<Receipt>, Taken<Parcel>)
            ensures end { IsSameEnd back result.2 }
            ensures left { (o : _) → AreEnds o into → IsOf o result.3 }
            ensures merged { MergesAll merges.told result.1.told merges.refused result.1.refused
                (taken_by into) (taken_of result.3) (put_by back) (put_by result.2) (failed_by back) (failed_by result.2) result.0 }
        { merge_all(rt, alloc, to, merges, merges_by, into, back) },
    );
    let failed = back.failed();
    out.compare(taken);
    back.compare(got);
    Exchanged {
        ended,
        dropped,
        failed,
        teller,
        merger,
    }
}

// The thread of who tells. Its ends are left, so that the other worker ends, too.
fn tell_all<H: Host, G: Gate<H::Segment>, R: Wait>(
    rt: &R,
    alloc: Global,
    node: &H,
    seat: H::Seat,
    gate: &G,
    out: Outgoing<Parcel>,
    receipts: Incoming<Receipt>,
) -> (
    Result<Ended, Refusal>,
    H::Seat,
    Outgoing<Parcel>,
    Taken<Receipt>,
)
    ensures end { IsSameEnd out result.2 }
    ensures left { (o : _) → AreEnds o receipts → IsOf o result.3 }
    ensures told { TellsAll (H.told seat) (H.told result.1) (H.refused seat) (H.refused result.1)
        (put_by out) (put_by result.2) (taken_by receipts) (taken_of result.3) result.0 }
{
    let mut seat = seat;
    let mut out = out;
    let mut receipts = receipts;
    let ended = exchange_out(rt, alloc, node, &mut seat, &mut out, &mut receipts, gate);
    out.end(rt);
    (ended, seat, out, receipts.leave())
}

// The thread of who merges.
fn merge_all<H: Host, G: Gate<H::Segment>, R: Wait>(
    rt: &R,
    alloc: Global,
    node: &H,
    seat: H::Seat,
    gate: &G,
    from: Incoming<Parcel>,
    receipts: Outgoing<Receipt>,
) -> (u64, H::Seat, Outgoing<Receipt>, Taken<Parcel>)
    ensures end { IsSameEnd receipts result.2 }
    ensures left { (o : _) → AreEnds o from → IsOf o result.3 }
    ensures merged { MergesAll (H.told seat) (H.told result.1) (H.refused seat) (H.refused result.1)
        (taken_by from) (taken_of result.3) (put_by receipts) (put_by result.2) (failed_by receipts) (failed_by result.2) result.0 }
{
    let mut seat = seat;
    let mut from = from;
    let mut receipts = receipts;
    let dropped = exchange_in(rt, alloc, node, &mut seat, &mut from, &mut receipts, gate);
    receipts.end(rt);
    (dropped, seat, receipts, from.leave())
}
