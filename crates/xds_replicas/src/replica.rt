// One replica of the server: the threads that call it.
ghost use Rattle.std.specs.Prelude.{◌≡◌};
ghost use Rattle.std.specs.Result.{result_err};
ghost use Rattle.xds_replicas.specs.Replies.{refusal_in};

use crate::fitting::make_fitting;
use crate::together::make_all;
use crate::workers::{Shared, place};
use crossbeam_channel::Receiver;
use std::alloc::Global;
use std::net::TcpListener;
use std::sync::{Arc, Wait};
use std::time::{Clock, Duration};
use xds_changes::made::Made;
use xds_changes::order::{Order, grown_in, stamp_in};
use xds_core::{Event, Marks, Reply};
use xds_exchange::{Incoming, Outgoing};
use xds_flows::{Parcel, Receipt, exchange_in, exchange_out};
use xds_http::{Replies, Seats, serve_on};
use xds_machine::machine::{Machine, Runtime};
use xds_machine::threads::{share, shares, start_worker};
use xds_machine::wires::{Bound, both};
use xds_message::Batch;
use xds_node::{Host, NoGate, called};
use xds_notes::ending::DRAIN_SECONDS;
use xds_notes::{End, Fault, Lookout};
use xds_resource::{Refusal, Stamp};
use xds_rest::Served;
use xds_stats::{Maker, ReplicaSizes, look_in, millis_now};
use xds_streams::serve_streams;
use xds_upkeep::moves::{HearsMoves, Moves};
use xds_upkeep::storing::{Follows, Storage, changed_since, marks_now};

/// Ends of the channels by which a replica tells another what changed: for what it tells, and for what becomes of it.
pub type Sends = (Outgoing<Parcel>, Incoming<Receipt>);

/// Ends of the channels by which a replica learns from another what changed.
pub type TakingEnds = (Incoming<Parcel>, Outgoing<Receipt>);

/// The sockets of a replica, and what it merges before it answers anybody at them, if there is such.
#[derive(Drop)]
pub struct SocketsOver<S> {
    pub streams: TcpListener,
    pub polls: TcpListener,
    pub world: Option<Batch>,
    /// Where writes are stored, if they are.
    pub storage: Option<Arc<S>>,
    /// Where it is told how far it has changed, if it is.
    pub moves: Option<Arc<Moves>>,
}

/// The same, where what changes is stored in a file that threads share, if it is stored.
pub type Sockets = SocketsOver<Storage>;

/// What a replica's thread is started with, where what changes is stored so.
pub type ReplicaOver<S> = Bound<SocketsOver<S>, Receiver<Order>, Sends, TakingEnds>;

/// The same, where it is stored in a file.
pub type Replica = ReplicaOver<Storage>;

// rule: loaded-first
/// Runs a replica for as long as the process runs: what is there from the start, and then streams, polls, what is told to and by other replicas, and the changes
/// that the input makes. It ends only where no change can come any more, or with the refusal by which it couldn't begin.
pub fn run_replica<R, A, S>(
    rt: &R,
    alloc: Global,
    node: &Arc<A>,
    replica: ReplicaOver<S>,
    lookout: &Arc<Lookout>,
) -> Result<(), Refusal>
where
    R: Machine,
    A: Served + Seats + Drop + Send + Sync + 'static,
    <A as Host>::Seat: Send + 'static,
    A::Segment: Send,
    A::PostSeat: Send,
    <A as Replies>::Seat: Send,
    S: Follows + Drop + Send + Sync + 'static,
{
    let Bound {
        sockets,
        changes,
        sends,
        takes,
    } = replica;
    let SocketsOver {
        streams,
        polls,
        world,
        storage,
        moves,
    } = sockets;
    let begun = match begin(rt, &**node, world) {
        Ok(()) => both(
            start_moving(rt, node, moves, lookout),
            start_storing(rt, node, storage, lookout),
        ),
        Err(refusal) => {
            drop(storage);
            drop(moves);
            Err(refusal)
        }
    };
    let exchanging = start_exchange(rt, alloc, node, sends, takes);
    let serving = match begun {
        Ok(()) => start_serving(rt, alloc, node, streams, polls, lookout),
        Err(refusal) => {
            drop(streams);
            drop(polls);
            Err(refusal)
        }
    };
    let ended = match both(exchanging, serving) {
        Ok(()) => take_orders(rt, alloc, &**node, &changes, lookout),
        Err(refusal) => Err(refusal),
    };
    drop(changes);
    ended
}

// rule: loaded-first
// Merges what is there from the start, if there is such.
fn begin<R: Wait, A: Served>(rt: &R, node: &A, world: Option<Batch>) -> Result<(), Refusal> {
    let Some(batch) = world else {
        return Ok(());
    };
    let mut seat = node.seat(rt)?;
    let answer = called(rt, node, &NoGate, &mut seat, Event::Merge(batch));
    let begun = match reply_in(&answer) {
        Ok(_) => Ok(()),
        Err(refusal) => Err(refusal),
    };
    drop(answer);
    begun
}

// rule: stored
// The threads by which what changes at a replica is stored, where it is: one that follows it, and one that stores the rest at the end.
// What it holds now is stored.
fn start_storing<R, A, S>(
    rt: &R,
    node: &Arc<A>,
    storage: Option<Arc<S>>,
    lookout: &Arc<Lookout>,
) -> Result<(), Refusal>
where
    R: Runtime,
    A: Shared,
    A::Seat: 'static,
    S: Follows + Drop + Send + Sync + 'static,
{
    let Some(storage) = storage else {
        return Ok(());
    };
    let mut seat = node.seat(rt)?;
    let marks = marks_now(rt, &**node, &mut seat)?;
    storage.begin(rt, lookout.replica(), marks);
    let finishing = start_finishing(rt, node, &storage, lookout);
    both(finishing, start_following(rt, node, &storage, lookout))
}

// The thread that tells how far a replica has changed, where that is told.
fn start_moving<R, A>(
    rt: &R,
    node: &Arc<A>,
    moves: Option<Arc<Moves>>,
    lookout: &Arc<Lookout>,
) -> Result<(), Refusal>
where
    R: Runtime,
    A: Shared,
    A::Seat: 'static,
{
    match moves {
        Some(moves) => start_telling(rt, node, moves, lookout),
        None => Ok(()),
    }
}

// The same where it is told. A parameter is found fit for another thread, where a lock in a share of it isn't.
fn start_telling<R, A, M>(
    rt: &R,
    node: &Arc<A>,
    moves: Arc<M>,
    lookout: &Arc<Lookout>,
) -> Result<(), Refusal>
where
    R: Runtime,
    A: Shared,
    A::Seat: 'static,
    M: HearsMoves + Drop + Send + Sync + 'static,
{
    let marks = first_marks(rt, node)?;
    let replica = lookout.replica();
    start_worker(rt, share(node), move |rt, node| {
        follow_moves(rt, &*node, &*moves, replica, marks);
    })
}

fn follow_moves<R: Runtime, A: Served, M: HearsMoves>(
    rt: &R,
    node: &A,
    moves: &M,
    replica: u16,
    marks: Marks,
) {
    moves.follow(rt, node, replica, marks);
}

// How far a replica has changed at its beginning.
fn first_marks<R: Wait, A: Served + Drop>(rt: &R, node: &Arc<A>) -> Result<Marks, Refusal> {
    let (seat, node) = place(rt, node)?;
    let mut seat = seat;
    marks_now(rt, &*node, &mut seat)
}

// A thread that stores what changes at a replica.
fn start_following<R, A, S>(
    rt: &R,
    node: &Arc<A>,
    storage: &Arc<S>,
    lookout: &Arc<Lookout>,
) -> Result<(), Refusal>
where
    R: Runtime,
    A: Shared,
    A::Seat: 'static,
    S: Follows + Drop + Send + Sync + 'static,
{
    let (storage, lookout) = shares(storage, lookout)?;
    start_worker(rt, place(rt, node), move |rt, (seat, node)| {
        follow_storing(rt, &*node, seat, &*storage, &lookout);
    })
}

fn follow_storing<R: Runtime, A: Served, S: Follows>(
    rt: &R,
    node: &A,
    seat: A::Seat,
    storage: &S,
    lookout: &Lookout,
) {
    let mut seat = seat;
    storage.follow(rt, node, &mut seat, lookout);
}

// A thread that stores the rest of what changed at a replica, once the server ends and frames that were begun are written.
fn start_finishing<R, A, S>(
    rt: &R,
    node: &Arc<A>,
    storage: &Arc<S>,
    lookout: &Arc<Lookout>,
) -> Result<(), Refusal>
where
    R: Runtime,
    A: Shared,
    A::Seat: 'static,
    S: Follows + Drop + Send + Sync + 'static,
{
    let (storage, lookout) = shares(storage, lookout)?;
    start_worker(rt, place(rt, node), move |rt, (seat, node)| {
        finish_storing(rt, &*node, seat, &*storage, &lookout);
    })
}

fn finish_storing<R: Runtime, A: Served, S: Follows>(
    rt: &R,
    node: &A,
    seat: A::Seat,
    storage: &S,
    lookout: &Lookout,
) {
    let mut seat = seat;
    lookout.ending().wait(rt);
    lookout
        .ending()
        .drain(rt, Duration::from_secs(DRAIN_SECONDS));
    storage.finish(rt, node, &mut seat, lookout);
}

// The threads by which a replica and the others tell each other what changed.
fn start_exchange<R, A>(
    rt: &R,
    alloc: Global,
    node: &Arc<A>,
    sends: Vec<Sends>,
    takes: Vec<TakingEnds>,
) -> Result<(), Refusal>
where
    R: Runtime,
    A: Shared,
    A::Seat: 'static,
{
    let mut done = Ok(());
    for ends in sends {
        done = both(done, start_sending(rt, alloc, node, ends));
    }
    for ends in takes {
        done = both(done, start_taking(rt, alloc, node, ends));
    }
    done
}

// The threads that take streams, and polls.
fn start_serving<R, A>(
    rt: &R,
    alloc: Global,
    node: &Arc<A>,
    streams: TcpListener,
    polls: TcpListener,
    lookout: &Arc<Lookout>,
) -> Result<(), Refusal>
where
    R: Machine,
    A: Shared + Seats + Replies<Seat: Send>,
{
    let polled = start_polls(rt, node, polls);
    both(polled, start_streams(rt, alloc, node, streams, lookout))
}

// A thread that tells another replica what changed here.
fn start_sending<R, A>(rt: &R, alloc: Global, node: &Arc<A>, ends: Sends) -> Result<(), Refusal>
where
    R: Runtime,
    A: Shared,
    A::Seat: 'static,
{
    start_worker(rt, place(rt, node), move |rt, (seat, node)| {
        send_all(rt, alloc, &*node, seat, ends);
    })
}

fn send_all<R: Wait, A: Served>(rt: &R, alloc: Global, node: &A, seat: A::Seat, ends: Sends) {
    let mut seat = seat;
    let (mut parcels, mut receipts) = ends;
    let _ = exchange_out(
        rt,
        alloc,
        node,
        &mut seat,
        &mut parcels,
        &mut receipts,
        &NoGate,
    );
}

// A thread that takes what changed at another replica.
fn start_taking<R, A>(rt: &R, alloc: Global, node: &Arc<A>, ends: TakingEnds) -> Result<(), Refusal>
where
    R: Runtime,
    A: Shared,
    A::Seat: 'static,
{
    start_worker(rt, place(rt, node), move |rt, (seat, node)| {
        take_all(rt, alloc, &*node, seat, ends);
    })
}

fn take_all<R: Wait, A: Served>(rt: &R, alloc: Global, node: &A, seat: A::Seat, ends: TakingEnds) {
    let mut seat = seat;
    let (mut parcels, mut receipts) = ends;
    let _dropped = exchange_in(
        rt,
        alloc,
        node,
        &mut seat,
        &mut parcels,
        &mut receipts,
        &NoGate,
    );
}

// The thread of the REST server.
fn start_polls<R, A>(rt: &R, node: &Arc<A>, listener: TcpListener) -> Result<(), Refusal>
where
    R: Machine,
    A: Seats + Replies<Seat: Send> + Drop + Send + Sync + 'static,
{
    start_worker(rt, share(node), move |rt, node| {
        let _ = serve_on(rt, listener, node);
    })
}

// The thread that takes connections, and starts those that serve them. Where it can't, or can't go on, the server ends.
fn start_streams<R, A>(
    rt: &R,
    alloc: Global,
    node: &Arc<A>,
    listener: TcpListener,
    lookout: &Arc<Lookout>,
) -> Result<(), Refusal>
where
    R: Machine,
    A: Shared,
{
    start_worker(rt, shares(node, lookout), move |rt, (node, lookout)| {
        if serve_streams(rt, alloc, listener, &*node, &lookout).is_err() {
            lookout.ending().end(rt, End::Refused(Refusal::OutOfMemory));
        }
    })
}

// How many orders are done at once, at most, before streams are told of the changes.
const MOST_AT_ONCE: usize = 64;

// Does what the replica is asked: makes changes, of which those that are refused change nothing, and looks at what is held. Streams are
// told of changes that come together once all of them are made.
fn take_orders<R, A>(
    rt: &R,
    alloc: Global,
    node: &A,
    orders: &Receiver<Order>,
    lookout: &Lookout,
) -> Result<(), Refusal>
where
    R: Wait + Clock,
    A: Served,
{
    let mut seat = node.seat(rt)?;
    for order in orders.iter(rt) {
        node.hold(rt);
        do_order(rt, alloc, node, &mut seat, order, lookout);
        do_waiting(rt, alloc, node, &mut seat, orders, lookout);
        node.release(rt);
    }
    Ok(())
}

// Does the orders that wait already.
fn do_waiting<R, A>(
    rt: &R,
    alloc: Global,
    node: &A,
    seat: &mut A::Seat,
    orders: &Receiver<Order>,
    lookout: &Lookout,
)
where
    R: Wait + Clock,
    A: Served,
{
    for _ in 1..MOST_AT_ONCE {
        match orders.try_recv(rt) {
            Ok(order) => do_order(rt, alloc, node, seat, order, lookout),
            Err(_) => return,
        }
    }
}

// Does one order. Writers go on while a refusal is told, which may wait for who reads the error output.
fn do_order<R: Wait + Clock, A: Served>(
    rt: &R,
    alloc: Global,
    node: &A,
    seat: &mut A::Seat,
    order: Order,
    lookout: &Lookout,
) {
    match order {
        Order::Change(change) => {
            let line = change.line;
            let made = make_fitting(rt, alloc, node, seat, change.event, lookout);
            tell_made(rt, made, Maker::Input, lookout);
            if let Err(fault) = made {
                lookout.refused(rt);
                node.release(rt);
                lookout.ending().refuse(rt, line, fault);
                node.hold(rt);
            }
        }
        Order::Asked(change, reply) => {
            let made = make_fitting(rt, alloc, node, seat, change.event, lookout);
            if made.is_err() {
                lookout.refused(rt);
            }
            tell_made(rt, made, Maker::Port, lookout);
            let _ = reply.send(rt, made);
        }
        Order::Look(reply) => {
            let _ = reply.send(rt, look(rt, alloc, node, seat, lookout.number()));
        }
        Order::Marks(reply) => {
            let _ = reply.send(rt, marks_now(rt, node, seat));
        }
        Order::Since(marks, reply) => {
            let _ = reply.send(rt, changed_since(rt, node, seat, marks));
        }
        Order::Entries(reply) => {
            let _ = reply.send(rt, entries(rt, node, seat));
        }
        Order::Merge(batch, reply) => {
            let _ = reply.send(rt, merge(rt, node, seat, batch));
        }
        Order::All(changes, is_tried, reply) => {
            let made = make_all(rt, alloc, node, seat, changes, is_tried, lookout);
            if !is_tried {
                count_refused(rt, &made, Maker::Port, lookout);
            }
            let _ = reply.send(rt, made);
        }
        Order::Sourced(changes, reply) => {
            let made = make_all(rt, alloc, node, seat, changes, false, lookout);
            count_refused(rt, &made, Maker::Folder, lookout);
            let _ = reply.send(rt, made);
        }
    }
}

// Counts the changes that were refused when they were made, and tells those that were made, where such is told.
fn count_refused<R: Wait + Clock>(
    rt: &R,
    made: &Result<Vec<Made>, Refusal>,
    maker: Maker,
    lookout: &Lookout,
) {
    let Ok(made) = made else {
        return;
    };
    for one in made {
        match one {
            Made::Refused(_) => lookout.refused(rt),
            Made::Written(stamp) => tell_made(rt, Ok(*stamp), maker, lookout),
            Made::Would | Made::Left => {}
        }
    }
}

// Tells a change that was made, and by whom, where such is told.
fn tell_made<R: Wait + Clock>(rt: &R, made: Result<Stamp, Fault>, maker: Maker, lookout: &Lookout) {
    if let Ok(stamp) = made {
        lookout.changed(rt, maker, stamp, millis_now(rt));
    }
}

/// All that a replica holds.
pub fn entries<R: Wait, A: Served>(rt: &R, node: &A, seat: &mut A::Seat) -> Result<Batch, Refusal> {
    match called(rt, node, &NoGate, seat, Event::Snapshot) {
        Ok(Ok(Reply::Entries(batch))) => Ok(batch),
        Ok(Ok(reply)) => {
            drop(reply);
            Err(Refusal::Device)
        }
        Ok(Err(refusal)) => Err(refusal),
        Err(refusal) => Err(refusal),
    }
}

/// Makes a change. Answers its stamp.
pub fn make_change<R: Wait, A: Served>(
    rt: &R,
    node: &A,
    seat: &mut A::Seat,
    event: Event,
) -> Result<Stamp, Refusal> {
    let answer = called(rt, node, &NoGate, seat, event);
    let stamp = match reply_in(&answer) {
        Ok(reply) => stamp_in(reply),
        Err(refusal) => Err(refusal),
    };
    drop(answer);
    stamp
}

// Merges writes. Answers how many names grew.
fn merge<R: Wait, A: Served>(
    rt: &R,
    node: &A,
    seat: &mut A::Seat,
    batch: Batch,
) -> Result<u128, Refusal> {
    let answer = called(rt, node, &NoGate, seat, Event::Merge(batch));
    let grown = match reply_in(&answer) {
        Ok(reply) => grown_in(reply),
        Err(refusal) => Err(refusal),
    };
    drop(answer);
    grown
}

// The counts of changes of a replica at which nothing happened.
const NOTHING: Marks = Marks {
    cluster: 0,
    endpoint: 0,
    listener: 0,
    route: 0,
    secret: 0,
};

// Looks at all that is held at the replica of this number, by one event.
fn look<R: Wait, A: Served>(
    rt: &R,
    alloc: Global,
    node: &A,
    seat: &mut A::Seat,
    number: u16,
) -> Result<ReplicaSizes, Refusal> {
    let answer = called(rt, node, &NoGate, seat, Event::Since(NOTHING));
    let look = match reply_in(&answer) {
        Ok(reply) => look_in(alloc, number, reply),
        Err(refusal) => Err(refusal),
    };
    drop(answer);
    look
}

// The reply that an answer is, or its refusal, of which there may be a record or none.
fn reply_in(answer: &Result<Result<Reply, Refusal>, Refusal>) -> Result<&Reply, Refusal>
    ensures { result_err result ≡ refusal_in answer.now }
{
    match answer {
        Ok(Ok(reply)) => Ok(reply),
        Ok(Err(refusal)) => Err(*refusal),
        Err(refusal) => Err(*refusal),
    }
}
