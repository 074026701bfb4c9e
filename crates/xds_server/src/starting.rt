// The threads that a server starts: one for each replica, and one for the input.
ghost use Rattle.std.specs.Prelude.{◌≡◌, ◌≤◌};

use crossbeam_channel::Sender;
use std::alloc::Global;
use std::io::{Read, Write};
use std::marker::Brand;
use std::net::TcpListener;
use std::sync::{Arc, Wait};
use std::thread;
use std::time::{Clock, Duration};
use xds_admin::admin::Admin;
use xds_changes::input::{Replicas, take_input};
use xds_changes::keeping::keep_input;
use xds_changes::order::{Order, copies};
use xds_changes::ready_line::ReadyReader;
use xds_checker::checker::CheckerLink;
use xds_checker::validating::take_checked;
use xds_frames::Counted;
use xds_http::{Replies, Seats, serve_pages};
use xds_machine::machine::{Machine, Runtime};
use xds_machine::threads::{share, shares, start_worker};
use xds_machine::wires::{both, started};
use xds_monitor::{Instrumented, JournalWeight, Observer, Piece, SegmentSink, Tape, Turns};
use xds_node::{Host, JournalLine, NodeName, Opened, SharedNode};
use xds_notes::ending::DRAIN_SECONDS;
use xds_notes::{End, Ending, Lookout};
use xds_replicas::replica::{ReplicaOver, run_replica};
use xds_resource::Refusal;
use xds_rest::Served;
use xds_telling::serve_telling::tell_all;
use xds_upkeep::opening::open_when_asked;
use xds_upkeep::storing::Follows;

// After how many seconds it is looked again whether what is recorded is still to be found.
const LOOK_SECONDS: u64 = 1;

/// Starts the thread of a replica, whose number its lookout knows, and that of its tape, if it has one. Its node has a name of its own.
pub(crate) fn start_replica<R, S>(
    rt: &R,
    alloc: Global,
    replica: ReplicaOver<S>,
    lookout: &Arc<Lookout>,
    tape: Option<&Arc<Tape>>,
) -> Result<(), Refusal>
where
    R: Machine,
    S: Follows + Drop + Send + Sync + 'static,
{
    let number = lookout.number().max(1);
    match Opened::<JournalLine>::new(alloc) {
        Ok(opened) => start_named::<R, Brand, S>(rt, alloc, opened, number, replica, lookout, tape),
        Err(_) => {
            drop(replica);
            Err(Refusal::OutOfMemory)
        }
    }
}

// Starts the thread of a replica by a node of this name.
fn start_named<R, N, S>(
    rt: &R,
    alloc: Global,
    opened: Opened<JournalLine>,
    number: u16,
    replica: ReplicaOver<S>,
    lookout: &Arc<Lookout>,
    tape: Option<&Arc<Tape>>,
) -> Result<(), Refusal>
where
    R: Machine,
    N: NodeName + Send + Sync + 'static,
    S: Follows + Drop + Send + Sync + 'static,
    requires name { opened ≡ N.id }
    requires first { 1 ≤ number }
    requires own { number ≡ N.replica }
{
    match SharedNode::<N>::new(alloc, opened, number) {
        Ok(node) => start_instrumented(rt, alloc, node, replica, lookout, tape),
        Err(refusal) => {
            drop(replica);
            Err(refusal)
        }
    }
}

// Starts the threads of a replica by this node, whose journal goes to a tape, if there is one.
fn start_instrumented<R, A, S>(
    rt: &R,
    alloc: Global,
    node: A,
    replica: ReplicaOver<S>,
    lookout: &Arc<Lookout>,
    tape: Option<&Arc<Tape>>,
) -> Result<(), Refusal>
where
    R: Machine,
    A: Served + Host<Segment: Piece + Send> + Drop + Send + Sync + 'static,
    <A as Host>::Seat: Send + 'static,
    A::PostSeat: Send,
    S: Follows + Drop + Send + Sync + 'static,
{
    match instrumented_node(alloc, node, *rt, lookout, tape) {
        Ok(node) => start_node(rt, alloc, node, replica, lookout, tape),
        Err(refusal) => {
            drop(replica);
            Err(refusal)
        }
    }
}

// A node whose events are noted, and whose journal goes to this tape, if there is one.
fn instrumented_node<A: Served + Host<Segment: Piece> + Drop, C: Clock + Drop>(
    alloc: Global,
    node: A,
    clock: C,
    lookout: &Arc<Lookout>,
    tape: Option<&Arc<Tape>>,
) -> Result<Arc<Instrumented<A, C>>, Refusal> {
    match (observer_of(alloc, clock, lookout), shared_tape(tape)) {
        (Ok(observer), Ok(tape)) => {
            let weight = JournalWeight::new(alloc, tape.is_some());
            let sink = SegmentSink::new(tape);
            let node = Instrumented::new(node, weight, observer, sink);
            Ok(Arc::new(alloc, node)?)
        }
        _ => {
            drop(node);
            Err(Refusal::OutOfMemory)
        }
    }
}

// What notes events at this lookout.
fn observer_of<C: Clock + Drop>(
    alloc: Global,
    clock: C,
    lookout: &Arc<Lookout>,
) -> Result<Observer<C>, Refusal> {
    match (share(lookout), Turns::new(alloc)) {
        (Ok(lookout), Ok(turns)) => Ok(Observer::new(alloc, clock, lookout, turns)),
        _ => Err(Refusal::OutOfMemory),
    }
}

/// A share of a tape, if there is one.
pub(crate) fn shared_tape(tape: Option<&Arc<Tape>>) -> Result<Option<Arc<Tape>>, Refusal> {
    match tape {
        Some(tape) => Ok(Some(share(tape)?)),
        None => Ok(None),
    }
}

// Starts the threads of a replica and of its tape.
fn start_node<R, A, S>(
    rt: &R,
    alloc: Global,
    node: Arc<A>,
    replica: ReplicaOver<S>,
    lookout: &Arc<Lookout>,
    tape: Option<&Arc<Tape>>,
) -> Result<(), Refusal>
where
    R: Machine,
    A: Served + Seats + Drop + Send + Sync + 'static,
    <A as Host>::Seat: Send + 'static,
    A::Segment: Send,
    A::PostSeat: Send,
    <A as Replies>::Seat: Send,
    S: Follows + Drop + Send + Sync + 'static,
{
    let taping = match tape {
        Some(tape) => start_tape(rt, &node, tape, lookout),
        None => Ok(()),
    };
    both(taping, start_calls(rt, alloc, node, replica, lookout))
}

// Starts the thread that finishes a tape at the end.
fn start_tape<R, A>(
    rt: &R,
    node: &Arc<A>,
    tape: &Arc<Tape>,
    lookout: &Arc<Lookout>,
) -> Result<(), Refusal>
where
    R: Machine,
    A: Host<Seat: Send, Segment: Send> + Drop + Send + Sync + 'static,
{
    let owned = match (shares(node, lookout), share(tape)) {
        (Ok((node, lookout)), Ok(tape)) => Ok((node, lookout, tape)),
        _ => Err(Refusal::OutOfMemory),
    };
    start_worker(rt, owned, move |rt, (node, lookout, tape)| {
        finish_tape(rt, &*node, &tape, &lookout);
    })
}

// Waits for the end, and for frames that are being written, and writes the rest of what happened.
fn finish_tape<R: Wait + Clock, A: Host>(rt: &R, node: &A, tape: &Tape, lookout: &Lookout) {
    look_until_end(rt, tape, lookout);
    lookout
        .ending()
        .drain(rt, Duration::from_secs(DRAIN_SECONDS));
    let rest = match node.cut(rt) {
        Ok(segment) => {
            drop(segment);
            Ok(())
        }
        Err(refusal) => Err(refusal),
    };
    lookout.recording_ended(rt, tape.seal(rt, rest));
    tape.finish(rt);
}

// Waits for the end, and looks meanwhile whether what is recorded is still to be found.
fn look_until_end<R: Wait + Clock>(rt: &R, tape: &Tape, lookout: &Lookout) {
    let ending = lookout.ending();
    for _ in rt.forever() {
        if ending
            .wait_within(rt, Duration::from_secs(LOOK_SECONDS))
            .is_some()
        {
            return;
        }
        lookout.recording_ended(rt, tape.look(rt));
    }
}

// Starts the thread of a replica.
fn start_calls<R, A, S>(
    rt: &R,
    alloc: Global,
    node: Arc<A>,
    replica: ReplicaOver<S>,
    lookout: &Arc<Lookout>,
) -> Result<(), Refusal>
where
    R: Machine,
    A: Served + Seats + Drop + Send + Sync + 'static,
    <A as Host>::Seat: Send + 'static,
    A::Segment: Send,
    A::PostSeat: Send,
    <A as Replies>::Seat: Send,
    S: Follows + Drop + Send + Sync + 'static,
{
    let Ok(lookout) = share(lookout) else {
        drop(replica);
        return Err(Refusal::OutOfMemory);
    };
    let rt = *rt;
    started(thread::spawn(&rt, move || {
        if let Err(refusal) = run_replica(&rt, alloc, &node, replica, &lookout) {
            lookout.ending().end(&rt, End::Refused(refusal));
        }
    }))
}

/// Starts the thread that takes the input, and keeps going at a line that is refused or doesn't, which a server doesn't wait for at its end.
/// Where nobody is answered yet, a line `ready` ends that.
pub(crate) fn start_input<R, I>(
    rt: &R,
    alloc: Global,
    input: I,
    senders: Vec<Sender<Order>>,
    keep_going: bool,
    hold: bool,
    ending: &Arc<Ending>,
    asks: &Option<Arc<CheckerLink>>,
) -> Result<(), Refusal>
where
    R: Runtime,
    I: Read + Drop + Send + 'static,
{
    let owned = match (share(ending), shared_asks(asks)) {
        (Ok(ending), Ok(asks)) => Ok((ending, asks)),
        _ => Err(Refusal::OutOfMemory),
    };
    start_worker(rt, owned, move |rt, (ending, asks)| {
        let mut input = input;
        if hold {
            let mut input = ReadyReader::new(rt, &ending, input);
            read_input(
                rt,
                alloc,
                &mut input,
                senders.as_slice(),
                keep_going,
                &ending,
                &asks,
            );
        } else {
            read_input(
                rt,
                alloc,
                &mut input,
                senders.as_slice(),
                keep_going,
                &ending,
                &asks,
            );
        }
    })
}

/// Starts the thread that lets clients be answered once that is asked for.
pub(crate) fn start_opener<R>(
    rt: &R,
    alloc: Global,
    senders: &[Sender<Order>],
    ending: &Arc<Ending>,
) -> Result<(), Refusal>
where
    R: Runtime,
{
    let owned = match (copies(alloc, senders), share(ending)) {
        (Ok(senders), Ok(ending)) => Ok((senders, ending)),
        _ => Err(Refusal::OutOfMemory),
    };
    start_worker(rt, owned, move |rt, (senders, ending)| {
        open_when_asked(rt, alloc, senders.as_slice(), &ending);
    })
}

// A share of what a checker is asked by, if there is one.
pub(crate) fn shared_asks(
    asks: &Option<Arc<CheckerLink>>,
) -> Result<Option<Arc<CheckerLink>>, Refusal> {
    match asks {
        Some(asks) => Ok(Some(share(asks)?)),
        None => Ok(None),
    }
}

// Takes the input to its end.
fn read_input<R, I>(
    rt: &R,
    alloc: Global,
    input: &mut I,
    senders: &[Sender<Order>],
    keep_going: bool,
    ending: &Ending,
    asks: &Option<Arc<CheckerLink>>,
)
where
    R: Wait,
    I: Read,
{
    if let Some(asks) = asks {
        let replicas = Replicas { senders, ending };
        take_checked(rt, alloc, input, replicas, keep_going, ending, asks);
        return;
    }
    if keep_going {
        keep_input(rt, alloc, input, senders, ending);
    } else {
        take_input(rt, alloc, input, senders, ending);
    }
}

/// Starts the thread that tells what there is to tell, where there is something that it may tell on. Answers whether there is.
pub(crate) fn start_teller<R, T>(
    rt: &R,
    alloc: Global,
    teller: Option<T>,
    ending: &Arc<Ending>,
) -> Result<bool, Refusal>
where
    R: Runtime,
    T: Write + Drop + Send + 'static,
{
    let Some(teller) = teller else {
        return Ok(false);
    };
    start_worker(rt, share(ending), move |rt, ending| {
        let mut errors = Counted::new(teller);
        tell_all(rt, alloc, &mut errors, &ending);
    })?;
    Ok(true)
}

/// Starts the thread of an operator's port.
pub(crate) fn start_admin<R>(
    rt: &R,
    alloc: Global,
    listener: TcpListener,
    desk: Result<Admin, Refusal>,
) -> Result<(), Refusal>
where
    R: Machine,
{
    let desk = match desk {
        Ok(desk) => Arc::new(alloc, desk).map_err(|_| Refusal::OutOfMemory),
        Err(refusal) => Err(refusal),
    };
    start_worker(rt, desk, move |rt, desk| {
        let _ = serve_pages(rt, listener, desk);
    })
}
