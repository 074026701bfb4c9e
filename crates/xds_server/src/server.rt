// A server of some replicas, from its first line to its end.
ghost use Rattle.std.specs.Prelude.{◌≡◌, ◌≤◌, IfOk};
ghost use Rattle.xds_server.specs.Servings.{limits_of};

use crate::beginning::{Begun, ServeFiles, begin_with, first_number};
use crate::binding::{Beside, Bindings, BoundAdmin, Unbound, all_bound, bound};
use crate::starting::{
    shared_asks, shared_tape, start_admin, start_input, start_opener, start_replica, start_teller,
};
use crate::unbegun::tell_unbegun;
use crossbeam_channel::{Receiver, Sender, bounded};
use std::alloc::{AllocError, Global};
use std::fs::File;
use std::io::{Read, Write};
use std::net::{Net, SocketAddrV4, TcpListener, TcpStream};
use std::rt::Files;
use std::sync::{Arc, Mutex, Wait};
use std::thread;
use std::time::{Clock, Duration};
use xds_admin::admin::Admin;
use xds_admin::reached::ReachedReplica;
use xds_changes::loading::number_at;
use xds_changes::order::Order;
use xds_checker::checker::{CheckerLink, start_checker};
use xds_exchange::link;
use xds_frames::Counted;
use xds_machine::deadline::Deadline;
use xds_machine::machine::{Machine, Runtime};
use xds_machine::meter::Meter;
use xds_machine::threads::share;
use xds_machine::wires::{Links, Wires, both, crossed, wired};
use xds_monitor::{Tape, Unrecordable, tapes_in};
use xds_notes::ending::DRAIN_SECONDS;
use xds_notes::{End, Ending, Limits, Lookout, Note, Telling};
use xds_replicas::replica::{Sends, Sockets, TakingEnds};
use xds_replicas::sizing::start_sizing;
use xds_resource::Refusal;
use xds_stats::{LogEvent, millis_now};
use xds_telling::serve_telling::{
    status_of, tell, tell_admin, tell_end, tell_port, tell_replicas, tell_same_numbers, tell_tape,
    tell_until_end,
};
use xds_upkeep::linting::start_linting;
use xds_upkeep::moves::Moves;
use xds_upkeep::sourcing::{Source, start_sourcing};
use xds_upkeep::storing::{Progress, owned};

/// What a server is asked for.
#[derive(Clone, Copy, Debug, PartialEq, Eq)]
pub struct Serving {
    /// The number of the first replica, from 1, by which its writes are stamped; the others have the next ones. Where none is said
    /// they are those of every run in which none was, from 1 on, and that is told.
    pub first_number: Option<u16>,
    /// How many replicas there are, from 1 to 16.
    pub replicas: u16,
    /// The port of the first replica's streams. The others have the next ones.
    pub port: u16,
    /// The port of the first replica's polls. The others have the next ones.
    pub rest_port: u16,
    /// After how many ended streams the server ends; never, where none is said.
    pub streams: Option<u16>,
    /// By how many threads each replica serves its streams; by two, where none is said.
    pub workers: Option<u16>,
    /// Whether a line of the input that is refused is told, and the next is read.
    pub keep_going: bool,
    /// Whether changes that are refused are told. A server that keeps going, or logs, tells them in any case.
    pub tells: bool,
    /// Whether what an operator cares for is told, a line each, and as JSON.
    pub logs: bool,
    pub logs_json: bool,
    /// How many streams a replica has at a time, at most; any number, where none is said.
    pub max_streams: Option<u16>,
    /// Within how many seconds the first frame of a stream comes; at any time, where none is said.
    pub idle_seconds: Option<u16>,
    /// An operator's port, if there is one.
    pub admin_port: Option<u16>,
    /// Whether nobody is answered before the input has a line `ready`, or an operator says so.
    pub hold: bool,
    /// Whether references that lead nowhere are told.
    pub lint: bool,
    /// Whether a put is refused by which the whole response of its type would be too long for a frame.
    pub refuse_long: bool,
}

// As many milliseconds as who stopped the server has to take the answer.
const PARTING_MILLISECONDS: u64 = 200;

// As many milliseconds as what waits to be told has at least to be told at the end.
const TELL_MILLISECONDS: u64 = 200;

// As many seconds as the rest of the traces has at most to be written at the end. It is no more than a journal has.
const RECORD_SECONDS: u64 = 60;

// As many seconds as the rest of what changed has at most to be stored at the end.
const STORE_SECONDS: u64 = 60;

// What is told of a store that doesn't have all writes at the end.
const NOT_ALL: &str = "doesn't have the last writes";

// What the replicas are started with, and what changes of the input are sent by.
type Wiring = Wires<Sockets, Sender<Order>, Receiver<Order>, Sends, TakingEnds>;

/// Serves until so many streams have ended as are asked for, or a line of the input is refused, and answers the status: 0,
/// or 1 with the refusal on the error output. A server that keeps going tells such a line, and reads the next. All ports are bound before anything is read; one that can't be is told with
/// its address as 19 Device, and why. What is served where is told on the error output, a line a replica.
///
/// Where a folder is given, the trace of replica K is recorded in its file `replica-K.trace`, which is new: where it can't be made, that
/// is told with its name as 19 Device, and why, and nothing is read. A recording that ends by a refusal is told; the server goes on.
///
/// Where a file is to be loaded, all its lines are made before the ports are bound, each by its replica over all that was made before;
/// one that is refused is told with the file's name, and nothing is served. Where there is a store, its writes are there from the start,
/// its replicas have numbers that no run of it had, and what changes is stored. A store that is refused is told, and nothing is served.
///
/// Where the error output is given once more, as a teller, a thread of its own tells on it, and the server ends some three seconds after its
/// end is known, whoever reads that output; what isn't told by then is left out. Without one the server waits for who reads it.
///
/// The input is read in a thread of its own, so it is handed over by value. Its end ends nothing. Threads that still wait
/// at the end are left: they end with the process.
pub fn serve<R, I, E, T>(
    rt: &R,
    input: I,
    errors: &mut Counted<E>,
    teller: Option<T>,
    serving: Serving,
    files: ServeFiles<'_>,
) -> u8
where
    R: Runtime + Net<Listener = TcpListener, Stream = TcpStream> + Files<File = File>,
    I: Read + Drop + Send + 'static,
    E: Write,
    T: Write + Drop + Send + 'static,
    ensures { result ≤ 1 }
{
    let alloc = rt.alloc();
    match checker_of(rt, alloc, files.checker) {
        Ok(asks) => serve_checked(rt, alloc, input, errors, teller, serving, files, &asks),
        Err(refusal) => {
            drop(input);
            drop(teller);
            tell(alloc, errors, refusal)
        }
    }
}

// What a checker of resources is asked by, if there is one.
fn checker_of<R: Machine>(
    rt: &R,
    alloc: Global,
    checker: Option<(SocketAddrV4, bool)>,
) -> Result<Option<Arc<CheckerLink>>, Refusal> {
    match checker {
        Some((addr, passes)) => {
            let asks = start_checker(rt, alloc, addr, passes)?;
            Ok(Some(Arc::new(alloc, asks)?))
        }
        None => Ok(None),
    }
}

// Serves what a checker takes, if there is one.
fn serve_checked<R, I, E, T>(
    rt: &R,
    alloc: Global,
    input: I,
    errors: &mut Counted<E>,
    teller: Option<T>,
    serving: Serving,
    files: ServeFiles<'_>,
    asks: &Option<Arc<CheckerLink>>,
) -> u8
where
    R: Machine + Files<File = File>,
    I: Read + Drop + Send + 'static,
    E: Write,
    T: Write + Drop + Send + 'static,
    ensures { result ≤ 1 }
{
    let asked = match asks {
        Some(asks) => Some(&**asks),
        None => None,
    };
    match begin_with(rt, alloc, serving, files, asked) {
        Ok(begun) => serve_world(rt, alloc, input, errors, teller, begun, files.record, asks),
        Err(fault) => {
            drop(input);
            drop(teller);
            tell_unbegun(alloc, errors, files, fault)
        }
    }
}

// Serves what is there from the start.
fn serve_world<R, I, E, T>(
    rt: &R,
    alloc: Global,
    input: I,
    errors: &mut Counted<E>,
    teller: Option<T>,
    begun: Begun,
    folder: Option<&str>,
    asks: &Option<Arc<CheckerLink>>,
) -> u8
where
    R: Machine + Files<File = File>,
    I: Read + Drop + Send + 'static,
    E: Write,
    T: Write + Drop + Send + 'static,
    ensures { result ≤ 1 }
{
    let serving = begun.serving;
    let is_new = begun.is_new;
    let bound = all_bound(rt, alloc, &begun);
    drop(begun);
    match bound {
        Ok(doors) => serve_recorded(
            rt, alloc, input, errors, teller, doors, serving, is_new, folder, asks,
        ),
        Err(Unbound::Port(port, fault)) => {
            drop(input);
            drop(teller);
            tell_port(alloc, errors, port, fault)
        }
        Err(Unbound::Refused(refusal)) => {
            drop(input);
            drop(teller);
            tell_end(alloc, errors, Err(refusal))
        }
    }
}

// Serves at these sockets, and records in this folder, if there is one.
fn serve_recorded<R, I, E, T>(
    rt: &R,
    alloc: Global,
    input: I,
    errors: &mut Counted<E>,
    teller: Option<T>,
    doors: Bindings,
    serving: Serving,
    is_new: bool,
    folder: Option<&str>,
    asks: &Option<Arc<CheckerLink>>,
) -> u8
where
    R: Machine + Files<File = File>,
    I: Read + Drop + Send + 'static,
    E: Write,
    T: Write + Drop + Send + 'static,
    ensures { result ≤ 1 }
{
    let tapes = match folder {
        Some(folder) => match tapes_in(rt, alloc, folder, serving.replicas) {
            Ok(tapes) => tapes,
            Err(fault) => {
                drop(input);
                drop(teller);
                return tell_unrecordable(alloc, errors, folder, fault);
            }
        },
        None => Vec::new(alloc),
    };
    tell_replicas(
        alloc,
        errors,
        serving.replicas,
        first_number(serving),
        serving.port,
        serving.rest_port,
    );
    if let Some(port) = serving.admin_port {
        tell_admin(alloc, errors, port);
    }
    if !is_new {
        tell_same_numbers(alloc, errors, first_number(serving));
    }
    match run(
        rt, alloc, input, errors, teller, doors, &tapes, serving, asks,
    ) {
        Ok(status) => status,
        Err(refusal) => tell_end(alloc, errors, Err(refusal)),
    }
}

// Tells why traces can't be recorded in a folder, and answers the status.
fn tell_unrecordable<E: Write>(
    alloc: Global,
    errors: &mut Counted<E>,
    folder: &str,
    fault: Unrecordable,
) -> u8
    ensures { result ≡ 1 }
{
    match fault {
        Unrecordable::File(replica, fault) => tell_tape(alloc, errors, folder, replica, fault),
        Unrecordable::Refused(refusal) => tell(alloc, errors, refusal),
    }
}

// Serves to the end, and tells what there is to tell meanwhile, and why it ended. Answers the status.
fn run<R, I, E, T>(
    rt: &R,
    alloc: Global,
    input: I,
    errors: &mut Counted<E>,
    teller: Option<T>,
    doors: Bindings,
    tapes: &Vec<Arc<Tape>>,
    serving: Serving,
    asks: &Option<Arc<CheckerLink>>,
) -> Result<u8, Refusal>
where
    R: Machine,
    I: Read + Drop + Send + 'static,
    E: Write,
    T: Write + Drop + Send + 'static,
    ensures { IfOk result (λ status. status ≤ 1) }
{
    let (sockets, admin, progress, beside) = doors.into_parts();
    let wires = wired(alloc, sockets, &Channels { alloc })?;
    let ending = Arc::new(alloc, ending_of(alloc, serving))?;
    if serving.hold {
        ending.hold(rt);
    }
    let lookouts = lookouts_of(alloc, serving, &ending)?;
    log_replicas(rt, &ending, serving);
    let is_told_beside = start_teller(rt, alloc, teller, &ending)?;
    start(
        rt, alloc, input, wires, admin, serving, &lookouts, tapes, &progress, &beside, &ending,
        asks,
    )?;
    if is_told_beside {
        return Ok(end_beside(rt, alloc, tapes, &progress, &ending));
    }
    let end = tell_until_end(rt, alloc, errors, &ending);
    finish(rt, alloc, tapes, &progress, &ending, end);
    let end = tell_until_end(rt, alloc, errors, &ending);
    Ok(tell_end(alloc, errors, Ok(end)))
}

// Waits for the end, and for what is to be done then, while another thread tells. That one is waited for as long as frames that were begun
// may be written, and a moment at least. Answers the status.
fn end_beside<R: Wait + Clock>(
    rt: &R,
    alloc: Global,
    tapes: &Vec<Arc<Tape>>,
    progress: &Option<Arc<Progress>>,
    ending: &Ending,
) -> u8
    ensures { result ≤ 1 }
{
    let end = ending.wait(rt);
    let deadline = Deadline::within(rt, Duration::from_secs(DRAIN_SECONDS));
    finish(rt, alloc, tapes, progress, ending, end);
    let least = Duration::from_millis(TELL_MILLISECONDS);
    ending.wait_told(rt, deadline.rest(rt).max(least));
    status_of(end)
}

// What is done once the end is known: who stopped the server takes the answer, frames that were begun are written, traces to their
// ends, and what changed is stored. Then nothing more is to be told.
fn finish<R: Wait + Clock>(
    rt: &R,
    alloc: Global,
    tapes: &Vec<Arc<Tape>>,
    progress: &Option<Arc<Progress>>,
    ending: &Ending,
    end: End,
) {
    if end == End::Stopped {
        thread::sleep(rt, Duration::from_millis(PARTING_MILLISECONDS));
    }
    ending.drain(rt, Duration::from_secs(DRAIN_SECONDS));
    if !tapes.is_empty() {
        wait_tapes(rt, tapes, ending);
    }
    if let Some(progress) = progress {
        if !progress.wait(rt, Duration::from_secs(STORE_SECONDS)) {
            if let Ok(text) = owned(alloc, NOT_ALL) {
                ending.announce(rt, Note::Store(text));
            }
        }
    }
    ending.close(rt);
}

// Waits until the traces are written to their ends. One that isn't in time has ended.
fn wait_tapes<R: Wait + Clock>(rt: &R, tapes: &Vec<Arc<Tape>>, ending: &Ending) {
    let mut time = Duration::from_secs(RECORD_SECONDS);
    for tape in tapes {
        if !tape.wait(rt, time) {
            time = Duration::from_secs(0);
            ending.announce(rt, Note::RecordingEnded(tape.replica(), Refusal::Device));
        }
    }
}

// Where threads note what happens at each replica.
fn lookouts_of(
    alloc: Global,
    serving: Serving,
    ending: &Arc<Ending>,
) -> Result<Vec<Arc<Lookout>>, Refusal> {
    let limits = limits_of(serving);
    let mut lookouts = Vec::new(alloc);
    for index in 0..serving.replicas {
        let place = index.saturating_add(1);
        let number = number_at(first_number(serving), place);
        let lookout = Lookout::new(alloc, place, number, limits, share(ending)?);
        lookouts.push(Arc::new(alloc, lookout)?)?;
    }
    Ok(lookouts)
}

// How a server ends, and what it tells until then.
fn ending_of(alloc: Global, serving: Serving) -> Ending {
    let telling = Telling {
        changes: serving.keep_going || serving.tells || serving.logs,
        events: serving.logs,
        json: serving.logs_json,
    };
    Ending::after(alloc, serving.streams, telling)
}

// What the streams of a replica may be.
fn limits_of(serving: Serving) -> Limits
    ensures { result ≡ limits_of serving }
{
    Limits {
        streams: serving.max_streams,
        idle_seconds: serving.idle_seconds,
        refuses_long: serving.refuse_long,
        workers: serving.workers,
    }
}

// Tells which replica listens where, where such is told.
fn log_replicas<R: Wait + Clock>(rt: &R, ending: &Ending, serving: Serving) {
    for index in 0..serving.replicas {
        let place = index.wrapping_add(1);
        let number = number_at(first_number(serving), place);
        let port = serving.port.wrapping_add(index);
        let rest_port = serving.rest_port.wrapping_add(index);
        ending.log(
            rt,
            millis_now(rt),
            LogEvent::Listening(place, number, port, rest_port),
        );
    }
}

// Starts the replicas, the thread that takes the input, and that of an operator's port.
fn start<R, I>(
    rt: &R,
    alloc: Global,
    input: I,
    wires: Wiring,
    admin: Option<BoundAdmin>,
    serving: Serving,
    lookouts: &Vec<Arc<Lookout>>,
    tapes: &Vec<Arc<Tape>>,
    progress: &Option<Arc<Progress>>,
    beside: &Beside,
    ending: &Arc<Ending>,
    asks: &Option<Arc<CheckerLink>>,
) -> Result<(), Refusal>
where
    R: Machine,
    I: Read + Drop + Send + 'static,
{
    if let Some(asks) = asks {
        asks.tell(rt, alloc, ending);
    }
    let (senders, replicas) = wires.apart();
    let mut done = match admin {
        Some((listener, moves, meter, bearer)) => {
            let desk = desk_of(
                alloc,
                senders.as_slice(),
                lookouts,
                tapes,
                progress,
                &beside.source,
                ending,
                moves,
                meter,
                bearer,
                asks,
            );
            start_admin(rt, alloc, listener, desk)
        }
        None => Ok(()),
    };
    if serving.hold {
        done = both(done, start_opener(rt, alloc, senders.as_slice(), ending));
    }
    done = both(
        done,
        start_beside(rt, alloc, beside, senders.as_slice(), ending),
    );
    done = both(
        done,
        start_input(
            rt,
            alloc,
            input,
            senders,
            serving.keep_going,
            serving.hold,
            ending,
            asks,
        ),
    );
    let mut lookouts = lookouts.iter();
    let mut tapes = tapes.iter();
    for replica in replicas {
        let tape = tapes.next();
        match lookouts.next() {
            Some(lookout) => done = both(done, start_replica(rt, alloc, replica, lookout, tape)),
            None => drop(replica),
        }
    }
    done
}

// Starts what works beside the replicas.
fn start_beside<R: Machine>(
    rt: &R,
    alloc: Global,
    beside: &Beside,
    senders: &[Sender<Order>],
    ending: &Arc<Ending>,
) -> Result<(), Refusal> {
    let sourcing = start_sourcing(rt, alloc, &beside.source, senders, ending);
    let linting = if beside.lints {
        start_linting(rt, alloc, &beside.moves, senders, ending)
    } else {
        Ok(())
    };
    let sizing = if beside.logs {
        start_sizing(rt, alloc, &beside.moves, senders, ending)
    } else {
        Ok(())
    };
    both(sourcing, both(linting, sizing))
}

// The replicas, as an operator's port reaches them.
fn reached_by(
    alloc: Global,
    senders: &[Sender<Order>],
    lookouts: &Vec<Arc<Lookout>>,
    tapes: &Vec<Arc<Tape>>,
) -> Result<Vec<ReachedReplica>, Refusal> {
    let mut replicas = Vec::new(alloc);
    let mut tapes = tapes.iter();
    for (sender, lookout) in senders.iter().zip(lookouts.iter()) {
        let lookout = share(lookout)?;
        let tape = shared_tape(tapes.next())?;
        let orders = sender.clone()?;
        replicas.push(ReachedReplica {
            lookout,
            orders,
            tape,
            late: Mutex::new(None),
        })?;
    }
    Ok(replicas)
}

// What an operator's port answers by.
fn desk_of(
    alloc: Global,
    senders: &[Sender<Order>],
    lookouts: &Vec<Arc<Lookout>>,
    tapes: &Vec<Arc<Tape>>,
    progress: &Option<Arc<Progress>>,
    source: &Option<Arc<Source>>,
    ending: &Arc<Ending>,
    moves: Arc<Moves>,
    meter: Meter,
    bearer: Option<String>,
    asks: &Option<Arc<CheckerLink>>,
) -> Result<Admin, Refusal> {
    let replicas = reached_by(alloc, senders, lookouts, tapes)?;
    let store = match progress {
        Some(progress) => Some(share(progress)?),
        None => None,
    };
    let source = match source {
        Some(source) => Some(share(source)?),
        None => None,
    };
    Ok(Admin {
        replicas,
        store,
        source,
        moves,
        ending: share(ending)?,
        meter,
        bearer,
        asks: shared_asks(asks)?,
    })
}

// How many orders may wait for a replica. The input isn't read on where they do.
const MOST_WAITING: usize = 1_024;

// The channels of a server.
#[derive(Drop)]
struct Channels {
    alloc: Global,
}

impl Links<Sender<Order>, Receiver<Order>, Sends, TakingEnds> for Channels {
    ghost use Rattle.xds_server.specs.Channels.{AreJoinedBy};

    ghost linked = { AreJoinedBy };

    fn orders(&self) -> Result<(Sender<Order>, Receiver<Order>), AllocError> {
        bounded(self.alloc, MOST_WAITING)
    }

    fn ends(&self) -> Result<(Sends, TakingEnds), AllocError> {
        crossed(link(self.alloc), link(self.alloc))
    }
}
