// Whole responses that become long, as they are told while a server runs.
use crossbeam_channel::{Sender, unbounded};
use std::alloc::Global;
use std::sync::{Arc, Wait};
use std::time::{Clock, Duration};
use xds_changes::order::{Order, copies};
use xds_core::Marks;
use xds_machine::machine::Runtime;
use xds_machine::threads::{share, start_worker};
use xds_message::Batch;
use xds_notes::Ending;
use xds_resource::{Refusal, ResourceType, TypeName, Write};
use xds_stats::{Ceiling, LogEvent, ReplicaSizes, millis_now};
use xds_upkeep::moves::Moves;

// After how many seconds it is looked again whether responses have become long.
const LOOK_SECONDS: u64 = 1;

// After how many looks a response that is long is counted again, where it changed: whether it still is. A count goes over all that is held.
const REST: u8 = 10;

// As many bytes as a response has more beside its resources, at most, once there are such and its version is longer.
const BESIDE: u64 = 64;

// How long the response of each type is, at most.
#[derive(Clone, Copy)]
struct Ceilings {
    cluster: Ceiling,
    endpoint: Ceiling,
    listener: Ceiling,
    route: Ceiling,
    secret: Ceiling,
}

impl Ceilings {
    fn new() -> Ceilings {
        Ceilings {
            cluster: Ceiling::new(),
            endpoint: Ceiling::new(),
            listener: Ceiling::new(),
            route: Ceiling::new(),
            secret: Ceiling::new(),
        }
    }

    fn at(&mut self, kind: TypeName) -> &mut Ceiling {
        match kind {
            TypeName::Cluster => &mut self.cluster,
            TypeName::Endpoint => &mut self.endpoint,
            TypeName::Listener => &mut self.listener,
            TypeName::Route => &mut self.route,
            TypeName::Secret => &mut self.secret,
        }
    }

    // These entries have changed.
    fn raise(&mut self, changed: &Batch) {
        raise(&mut self.cluster, changed.cluster.as_slice());
        raise(&mut self.endpoint, changed.endpoint.as_slice());
        raise(&mut self.listener, changed.listener.as_slice());
        raise(&mut self.route, changed.route.as_slice());
        raise(&mut self.secret, changed.secret.as_slice());
    }

    fn may_tell(self) -> bool {
        self.cluster.may_tell()
            || self.endpoint.may_tell()
            || self.listener.may_tell()
            || self.route.may_tell()
            || self.secret.may_tell()
    }

    fn are_long(self) -> bool {
        self.cluster.is_long
            || self.endpoint.is_long
            || self.listener.is_long
            || self.route.is_long
            || self.secret.is_long
    }
}

// What is known of a replica's responses.
struct KnownSizes {
    // Its place among those of the server, from 1.
    replica: u16,
    ceilings: Ceilings,
    // The counts of changes up to which that is known; none where nothing is.
    marks: Option<Marks>,
    // Whether something has changed since the last count, and after how many looks there may be one only to see whether a response still is
    // long.
    is_changed: bool,
    rest: u8,
}

// Written out: docs/PROVING.md, "Drops".
impl Drop for KnownSizes {
    fn drop(self) {
        let KnownSizes {
            replica: _,
            ceilings: _,
            marks: _,
            is_changed: _,
            rest: _,
        } = self;
    }
}

impl KnownSizes {
    // Whether the responses are to be counted.
    fn is_due(&self) -> bool {
        self.ceilings.may_tell() || (self.is_changed && self.rest == 0 && self.ceilings.are_long())
    }
}

// Entries of a type have changed.
fn raise<T: ResourceType>(ceiling: &mut Ceiling, changed: &[Write<T>]) {
    for write in changed {
        if let Some(body) = write.body() {
            ceiling.raise((body.len() as u64).saturating_add(1));
        }
    }
    if !changed.is_empty() {
        ceiling.raise(BESIDE);
    }
}

/// Starts the thread that tells responses that have become long, at any replica.
pub fn start_sizing<R: Runtime>(
    rt: &R,
    alloc: Global,
    moves: &Option<Arc<Moves>>,
    replicas: &[Sender<Order>],
    ending: &Arc<Ending>,
) -> Result<(), Refusal> {
    let Some(moves) = moves else {
        return Ok(());
    };
    let owned = match (share(moves), copies(alloc, replicas), share(ending)) {
        (Ok(moves), Ok(senders), Ok(ending)) => Ok((moves, senders, ending)),
        _ => Err(Refusal::OutOfMemory),
    };
    start_worker(rt, owned, move |rt, (moves, senders, ending)| {
        follow_sizes(rt, alloc, &moves, senders.as_slice(), &ending);
    })
}

fn follow_sizes<R: Runtime>(
    rt: &R,
    alloc: Global,
    moves: &Moves,
    senders: &[Sender<Order>],
    ending: &Ending,
) {
    let Ok(mut all) = nothing_known(alloc, senders.len()) else {
        return;
    };
    for _ in rt.forever() {
        if ending
            .wait_within(rt, Duration::from_secs(LOOK_SECONDS))
            .is_some()
        {
            return;
        }
        look_at_all(rt, alloc, &mut all, moves, senders, ending);
    }
}

// Looks at each replica.
fn look_at_all<R: Wait + Clock>(
    rt: &R,
    alloc: Global,
    all: &mut Vec<KnownSizes>,
    moves: &Moves,
    senders: &[Sender<Order>],
    ending: &Ending,
) {
    let mut place = 0usize;
    for orders in senders {
        if let Some(known) = all.get_mut(place) {
            let _ = look(rt, alloc, known, moves, orders, ending);
        }
        place = place.saturating_add(1);
    }
}

// Nothing is known of so many replicas.
fn nothing_known(alloc: Global, replicas: usize) -> Result<Vec<KnownSizes>, Refusal> {
    let mut all = Vec::new(alloc);
    let mut replica = 0u16;
    for _ in 0..replicas {
        replica = replica.saturating_add(1);
        all.push(KnownSizes {
            replica,
            ceilings: Ceilings::new(),
            marks: None,
            is_changed: false,
            rest: 0,
        })?;
    }
    Ok(all)
}

// Looks whether responses of a replica have become long.
fn look<R: Wait + Clock>(
    rt: &R,
    alloc: Global,
    known: &mut KnownSizes,
    moves: &Moves,
    orders: &Sender<Order>,
    ending: &Ending,
) -> Result<(), Refusal> {
    known.rest = known.rest.saturating_sub(1);
    let Some(marks) = known.marks else {
        return count(rt, alloc, known, orders, ending);
    };
    if moves.is_past(rt, known.replica, marks) {
        let (changed, now) = since(rt, alloc, orders, marks)?;
        known.ceilings.raise(&changed);
        drop(changed);
        known.marks = Some(now);
        known.is_changed = true;
    }
    if known.is_due() {
        return count(rt, alloc, known, orders, ending);
    }
    Ok(())
}

// What changed at a replica after these counts of changes, and the counts now.
fn since<R: Wait>(
    rt: &R,
    alloc: Global,
    orders: &Sender<Order>,
    marks: Marks,
) -> Result<(Batch, Marks), Refusal> {
    let (to, from) = unbounded(alloc)?;
    let _ = orders.send(rt, Order::Since(marks, to));
    match from.recv(rt) {
        Ok(changed) => changed,
        Err(_) => Err(Refusal::Device),
    }
}

// Counts the responses of a replica, and tells those that have become long.
fn count<R: Wait + Clock>(
    rt: &R,
    alloc: Global,
    known: &mut KnownSizes,
    orders: &Sender<Order>,
    ending: &Ending,
) -> Result<(), Refusal> {
    let look = held_at(rt, alloc, orders)?;
    let kinds = [
        TypeName::Cluster,
        TypeName::Endpoint,
        TypeName::Listener,
        TypeName::Route,
        TypeName::Secret,
    ];
    for kind in &kinds {
        let bytes = look.of(*kind).bytes;
        if known.ceilings.at(*kind).see(bytes) {
            ending.log(
                rt,
                millis_now(rt),
                LogEvent::Long(known.replica, *kind, bytes),
            );
        }
    }
    known.marks = Some(marks_in(&look));
    known.is_changed = false;
    known.rest = REST;
    Ok(())
}

// How much a replica holds.
fn held_at<R: Wait>(
    rt: &R,
    alloc: Global,
    orders: &Sender<Order>,
) -> Result<ReplicaSizes, Refusal> {
    let (to, from) = unbounded(alloc)?;
    let _ = orders.send(rt, Order::Look(to));
    match from.recv(rt) {
        Ok(look) => look,
        Err(_) => Err(Refusal::Device),
    }
}

// The counts of changes of what is held.
fn marks_in(look: &ReplicaSizes) -> Marks {
    Marks {
        cluster: look.cluster.changes,
        endpoint: look.endpoint.changes,
        listener: look.listener.changes,
        route: look.route.changes,
        secret: look.secret.changes,
    }
}
