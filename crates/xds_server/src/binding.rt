// The ports of a server, and what stands beside its replicas.
ghost use Rattle.std.specs.Prelude.{◌≡◌, IfOk, option_map, string_bytes};

use crate::beginning::Begun;
use crate::server::Serving;
use std::alloc::Global;
use std::fs::File;
use std::net::{Ipv4Addr, Net, SocketAddr, SocketAddrV4, TcpListener, TcpStream};
use std::os::fd::OwnedFd;
use std::rt::Files;
use std::sync::Arc;
use xds_machine::machine::Machine;
use xds_machine::meter::Meter;
use xds_machine::threads::share;
use xds_message::Batch;
use xds_replicas::replica::{Sockets, SocketsOver};
use xds_resource::Refusal;
use xds_stats::millis_now;
use xds_telling::serve_telling::PortFault;
use xds_upkeep::moves::Moves;
use xds_upkeep::sourcing::Source;
use xds_upkeep::storing::Progress;

/// An operator's port that is bound: its socket, how far the replicas have changed, what tells what this process takes, and what requests
/// there say, if they say something.
pub(crate) type BoundAdmin = (TcpListener, Arc<Moves>, Meter, Option<String>);

/// The sockets of a server, and what is known of its store.
pub(crate) struct Bindings {
    // Of each replica, with what it begins with.
    pub(crate) sockets: Vec<Sockets>,
    // Of an operator's port, if there is one.
    pub(crate) admin: Option<BoundAdmin>,
    // How far writes are stored, if they are.
    pub(crate) progress: Option<Arc<Progress>>,
    // What is beside the replicas.
    pub(crate) beside: Beside,
}

// Written out: docs/PROVING.md, "Drops".
impl Drop for Bindings {
    fn drop(self) {
        let Bindings {
            sockets: _,
            admin: _,
            progress: _,
            beside: _,
        } = self;
    }
}

impl Bindings {
    pub(crate) fn into_parts(
        self,
    ) -> (
        Vec<Sockets>,
        Option<BoundAdmin>,
        Option<Arc<Progress>>,
        Beside,
    ) {
        let Bindings {
            sockets,
            admin,
            progress,
            beside,
        } = self;
        (sockets, admin, progress, beside)
    }
}

/// What works beside the replicas of a server: the folder that resources come from, if there is one, and how far the replicas have changed,
/// where references are told that lead nowhere, or responses that are long.
pub(crate) struct Beside {
    pub(crate) source: Option<Arc<Source>>,
    pub(crate) moves: Option<Arc<Moves>>,
    // Which of both are told.
    pub(crate) lints: bool,
    pub(crate) logs: bool,
}

// Written out: docs/PROVING.md, "Drops".
impl Drop for Beside {
    fn drop(self) {
        let Beside {
            source: _,
            moves: _,
            lints: _,
            logs: _,
        } = self;
    }
}

// What works beside the replicas.
fn beside_of(begun: &Begun, moves: &Option<Arc<Moves>>) -> Result<Beside, Unbound> {
    let source = shared_if_any(&begun.source)?;
    let serving = begun.serving;
    if serving.lint || serving.logs {
        let moves = shared_if_any(moves)?;
        return Ok(Beside {
            source,
            moves,
            lints: serving.lint,
            logs: serving.logs,
        });
    }
    Ok(Beside {
        source,
        moves: None,
        lints: false,
        logs: false,
    })
}

/// Why the ports aren't bound.
#[derive(Clone, Copy)]
pub(crate) enum Unbound {
    Port(u16, PortFault),
    Refused(Refusal),
}

/// All sockets, replica by replica, each with what is there from the start.
pub(crate) fn bound<R>(
    rt: &R,
    alloc: Global,
    begun: &Begun,
    moves: &Option<Arc<Moves>>,
) -> Result<Vec<Sockets>, Unbound>
where
    R: Net<Listener = TcpListener, Stream = TcpStream>,
{
    let serving = begun.serving;
    let mut sockets = Vec::new(alloc);
    for index in 0..serving.replicas {
        let streams = bind(rt, serving.port, index)?;
        let polls = bind(rt, serving.rest_port, index)?;
        let world = copied(alloc, &begun.world)?;
        let storage = shared_if_any(&begun.storage)?;
        let moves = shared_if_any(moves)?;
        let one = SocketsOver {
            streams,
            polls,
            world,
            storage,
            moves,
        };
        match sockets.push(one) {
            Ok(()) => {}
            Err(_) => return Err(Unbound::Refused(Refusal::OutOfMemory)),
        }
    }
    Ok(sockets)
}

// A share of something, if it is there.
fn shared_if_any<T: Drop>(it: &Option<Arc<T>>) -> Result<Option<Arc<T>>, Unbound> {
    match it {
        Some(it) => match share(it) {
            Ok(it) => Ok(Some(it)),
            Err(refusal) => Err(Unbound::Refused(refusal)),
        },
        None => Ok(None),
    }
}

// How far the replicas of a server have changed, where there is an operator's port, or references are told that lead nowhere, or responses
// that are long.
fn moves_of(alloc: Global, serving: Serving) -> Result<Option<Arc<Moves>>, Refusal> {
    if serving.admin_port.is_none() && !serving.lint && !serving.logs {
        return Ok(None);
    }
    Ok(Some(Arc::new(alloc, Moves::new(alloc, serving.replicas)?)?))
}

// A copy of what is there from the start, if there is something. No text is copied.
fn copied(alloc: Global, world: &Option<Batch>) -> Result<Option<Batch>, Unbound>
    ensures { IfOk result (λ o. o ≡ world.now) }
{
    match world {
        Some(batch) => match batch.try_copy(alloc) {
            Ok(copy) => Ok(Some(copy)),
            Err(refusal) => Err(Unbound::Refused(refusal)),
        },
        None => Ok(None),
    }
}

/// The sockets of all replicas, and that of an operator's port, where there is one.
pub(crate) fn all_bound<R>(rt: &R, alloc: Global, begun: &Begun) -> Result<Bindings, Unbound>
where
    R: Machine + Files<File = File>,
{
    let moves = match moves_of(alloc, begun.serving) {
        Ok(moves) => moves,
        Err(refusal) => return Err(Unbound::Refused(refusal)),
    };
    let sockets = bound(rt, alloc, begun, &moves)?;
    let beside = beside_of(begun, &moves)?;
    let admin = match (begun.serving.admin_port, moves) {
        (Some(port), Some(moves)) => Some(bound_admin(rt, alloc, begun, port, moves)?),
        _ => None,
    };
    match begun.progress() {
        Ok(progress) => Ok(Bindings {
            sockets,
            admin,
            progress,
            beside,
        }),
        Err(refusal) => Err(Unbound::Refused(refusal)),
    }
}

// An operator's port at this port of the machine.
fn bound_admin<R>(
    rt: &R,
    alloc: Global,
    begun: &Begun,
    port: u16,
    moves: Arc<Moves>,
) -> Result<BoundAdmin, Unbound>
where
    R: Machine + Files<File = File>,
{
    let bearer = match copied_text(alloc, &begun.bearer) {
        Ok(bearer) => bearer,
        Err(refusal) => {
            drop(moves);
            return Err(Unbound::Refused(refusal));
        }
    };
    match bind(rt, port, 0) {
        Ok(listener) => Ok((listener, moves, Meter::new(rt, millis_now(rt)), bearer)),
        Err(unbound) => {
            drop(moves);
            Err(unbound)
        }
    }
}

// A copy of a text, if there is one.
fn copied_text(alloc: Global, text: &Option<String>) -> Result<Option<String>, Refusal>
    ensures { IfOk result (λ o. option_map string_bytes o ≡ option_map string_bytes text.now) }
{
    match text {
        Some(text) => Ok(Some(String::from_str(alloc, text.as_str())?)),
        None => Ok(None),
    }
}

// Binds a port of this machine, with the longest queue of new connections that the system allows: a client that finds it full asks again
// after a second.
fn bind<R>(rt: &R, first: u16, index: u16) -> Result<TcpListener, Unbound>
where
    R: Net<Listener = TcpListener, Stream = TcpStream>,
{
    let port = first.wrapping_add(index);
    let addr = SocketAddr::V4(SocketAddrV4::new(Ipv4Addr::LOCALHOST, port));
    match mio::net::TcpListener::bind(rt, addr) {
        Ok(listener) => Ok(TcpListener::from(OwnedFd::from(listener))),
        Err(error) => Err(Unbound::Port(port, PortFault::of(error.kind()))),
    }
}
