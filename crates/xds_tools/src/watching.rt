// `xds client`: a client on one stream, and how it ends.
ghost use Rattle.std.specs.Prelude.{◌≡◌, Err};
ghost use Rattle.xds_frames.specs.Devices.{seen};
ghost use Rattle.xds_tools.specs.Ends.{EndsClient, EndsClientBy, HasEnded, IsOf, variant_of};

use crate::telling::{tell_http, tell_late, tell_refusal};
use crate::timed::{TimedDial, gave_up};
use std::alloc::{AllocGlobal, Global};
use std::io::Write;
use std::net::{Net, TcpStream};
use std::time::Clock;
use xds_client::{ConnectingEnd, Dials, Subscription, run_at};
use xds_frames::Counted;
use xds_machine::deadline::Deadline;
use xds_program::run::DONE;
use xds_program::{AskedVariant, ClientTask};
use xds_resource::Refusal;

/// What a reader knows of the other end.
pub trait HearsPeer {
    /// Whether the other end answers HTTP.
    fn speaks_http(&self) -> bool;
}

/// Runs the client that a task asks for over a connection of its own, and tells how it ended. Answers the status.
pub fn watch<R, O, E>(
    rt: &R,
    task: &ClientTask,
    output: &mut Counted<O>,
    errors: &mut Counted<E>,
) -> u8
where
    R: Net<Stream = TcpStream> + Clock + AllocGlobal,
    O: Write,
    E: Write,
    ensures { EndsClient task.now result (seen O.contents output.old output.new) (seen E.contents errors.old errors.new) }
{
    let deadline = Deadline::after(rt, task.seconds);
    let mut dials = TimedDial::new(rt, task.seconds, deadline);
    watch_by(rt, &mut dials, deadline, task, output, errors)
}

/// Runs the client that a task asks for over what its one call connects it to, and tells the refusal that it ends by; or that it gave
/// up, where the deadline has come that it was given, or that the other end speaks HTTP. Answers the status.
pub fn watch_by<C, D, O, E>(
    rt: &C,
    dials: &mut D,
    deadline: Deadline,
    task: &ClientTask,
    output: &mut Counted<O>,
    errors: &mut Counted<E>,
) -> u8
where
    C: Clock + AllocGlobal,
    D: Dials<Reader: HearsPeer>,
    O: Write,
    E: Write,
    ensures { EndsClientBy (D.dials dials.old dials.new) D.Reader.remaining D.Writer.contents task.now result (seen O.contents output.old output.new) (seen E.contents errors.old errors.new) }
{
    let alloc = rt.alloc();
    let wish = wish_of(task);
    let ended = run_at(dials, alloc, task.addr, &wish, output);
    let speaks_http = speaks_http(&ended);
    tell_end(
        rt,
        alloc,
        task,
        deadline,
        &ended.answer,
        speaks_http,
        errors,
    )
}

// Whether the other end of a client's connection answers HTTP, where there is one.
fn speaks_http<R: HearsPeer, W>(ended: &ConnectingEnd<R, W>) -> bool {
    match &ended.ends {
        Some((reader, _)) => reader.inner.speaks_http(),
        None => false,
    }
}

// The subscription that a task asks for.
fn wish_of(task: &ClientTask) -> Subscription<'_>
    ensures { IsOf task.now result }
{
    Subscription {
        variant: variant_of(task.variant),
        kind: task.kind,
        cluster: task.cluster.as_str(),
        names: task.names.as_slice(),
        responses: task.responses,
    }
}

// Tells how a client ended, and answers the status.
fn tell_end<R: Clock, E: Write>(
    rt: &R,
    alloc: Global,
    task: &ClientTask,
    deadline: Deadline,
    ended: &Result<(), Refusal>,
    speaks_http: bool,
    errors: &mut Counted<E>,
) -> u8
    ensures { HasEnded task.now ended.now result (seen E.contents errors.old errors.new) }
{
    match ended {
        Ok(()) => DONE,
        Err(refusal) => tell_why(rt, alloc, task, deadline, *refusal, speaks_http, errors),
    }
}

// Tells why a client ended, and answers the status.
fn tell_why<R: Clock, E: Write>(
    rt: &R,
    alloc: Global,
    task: &ClientTask,
    deadline: Deadline,
    refusal: Refusal,
    speaks_http: bool,
    errors: &mut Counted<E>,
) -> u8
    ensures { HasEnded {T = Unit {0}} task.now (Err refusal) result (seen E.contents errors.old errors.new) }
{
    if speaks_http && refusal == Refusal::FrameTooLong {
        return tell_http(alloc, refusal, errors);
    }
    match gave_up(rt, refusal, task.seconds, deadline) {
        Some(seconds) => tell_late(alloc, seconds, errors),
        None => tell_refusal(alloc, refusal, errors),
    }
}

// The variant as a client on a stream knows it.
fn variant_of(variant: AskedVariant) -> xds_client::StreamVariant
    ensures { result ≡ variant_of variant }
{
    match variant {
        AskedVariant::Sotw => xds_client::StreamVariant::Sotw,
        AskedVariant::Delta => xds_client::StreamVariant::Delta,
    }
}
