// `xds status`, `xds get`, `xds put` and `xds delete`: one request each to a server's operator's port, and what is shown of the answer.
ghost use Rattle.std.specs.Prelude.{◌≡◌, ◌≤◌, codes, IfErr};
ghost use Rattle.xds_frames.specs.Devices.{seen};
ghost use Rattle.xds_tools.specs.Asked.{IsRequest, Shows, ShowsBy, TellsWhy, change_seconds, look_seconds, shown_of, text_shown};

use std::alloc::Global;
use std::fs::File;
use std::io::{ErrorKind, Read, Write};
use std::net::SocketAddrV4;
use std::rt::Files;
use std::time::Duration;
use xds_frames::Counted;
use xds_machine::bearing::{NoBearer, bearer_in};
use xds_machine::machine::Machine;
use xds_machine::port_client::{PortRequest, Unanswered, answered, whole_answer};
use xds_port::{PortAnswer, changes_target, delete_lines, resources_target};
use xds_program::run::{REFUSED, print};
use xds_program::{DeleteTask, GetTask, PutTask, StatusTask};
use xds_resource::Refusal;
use xds_stats::excerpt;
use xds_telling::serve_telling::{
    tell, tell_device, tell_file, tell_no_token, tell_refused_by, tell_unsayable,
};

// As many seconds as a server has to answer what it holds and how its streams stand.
const LOOK_SECONDS: u64 = 10;

// As many seconds as it has for changes: those that are made together have ten minutes there, and the store half a minute.
const CHANGE_SECONDS: u64 = 660;

// As many bytes of an answer as are taken.
const MOST_ANSWER: usize = 1_073_741_824;

// As many bytes as a body of changes has, at most.
const MOST_CHANGES: usize = 4_194_304;

// As many bytes as are read at a time.
const BLOCK: usize = 16_384;

/// What is asked for.
#[derive(Clone, Copy, Debug, PartialEq, Eq)]
pub enum AskedOfPort {
    /// A text that there always is.
    Text,
    /// What replicas hold, of which there may be nothing.
    Resources,
    /// What becomes of changes.
    Changes,
}

/// What is shown of an answer.
#[derive(Clone, Copy, Debug, PartialEq, Eq)]
pub enum Shown {
    /// Its body, on the output, with this status of the program.
    Body(u8),
    /// That nothing is found.
    Nothing,
    /// Its status, and what it says, on the error output.
    Refused,
}

/// What is shown of an answer of this status, whose body is empty or isn't: of changes the body also where some of them are refused, or
/// none is stored.
pub fn shown_of(asked: AskedOfPort, status: u16, is_empty: bool) -> Shown
    ensures { result ≡ shown_of asked status is_empty }
{
    match asked {
        AskedOfPort::Text => text_shown(status),
        AskedOfPort::Resources => {
            if status == 200 && is_empty {
                Shown::Nothing
            } else {
                text_shown(status)
            }
        }
        AskedOfPort::Changes => {
            if status == 207 || status == 422 || status == 507 {
                Shown::Body(1)
            } else {
                text_shown(status)
            }
        }
    }
}

// What is shown of an answer of this status that only has a body where it is 200.
fn text_shown(status: u16) -> Shown
    ensures { result ≡ text_shown status }
{
    if status == 200 {
        Shown::Body(0)
    } else {
        Shown::Refused
    }
}

/// A server's operator's port, and the file of the token that is said there, if one is.
#[derive(Clone, Copy)]
struct Port<'a> {
    addr: SocketAddrV4,
    token: &'a Option<String>,
}

/// Asks a server for its streams, prints what it answers, and answers the status.
pub fn print_status<R, O, E>(
    rt: &R,
    task: &StatusTask,
    output: &mut Counted<O>,
    errors: &mut Counted<E>,
) -> u8
where
    R: Machine + Files<File = File>,
    O: Write,
    E: Write,
    ensures { result ≤ 1 }
{
    let port = Port {
        addr: task.addr,
        token: &task.token,
    };
    ask(
        rt,
        port,
        status_request(),
        AskedOfPort::Text,
        output,
        errors,
    )
}

// A request for how streams stand.
fn status_request() -> PortRequest<'static>
    ensures { IsRequest (codes "GET") (codes "/status.txt") (codes "") look_seconds result }
{
    looking("/status.txt")
}

/// Asks a server for what its replicas hold, as far as the task chooses, prints the lines, and answers the status.
pub fn print_resources<R, O, E>(
    rt: &R,
    task: &GetTask,
    output: &mut Counted<O>,
    errors: &mut Counted<E>,
) -> u8
where
    R: Machine + Files<File = File>,
    O: Write,
    E: Write,
    ensures { result ≤ 1 }
{
    let alloc = rt.alloc();
    let port = Port {
        addr: task.addr,
        token: &task.token,
    };
    match resources_target(alloc, task.replica, task.kind, task.names.as_slice()) {
        Ok(target) => {
            let request = looking(target.as_str());
            ask(rt, port, request, AskedOfPort::Resources, output, errors)
        }
        Err(refusal) => tell(alloc, errors, refusal),
    }
}

/// Posts the changes of an input to a server, prints what becomes of each line, and answers the status. An input that is longer than a body
/// of changes may be is refused (`TooLong`), and nothing is posted.
pub fn put_changes<R, I, O, E>(
    rt: &R,
    task: &PutTask,
    input: I,
    output: &mut Counted<O>,
    errors: &mut Counted<E>,
) -> u8
where
    R: Machine + Files<File = File>,
    I: Read + Drop,
    O: Write,
    E: Write,
    ensures { result ≤ 1 }
{
    let alloc = rt.alloc();
    let mut input = input;
    let body = match read_bounded(alloc, &mut input) {
        Ok(body) => body,
        Err(refusal) => return tell(alloc, errors, refusal),
    };
    let port = Port {
        addr: task.addr,
        token: &task.token,
    };
    let target = changes_target(task.dry_run, task.all_or_nothing);
    let request = posting(target, body.as_slice());
    ask(rt, port, request, AskedOfPort::Changes, output, errors)
}

/// Posts the deletions of some names to a server, all or none of which are made, prints what becomes of each, and answers the status.
pub fn delete_names<R, O, E>(
    rt: &R,
    task: &DeleteTask,
    output: &mut Counted<O>,
    errors: &mut Counted<E>,
) -> u8
where
    R: Machine + Files<File = File>,
    O: Write,
    E: Write,
    ensures { result ≤ 1 }
{
    let alloc = rt.alloc();
    let lines = match delete_lines(alloc, task.replica, task.kind, task.names.as_slice()) {
        Ok(lines) => lines,
        Err(Refusal::BadName) => return tell_unsayable(alloc, errors),
        Err(refusal) => return tell(alloc, errors, refusal),
    };
    if lines.as_str().len() > MOST_CHANGES {
        return tell(alloc, errors, Refusal::TooLong);
    }
    let port = Port {
        addr: task.addr,
        token: &task.token,
    };
    let request = posting(changes_target(task.dry_run, true), lines.as_bytes());
    ask(rt, port, request, AskedOfPort::Changes, output, errors)
}

// A request that changes nothing.
fn looking(target: &str) -> PortRequest<'_>
    ensures { IsRequest (codes "GET") target.now (codes "") look_seconds result }
{
    PortRequest {
        method: "GET",
        target,
        bearer: None,
        body: "".as_bytes(),
        time: Duration::from_secs(LOOK_SECONDS),
        most: MOST_ANSWER,
    }
}

// A request that makes changes.
fn posting<'a>(target: &'a str, body: &'a [u8]) -> PortRequest<'a>
    ensures { IsRequest (codes "POST") target.now body.now change_seconds result }
{
    PortRequest {
        method: "POST",
        target,
        bearer: None,
        body,
        time: Duration::from_secs(CHANGE_SECONDS),
        most: MOST_ANSWER,
    }
}

// Asks a port, with its token, and shows what it answers. Answers the status.
fn ask<R, O, E>(
    rt: &R,
    port: Port<'_>,
    request: PortRequest<'_>,
    asked: AskedOfPort,
    output: &mut Counted<O>,
    errors: &mut Counted<E>,
) -> u8
where
    R: Machine + Files<File = File>,
    O: Write,
    E: Write,
    ensures { result ≤ 1 }
{
    match token_of(rt, port, errors) {
        Ok(bearer) => ask_as(rt, port.addr, request, &bearer, asked, output, errors),
        Err(status) => status,
    }
}

// The token that a port is asked with, if there is one; else the status, once it is told why it can't be said.
fn token_of<R, E>(rt: &R, port: Port<'_>, errors: &mut Counted<E>) -> Result<Option<String>, u8>
where
    R: Machine + Files<File = File>,
    E: Write,
    ensures { IfErr result (λ status. status ≤ 1) }
{
    let alloc = rt.alloc();
    let Some(file) = port.token else {
        return Ok(None);
    };
    match bearer_in(rt, alloc, file.as_str()) {
        Ok(bearer) => Ok(Some(bearer)),
        Err(fault) => Err(tell_unsaid(alloc, errors, file.as_str(), fault)),
    }
}

// Asks a port with this token, if there is one, and shows what it answers. Answers the status.
fn ask_as<R, O, E>(
    rt: &R,
    addr: SocketAddrV4,
    request: PortRequest<'_>,
    bearer: &Option<String>,
    asked: AskedOfPort,
    output: &mut Counted<O>,
    errors: &mut Counted<E>,
) -> u8
where
    R: Machine + Files<File = File>,
    O: Write,
    E: Write,
    ensures { result ≤ 1 }
{
    let alloc = rt.alloc();
    let said = match bearer {
        Some(bearer) => Some(bearer.as_str()),
        None => None,
    };
    match answered(rt, alloc, addr, &request.with_bearer(said)) {
        Ok(answer) => show_answer(alloc, addr, answer.as_slice(), asked, output, errors),
        Err(unanswered) => tell_unanswered(alloc, addr, unanswered, errors),
    }
}

// Tells why there is no token to be said, and answers the status.
fn tell_unsaid<E: Write>(alloc: Global, errors: &mut Counted<E>, file: &str, fault: NoBearer) -> u8
    ensures { result ≡ 1 }
{
    match fault {
        NoBearer::File(fault) => tell_file(alloc, errors, file, fault),
        NoBearer::NoToken => tell_no_token(alloc, errors, file),
        NoBearer::Refused(refusal) => tell(alloc, errors, refusal),
    }
}

// Tells why a request has no answer, and answers the status.
fn tell_unanswered<E: Write>(
    alloc: Global,
    addr: SocketAddrV4,
    unanswered: Unanswered,
    errors: &mut Counted<E>,
) -> u8
    ensures { result ≤ 1 }
{
    match unanswered {
        Unanswered::NoMemory => tell(alloc, errors, Refusal::OutOfMemory),
        _ => tell_device(alloc, errors, addr, unanswered.text()),
    }
}

// Shows an answer, or tells that it is none. Answers the status.
fn show_answer<O: Write, E: Write>(
    alloc: Global,
    addr: SocketAddrV4,
    bytes: &[u8],
    asked: AskedOfPort,
    output: &mut Counted<O>,
    errors: &mut Counted<E>,
) -> u8
    ensures { result ≤ 1 }
{
    match whole_answer(bytes) {
        Ok(answer) => show(alloc, answer, asked, output, errors),
        Err(unanswered) => tell_unanswered(alloc, addr, unanswered, errors),
    }
}

// Shows an answer, and answers the status.
fn show<O: Write, E: Write>(
    alloc: Global,
    answer: PortAnswer<'_>,
    asked: AskedOfPort,
    output: &mut Counted<O>,
    errors: &mut Counted<E>,
) -> u8
    ensures shows { Shows asked answer.entry.status answer.entry.body.now result (seen O.contents output.old output.new) (seen E.contents errors.old errors.new) }
    ensures status { result ≤ 1 }
{
    let shown = shown_of(asked, answer.status, answer.body.is_empty());
    show_by(alloc, shown, answer, output, errors)
}

// Shows so much of an answer, and answers the status.
fn show_by<O: Write, E: Write>(
    alloc: Global,
    shown: Shown,
    answer: PortAnswer<'_>,
    output: &mut Counted<O>,
    errors: &mut Counted<E>,
) -> u8
    ensures { ShowsBy shown answer.entry.status answer.entry.body.now result (seen O.contents output.old output.new) (seen E.contents errors.old errors.new) }
{
    match shown {
        Shown::Body(status) => print(answer.body.as_bytes(), status.min(REFUSED), output, errors),
        Shown::Nothing => tell(alloc, errors, Refusal::NotFound),
        Shown::Refused => tell_why(alloc, answer, errors),
    }
}

// Tells an answer by its status, with what its body says, and answers the status of the program.
fn tell_why<E: Write>(alloc: Global, answer: PortAnswer<'_>, errors: &mut Counted<E>) -> u8
    ensures { TellsWhy answer.entry.status answer.entry.body.now result (seen E.contents errors.old errors.new) }
{
    match excerpt(alloc, answer.body.trim()) {
        Ok(why) => tell_refused_by(alloc, errors, answer.status, why.as_str()),
        Err(_) => tell(alloc, errors, Refusal::OutOfMemory),
    }
}

// All of an input, where it is no longer than a body of changes. A read that was interrupted is made again.
fn read_bounded<I: Read>(alloc: Global, input: &mut I) -> Result<Vec<u8>, Refusal> {
    let mut all = Vec::new(alloc);
    for _ in 0..u64::MAX {
        let mut block = [0; BLOCK];
        match input.read(&mut block) {
            Ok(0) => break,
            Ok(count) => all.extend_from_slice(&block[..count.min(BLOCK)])?,
            Err(error) if error.kind() == ErrorKind::Interrupted => {}
            Err(_) => return Err(Refusal::Device),
        }
        if all.len() > MOST_CHANGES {
            return Err(Refusal::TooLong);
        }
    }
    Ok(all)
}
