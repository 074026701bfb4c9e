// What a server tells on its error output.
ghost use Rattle.std.specs.Prelude.{◌≡◌, string_bytes, IfOk, Ok};
ghost use Rattle.xds_notes.specs.Endings.{fault_line, refusal_line, status_of, TellsEnd, TellsLine, TellsText};
ghost use Rattle.xds_telling.specs.Messages.{admin_line, file_line, no_token_line, old_numbers_line, port_fault_text, port_line, refused_by_line, replica_line, same_numbers_line, unloaded_line, unsayable_line, why_refused};
ghost use Rattle.xds_frames.specs.Devices.{Tells, seen};
ghost use Rattle.xds_monitor.specs.Recordings.{tape_line};

use std::alloc::Global;
use std::io::{ErrorKind, Write};
use std::net::SocketAddrV4;
use std::sync::Wait;
use xds_changes::loading::number_at;
use xds_frames::{Counted, write_whole};
use xds_machine::files::FileFault;
use xds_monitor::{TapeFault, tape_line};
use xds_notes::{End, Ending, Next, fault_line};
use xds_resource::Refusal;
use xds_stats::number_text;
use xds_store::StoreRefusal;

/// The status of a server that ended by a refusal.
pub const REFUSED: u8 = 1;

// The line of a refusal.
fn refusal_line(alloc: Global, refusal: Refusal) -> Result<String, Refusal>
    ensures { IfOk result (λ t. string_bytes t ≡ refusal_line refusal) }
{
    let number = refusal.number();
    let name = refusal.name();
    Ok(format!(in alloc; "{number} {name}\n")?)
}

/// Why a port can't be bound.
#[derive(Clone, Copy, Debug, PartialEq, Eq)]
pub enum PortFault {
    /// Somebody else has it.
    InUse,
    /// Who runs the server may not have it.
    NotAllowed,
    /// The system says something else.
    Other,
}

impl PortFault {
    /// The fault of a call that failed with an error of this kind.
    pub fn of(kind: ErrorKind) -> PortFault {
        match kind {
            ErrorKind::AddrInUse => PortFault::InUse,
            ErrorKind::PermissionDenied => PortFault::NotAllowed,
            _ => PortFault::Other,
        }
    }

    // What is told of it behind the refusal.
    fn text(self) -> &'static str
        ensures { result.now ≡ port_fault_text self }
    {
        match self {
            PortFault::InUse => ": in use",
            PortFault::NotAllowed => ": not allowed",
            PortFault::Other => "",
        }
    }
}

// The line of a port that can't be bound.
fn port_line(alloc: Global, port: u16, fault: PortFault) -> Result<String, Refusal>
    ensures { IfOk result (λ t. string_bytes t ≡ port_line port fault) }
{
    let why = fault.text();
    Ok(format!(in alloc; "127.0.0.1:{port}: 19 Device{why}\n")?)
}

// The line of a replica.
fn replica_line(
    alloc: Global,
    place: u16,
    number: u16,
    port: u16,
    rest_port: u16,
) -> Result<String, Refusal>
    ensures { IfOk result (λ t. string_bytes t ≡ replica_line place number port rest_port) }
{
    let named = number_text(alloc, place, number)?;
    let named = named.as_str();
    Ok(format!(in alloc;
        "replica {place}{named}: streams on 127.0.0.1:{port}, REST on 127.0.0.1:{rest_port}\n"
    )?)
}

// The line of a file that can't be opened.
fn file_line(alloc: Global, file: &str, fault: FileFault) -> Result<String, Refusal>
    ensures { IfOk result (λ t. string_bytes t ≡ file_line file.now fault) }
{
    let why = fault.text();
    Ok(format!(in alloc; "{file}: 19 Device{why}\n")?)
}

// The line of a file that has no token.
fn no_token_line(alloc: Global, file: &str) -> Result<String, Refusal>
    ensures { IfOk result (λ t. string_bytes t ≡ no_token_line file.now) }
{
    Ok(format!(in alloc; "{file}: its first line is to be a token\n")?)
}

/// Tells a file that has no token, and answers the status.
pub fn tell_no_token<E: Write>(alloc: Global, errors: &mut Counted<E>, file: &str) -> u8
    ensures told { TellsLine (no_token_line file.now) (seen E.contents errors.old errors.new) }
    ensures status { result ≡ 1 }
{
    put(errors, no_token_line(alloc, file));
    REFUSED
}

// The line of a server that doesn't answer.
fn device_line(alloc: Global, addr: SocketAddrV4, why: &str) -> Result<String, Refusal> {
    Ok(format!(in alloc; "{addr}: 19 Device: {why}\n")?)
}

/// Tells that a server doesn't answer, and why, and answers the status.
pub fn tell_device<E: Write>(
    alloc: Global,
    errors: &mut Counted<E>,
    addr: SocketAddrV4,
    why: &str,
) -> u8
    ensures { result ≡ 1 }
{
    put(errors, device_line(alloc, addr, why));
    REFUSED
}

// The line of a status of HTTP by which a question is refused, with what is said of it, if something is.
fn refused_by_line(alloc: Global, status: u16, said: &str) -> Result<String, Refusal>
    ensures { IfOk result (λ t. string_bytes t ≡ refused_by_line status (why_refused status said.now)) }
{
    let why = why_refused(status, said);
    if why.is_empty() {
        return Ok(format!(in alloc; "the server answers {status}\n")?);
    }
    Ok(format!(in alloc; "the server answers {status}: {why}\n")?)
}

// Why a question is refused by a status of HTTP, with what is said of it.
fn why_refused<'a>(status: u16, said: &'a str) -> &'a str
    ensures { result.now ≡ why_refused status said.now }
{
    match status {
        401 => "--admin-token FILE says the token",
        404 if said.is_empty() => "no operator's port of this version is there",
        413 => "more than 4,194,304 bytes of changes",
        414 | 431 => "the names are too long for one request",
        _ => said,
    }
}

/// Tells the status of HTTP by which a question is refused, with what is said of it, and answers the status of the program.
pub fn tell_refused_by<E: Write>(
    alloc: Global,
    errors: &mut Counted<E>,
    status: u16,
    said: &str,
) -> u8
    ensures told { TellsLine (refused_by_line status (why_refused status said.now)) (seen E.contents errors.old errors.new) }
    ensures status { result ≡ 1 }
{
    put(errors, refused_by_line(alloc, status, said));
    REFUSED
}

// The line of a name that can't be said in a line of changes.
fn unsayable_line(alloc: Global) -> Result<String, Refusal>
    ensures { IfOk result (λ t. string_bytes t ≡ unsayable_line) }
{
    Ok(String::from_str(
        alloc,
        "5 BadName: a name that is empty, or has a space or the end of a line in it, can't stand in a line of changes\n",
    )?)
}

/// Tells that a name can't be said in a line of changes, and answers the status.
pub fn tell_unsayable<E: Write>(alloc: Global, errors: &mut Counted<E>) -> u8
    ensures told { TellsLine unsayable_line (seen E.contents errors.old errors.new) }
    ensures status { result ≡ 1 }
{
    put(errors, unsayable_line(alloc));
    REFUSED
}

// The line of a file that isn't loaded, by one of its lines or by what else was refused.
fn unloaded_line(
    alloc: Global,
    file: &str,
    line: Option<u64>,
    refusal: Refusal,
) -> Result<String, Refusal>
    ensures { IfOk result (λ t. string_bytes t ≡ unloaded_line file.now line refusal) }
{
    let number = refusal.number();
    let name = refusal.name();
    match line {
        Some(line) => Ok(format!(in alloc; "{file}: line {line}: {number} {name}\n")?),
        None => Ok(format!(in alloc; "{file}: {number} {name}\n")?),
    }
}

/// Tells a file that can't be opened, and why, and answers the status.
pub fn tell_file<E: Write>(
    alloc: Global,
    errors: &mut Counted<E>,
    file: &str,
    fault: FileFault,
) -> u8
    ensures told { TellsLine (file_line file.now fault) (seen E.contents errors.old errors.new) }
    ensures status { result ≡ 1 }
{
    put(errors, file_line(alloc, file, fault));
    REFUSED
}

/// Tells why a file isn't loaded, by one of its lines or by what else was refused, and answers the status.
pub fn tell_unloaded<E: Write>(
    alloc: Global,
    errors: &mut Counted<E>,
    file: &str,
    line: Option<u64>,
    refusal: Refusal,
) -> u8
    ensures told { TellsLine (unloaded_line file.now line refusal) (seen E.contents errors.old errors.new) }
    ensures status { result ≡ 1 }
{
    put(errors, unloaded_line(alloc, file, line, refusal));
    REFUSED
}

/// Tells that a store is refused, and why, and answers the status.
pub fn tell_store<E: Write>(
    alloc: Global,
    errors: &mut Counted<E>,
    file: &str,
    refusal: StoreRefusal,
) -> u8
    ensures { result ≡ 1 }
{
    put(errors, store_line(alloc, file, refusal));
    REFUSED
}

/// Tells a text, and answers the status.
pub fn tell_text<E: Write>(errors: &mut Counted<E>, text: String) -> u8
    ensures told { TellsText string_bytes (Ok text) (seen E.contents errors.old errors.new) }
    ensures status { result ≡ 1 }
{
    put(errors, Ok(text));
    REFUSED
}

// The line of a store that is refused.
fn store_line(alloc: Global, file: &str, refusal: StoreRefusal) -> Result<String, Refusal> {
    Ok(format!(in alloc; "{file}: {refusal}\n")?)
}

/// Tells that the replicas that were asked for have no numbers above those of the replicas that made the writes of a file, and answers the
/// status.
pub fn tell_old_numbers<E: Write>(alloc: Global, errors: &mut Counted<E>, file: &str) -> u8
    ensures told { TellsLine (old_numbers_line file.now) (seen E.contents errors.old errors.new) }
    ensures status { result ≡ 1 }
{
    put(errors, old_numbers_line(alloc, file));
    REFUSED
}

// rule: new-numbers
fn old_numbers_line(alloc: Global, file: &str) -> Result<String, Refusal>
    ensures { IfOk result (λ t. string_bytes t ≡ old_numbers_line file.now) }
{
    Ok(format!(in alloc;
        "{file}: its writes have the numbers of these replicas, or greater ones: --first-number has to be above them\n"
    )?)
}

/// Tells that the replicas have the numbers of every run in which none was said, from this one on, and what that means for clients of one
/// before.
pub fn tell_same_numbers<E: Write>(alloc: Global, errors: &mut Counted<E>, first: u16)
    ensures { TellsLine (same_numbers_line first) (seen E.contents errors.old errors.new) }
{
    put(errors, same_numbers_line(alloc, first));
}

// rule: new-numbers
fn same_numbers_line(alloc: Global, first: u16) -> Result<String, Refusal>
    ensures { IfOk result (λ t. string_bytes t ≡ same_numbers_line first) }
{
    Ok(format!(in alloc;
        "numbers begin at {first} again: a client of an earlier run may keep what is no longer so; --store or --first-number keeps runs apart\n"
    )?)
}

// The line of a lack of memory, which needs none.
fn no_memory_line() -> &'static str
    ensures { result.now ≡ refusal_line Refusal.OutOfMemory }
{
    "8 OutOfMemory\n"
}

// Tells a lack of memory.
fn tell_no_memory<E: Write>(errors: &mut Counted<E>)
    ensures { Tells (seen E.contents errors.old errors.new) (refusal_line Refusal.OutOfMemory) }
{
    let _ = write_whole(errors, no_memory_line().as_bytes());
}

// Writes a text, or that there was no memory for it. An error output that fails is passed over.
fn put<E: Write>(errors: &mut Counted<E>, text: Result<String, Refusal>)
    ensures { TellsText string_bytes text (seen E.contents errors.old errors.new) }
{
    match text {
        Ok(text) => {
            let _ = write_whole(errors, text.as_bytes());
        }
        Err(_) => tell_no_memory(errors),
    }
}

/// Tells a refusal, and answers the status.
pub fn tell<E: Write>(alloc: Global, errors: &mut Counted<E>, refusal: Refusal) -> u8
    ensures told { TellsLine (refusal_line refusal) (seen E.contents errors.old errors.new) }
    ensures status { result ≡ 1 }
{
    put(errors, refusal_line(alloc, refusal));
    REFUSED
}

/// Tells a line of the input that is refused, and answers the status.
pub fn tell_line<E: Write>(
    alloc: Global,
    errors: &mut Counted<E>,
    line: u64,
    refusal: Refusal,
) -> u8
    ensures told { TellsLine (fault_line line refusal) (seen E.contents errors.old errors.new) }
    ensures status { result ≡ 1 }
{
    put(errors, fault_line(alloc, line, refusal));
    REFUSED
}

/// Tells a port that can't be bound, and why, and answers the status.
pub fn tell_port<E: Write>(
    alloc: Global,
    errors: &mut Counted<E>,
    port: u16,
    fault: PortFault,
) -> u8
    ensures told { TellsLine (port_line port fault) (seen E.contents errors.old errors.new) }
    ensures status { result ≡ 1 }
{
    put(errors, port_line(alloc, port, fault));
    REFUSED
}

/// Tells a file of a trace that can't be made, and why, and answers the status.
pub fn tell_tape<E: Write>(
    alloc: Global,
    errors: &mut Counted<E>,
    folder: &str,
    replica: u16,
    fault: TapeFault,
) -> u8
    ensures told { TellsLine (tape_line folder.now replica fault) (seen E.contents errors.old errors.new) }
    ensures status { result ≡ 1 }
{
    put(errors, tape_line(alloc, folder, replica, fault));
    REFUSED
}

/// Tells what is served where, a line a replica: so many of them, from this number and these ports on.
pub fn tell_replicas<E: Write>(
    alloc: Global,
    errors: &mut Counted<E>,
    replicas: u16,
    first: u16,
    port: u16,
    rest_port: u16,
) {
    for index in 0..replicas {
        let place = index.wrapping_add(1);
        let number = number_at(first, place);
        let port = port.wrapping_add(index);
        let rest_port = rest_port.wrapping_add(index);
        put(errors, replica_line(alloc, place, number, port, rest_port));
    }
}

// The line of an operator's port.
fn admin_line(alloc: Global, port: u16) -> Result<String, Refusal>
    ensures { IfOk result (λ t. string_bytes t ≡ admin_line port) }
{
    Ok(format!(in alloc; "an operator's port on 127.0.0.1:{port}\n")?)
}

/// Tells where an operator's port is.
pub fn tell_admin<E: Write>(alloc: Global, errors: &mut Counted<E>, port: u16)
    ensures { TellsLine (admin_line port) (seen E.contents errors.old errors.new) }
{
    put(errors, admin_line(alloc, port));
}

/// Tells what there is to tell, line by line, until the server ends.
pub fn tell_until_end<R: Wait, E: Write>(
    rt: &R,
    alloc: Global,
    errors: &mut Counted<E>,
    ending: &Ending,
) -> End {
    for _ in rt.forever() {
        match ending.next(rt) {
            Next::Note(note) => put(errors, note.line(alloc)),
            Next::End(end) => return end,
        }
    }
    unreachable!()
}

/// Tells all notes up to the end, those that come until nothing more is to be told, and then why the server ended, if by a refusal.
pub fn tell_all<R: Wait, E: Write>(
    rt: &R,
    alloc: Global,
    errors: &mut Counted<E>,
    ending: &Ending,
) {
    tell_until_end(rt, alloc, errors, ending);
    ending.wait_closed(rt);
    let end = tell_until_end(rt, alloc, errors, ending);
    tell_end(alloc, errors, Ok(end));
    ending.all_told(rt);
}

/// Tells why a server ended, where that is a refusal, and answers the status.
pub fn tell_end<E: Write>(alloc: Global, errors: &mut Counted<E>, ended: Result<End, Refusal>) -> u8
    ensures told { TellsEnd ended (seen E.contents errors.old errors.new) }
    ensures status { result ≡ status_of ended }
{
    match ended {
        Ok(End::Streams | End::Stopped) => 0,
        Ok(End::Line(line, refusal)) => tell_line(alloc, errors, line, refusal),
        Ok(End::Refused(refusal)) => tell(alloc, errors, refusal),
        Err(refusal) => tell(alloc, errors, refusal),
    }
}

/// The status of a server that ended so.
pub fn status_of(end: End) -> u8
    ensures { result ≡ status_of (Ok end) }
{
    match end {
        End::Streams | End::Stopped => 0,
        End::Line(_, _) | End::Refused(_) => REFUSED,
    }
}
