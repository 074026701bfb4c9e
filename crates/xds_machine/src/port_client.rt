// A request to a port that answers HTTP, over a connection of its own.
use crate::deadline::Deadline;
use std::alloc::Global;
use std::io::{ErrorKind, Read};
use std::net::{Net, SocketAddr, SocketAddrV4, TcpStream};
use std::time::{Clock, Duration};
use std::{io, str};
use xds_frames::{Counted, write_whole};
use xds_port::{PortAnswer, answer_in, head_text};

// As many bytes as are read at a time.
const BLOCK: usize = 16_384;

/// A request.
#[derive(Clone, Copy)]
pub struct PortRequest<'a> {
    pub method: &'static str,
    pub target: &'a str,
    /// What it says of a token, if it says something.
    pub bearer: Option<&'a str>,
    pub body: &'a [u8],
    /// Within this time it is to be answered.
    pub time: Duration,
    /// As many bytes of an answer as are taken.
    pub most: usize,
}

impl<'a> PortRequest<'a> {
    /// The same, which says this of a token.
    pub fn with_bearer(self, bearer: Option<&'a str>) -> PortRequest<'a> {
        PortRequest {
            method: self.method,
            target: self.target,
            bearer,
            body: self.body,
            time: self.time,
            most: self.most,
        }
    }
}

/// Why a request has no answer.
#[derive(Clone, Copy, Debug, PartialEq, Eq)]
pub enum Unanswered {
    /// Nobody answers there.
    Unreachable,
    /// The answer isn't there in time.
    Late,
    /// It breaks off, or is none of HTTP.
    Broken,
    /// It is too long.
    TooLong,
    /// There is no memory for the request or the answer.
    NoMemory,
}

impl Unanswered {
    /// What is told of it.
    pub fn text(self) -> &'static str {
        match self {
            Unanswered::Unreachable => "nobody answers there",
            Unanswered::Late => "no answer in time",
            Unanswered::Broken => "the answer breaks off, or is none",
            Unanswered::TooLong => "the answer is too long",
            Unanswered::NoMemory => "no memory for the answer",
        }
    }
}

/// What a request is answered, as it comes, up to the end of the connection.
pub fn answered<N>(
    net: &N,
    alloc: Global,
    addr: SocketAddrV4,
    request: &PortRequest<'_>,
) -> Result<Vec<u8>, Unanswered>
where
    N: Net<Stream = TcpStream> + Clock,
{
    let deadline = Deadline::within(net, request.time);
    let Ok(socket) = connected(net, addr, request.time) else {
        return Err(Unanswered::Unreachable);
    };
    let count = request.body.len();
    let Ok(head) = head_text(alloc, request.method, request.target, request.bearer, count) else {
        return Err(Unanswered::NoMemory);
    };
    // Who answers before it has read all may end the connection while it is written: what it answers is read all the same.
    let mut to = Counted::new(&socket);
    if write_whole(&mut to, head.as_bytes()).is_ok() {
        let _ = write_whole(&mut to, request.body);
    }
    read_all(net, alloc, &socket, deadline, request.most)
}

fn connected<N: Net<Stream = TcpStream>>(
    net: &N,
    addr: SocketAddrV4,
    time: Duration,
) -> io::Result<TcpStream> {
    let socket = TcpStream::connect_timeout(net, &SocketAddr::V4(addr), time)?;
    socket.set_write_timeout(Some(time))?;
    Ok(socket)
}

// All that comes on a connection up to its end, if that is there before a deadline, and no more than so many bytes.
fn read_all<C: Clock>(
    clock: &C,
    alloc: Global,
    socket: &TcpStream,
    deadline: Deadline,
    most: usize,
) -> Result<Vec<u8>, Unanswered> {
    let mut all = Vec::new(alloc);
    for _ in 0..u32::MAX {
        let mut block = [0; BLOCK];
        let Some(count) = read_some(clock, socket, deadline, &mut block)? else {
            continue;
        };
        if count == 0 {
            return Ok(all);
        }
        if all.extend_from_slice(&block[..count.min(BLOCK)]).is_err() {
            return Err(Unanswered::NoMemory);
        }
        if all.len() > most {
            break;
        }
    }
    Err(Unanswered::TooLong)
}

// Reads some bytes before a deadline: none, where it was interrupted. A connection that breaks off has no more: what has come says how
// long it is to be.
fn read_some<C: Clock>(
    clock: &C,
    socket: &TcpStream,
    deadline: Deadline,
    block: &mut [u8],
) -> Result<Option<usize>, Unanswered> {
    let left = deadline.rest(clock);
    if left.is_zero() || socket.set_read_timeout(Some(left)).is_err() {
        return Err(Unanswered::Late);
    }
    let mut reader = socket;
    match reader.read(block) {
        Ok(count) => Ok(Some(count)),
        Err(error) => match error.kind() {
            ErrorKind::Interrupted => Ok(None),
            ErrorKind::WouldBlock | ErrorKind::TimedOut => Err(Unanswered::Late),
            _ => Ok(Some(0)),
        },
    }
}

/// The answer that has come, if it is one, and whole.
pub fn whole_answer(bytes: &[u8]) -> Result<PortAnswer<'_>, Unanswered> {
    let Ok(text) = str::from_utf8(bytes) else {
        return Err(Unanswered::Broken);
    };
    match answer_in(text) {
        Some(answer) => Ok(answer),
        None => Err(Unanswered::Broken),
    }
}
