// A connection of a client, which is read until a time has passed.
ghost use Rattle.std.specs.Prelude.{◌≡◌, true, false, if◌then◌else◌, IfSome, Some};
ghost use Rattle.xds_tools.specs.Ends.{begins_http};

use crate::watching::HearsPeer;
use std::alloc::Global;
use std::io;
use std::io::{ErrorKind, Read};
use std::net::{Net, SocketAddr, SocketAddrV4, TcpStream};
use std::time::{Clock, Duration};
use xds_client::{Dials, Side};
use xds_machine::deadline::Deadline;
use xds_resource::Refusal;

// A connection, made within so many seconds where such are given.
fn connected<N: Net<Stream = TcpStream>>(
    net: &N,
    addr: SocketAddrV4,
    seconds: Option<u16>,
) -> io::Result<TcpStream> {
    match seconds {
        None => TcpStream::connect(net, addr),
        Some(seconds) => connected_within(net, addr, Duration::from_secs(u64::from(seconds))),
    }
}

// A connection that is made within a time, and of which no write waits longer.
fn connected_within<N: Net<Stream = TcpStream>>(
    net: &N,
    addr: SocketAddrV4,
    time: Duration,
) -> io::Result<TcpStream> {
    let socket = TcpStream::connect_timeout(net, &SocketAddr::V4(addr), time)?;
    socket.set_write_timeout(Some(time))?;
    Ok(socket)
}

/// After how many seconds a command gave up, where it ended by this refusal: after those that it was given, if they have passed.
pub fn gave_up<C: Clock>(
    clock: &C,
    refusal: Refusal,
    seconds: Option<u16>,
    deadline: Deadline,
) -> Option<u16>
    ensures { IfSome result (λ s. (seconds ≡ Some s) × (refusal ≡ Refusal.Device)) }
{
    if refusal != Refusal::Device {
        return None;
    }
    if deadline.has_come(clock) {
        seconds
    } else {
        None
    }
}

/// A connection that is read until a deadline. It notes whether what comes first is an answer of HTTP.
#[derive(Drop)]
pub struct TimedReader<'a, C> {
    clock: &'a C,
    socket: Side,
    deadline: Deadline,
    // Whether something has come.
    has_come: bool,
    speaks_http: bool,
}

impl<'a, C: Clock> TimedReader<'a, C> {
    pub fn new(clock: &'a C, socket: Side, deadline: Deadline) -> TimedReader<'a, C>
        ensures come { result.has_come ≡ false }
        ensures http { result.speaks_http ≡ false }
    {
        TimedReader {
            clock,
            socket,
            deadline,
            has_come: false,
            speaks_http: false,
        }
    }

    // Lets the next read wait as long as is left.
    fn limit(&mut self) -> io::Result<()> {
        match self.deadline.left(self.clock)? {
            None => Ok(()),
            Some(left) => {
                if left.is_zero() {
                    return Err(ErrorKind::TimedOut.into());
                }
                self.socket.stream().set_read_timeout(Some(left))
            }
        }
    }

    // Looks at what comes first.
    fn look(&mut self, piece: &[u8])
        ensures come { self.new.has_come ≡ true }
        ensures http { self.new.speaks_http ≡ if self.old.has_come then self.old.speaks_http else begins_http piece.now }
    {
        if !self.has_come {
            self.has_come = true;
            self.speaks_http = piece.starts_with(b"HTTP/");
        }
    }
}

impl<'a, C: Clock> Read for TimedReader<'a, C> {
    fn read(&mut self, buf: &mut [u8]) -> io::Result<usize> {
        self.limit()?;
        let count = self.socket.read(buf)?;
        self.look(&buf[..count]);
        Ok(count)
    }
}

impl<'a, C: Clock> HearsPeer for TimedReader<'a, C> {
    fn speaks_http(&self) -> bool
        ensures { result ≡ self.now.speaks_http }
    {
        self.speaks_http
    }
}

/// Connects over TCP, within so many seconds where some are given, and reads until a deadline.
#[derive(Drop)]
pub struct TimedDial<'a, R> {
    rt: &'a R,
    seconds: Option<u16>,
    deadline: Deadline,
}

impl<'a, R> TimedDial<'a, R> {
    pub fn new(rt: &'a R, seconds: Option<u16>, deadline: Deadline) -> TimedDial<'a, R> {
        TimedDial {
            rt,
            seconds,
            deadline,
        }
    }
}

impl<'a, R: Net<Stream = TcpStream> + Clock> Dials for TimedDial<'a, R> {
    ghost use Rattle.std.specs.Prelude.{⊤};

    type Reader = TimedReader<'a, R>;

    type Writer = Side;

    // Nothing is claimed of what goes over a socket.
    ghost dials = { λ _ _ _ _. ⊤ };

    fn dial(
        &mut self,
        alloc: Global,
        addr: SocketAddrV4,
    ) -> Result<(TimedReader<'a, R>, Side), Refusal> {
        let Ok(socket) = connected(self.rt, addr, self.seconds) else {
            return Err(Refusal::Device);
        };
        let (reader, writer) = Side::two(alloc, socket)?;
        Ok((TimedReader::new(self.rt, reader, self.deadline), writer))
    }
}
