// A client's stream over a connection.
ghost use Rattle.std.specs.Prelude.{◌≡◌, IfErr};
ghost use Rattle.xds_resource.specs.declared.refusal.Refusal.TheVariants.{OutOfMemory};
ghost use Rattle.xds_frames.specs.Devices.{seen};
ghost use Rattle.xds_client.specs.Running.{RunsBy, RunsOver};

use crate::running::run_client;
use crate::subscription::Subscription;
use std::alloc::Global;
use std::io;
use std::io::{Read, Write};
use std::net::{Net, SocketAddrV4, TcpStream};
use std::sync::Arc;
use xds_frames::Counted;
use xds_resource::Refusal;

/// What connects a client to a server. [`Tcp`] is one.
pub trait Dials {
    ghost use Rattle.std.specs.Prelude.{Result, IfErr};
    ghost use Rattle.std.specs.declared.net.socket_addr.SocketAddrV4.{SocketAddrV4 as Addr};
    ghost use Rattle.xds_resource.specs.declared.refusal.Refusal.{Refusal as Cause};
    ghost use Rattle.xds_client.specs.Running.{IsNoConnection};

    /// Where responses come from.
    type Reader: Read + Drop;

    /// Where requests go to.
    type Writer: Write + Drop;

    // How what comes of one call stands to the address, between what connects before and after: (before, after, address, outcome).
    ghost dials: { Self → Self → Addr → Result (Self.Reader × Self.Writer) Cause → Type 0 };

    /// The reader and the writer of a new connection to this address. Refused is `Device` where there is none, and `OutOfMemory`.
    fn dial(
        &mut self,
        alloc: Global,
        addr: SocketAddrV4,
    ) -> Result<(Self::Reader, Self::Writer), Refusal>
        ensures dials { dials self.old self.new addr result }
        ensures refused { IfErr result IsNoConnection };
}

/// How a client ended that was to connect.
pub struct ConnectingEnd<R, W> {
    /// As [`run_client`] answers; or why there was no connection.
    pub answer: Result<(), Refusal>,
    /// The reader and the writer of its connection, as they are then, if there was one.
    pub ends: Option<(Counted<R>, Counted<W>)>,
}

// Written out: docs/PROVING.md, "Drops".
impl<R: Drop, W: Drop> Drop for ConnectingEnd<R, W> {
    fn drop(self) {
        let ConnectingEnd { answer: _, ends: _ } = self;
    }
}

/// Connects to an address, once, and runs a client over this connection as [`run_client`] does. Where there is no connection the
/// answer is why.
pub fn run_at<D: Dials, O: Write>(
    dials: &mut D,
    alloc: Global,
    addr: SocketAddrV4,
    wish: &Subscription<'_>,
    output: &mut Counted<O>,
) -> ConnectingEnd<D::Reader, D::Writer>
    ensures { RunsBy (D.dials dials.old dials.new addr) D.Reader.remaining D.Writer.contents wish.now result (seen O.contents output.old output.new) }
{
    match dials.dial(alloc, addr) {
        Ok((reader, writer)) => run_over(alloc, wish, reader, writer, output),
        Err(refusal) => ConnectingEnd {
            answer: Err(refusal),
            ends: None,
        },
    }
}

// Runs a client over a connection.
fn run_over<R: Read + Drop, W: Write + Drop, O: Write>(
    alloc: Global,
    wish: &Subscription<'_>,
    reader: R,
    writer: W,
    output: &mut Counted<O>,
) -> ConnectingEnd<R, W>
    ensures { RunsOver reader writer R.remaining W.contents wish.now result (seen O.contents output.old output.new) }
{
    let mut reader = Counted::new(reader);
    let mut writer = Counted::new(writer);
    let answer = run_client(alloc, wish, &mut reader, &mut writer, output);
    ConnectingEnd {
        answer,
        ends: Some((reader, writer)),
    }
}

/// One of two sides of a connection over TCP, which ends with both.
pub struct Side {
    stream: Arc<TcpStream>,
}

// Written out: docs/PROVING.md, "Drops".
impl Drop for Side {
    fn drop(self) {
        let Side { stream: _ } = self;
    }
}

impl Side {
    /// Two sides of a connection. Refused is only `OutOfMemory`.
    pub fn two(alloc: Global, stream: TcpStream) -> Result<(Side, Side), Refusal>
        ensures { IfErr result (λ e. e ≡ OutOfMemory) }
    {
        let one = Arc::new(alloc, stream)?;
        let other = Arc::try_clone(&one)?;
        Ok((Side { stream: one }, Side { stream: other }))
    }

    /// The connection.
    pub fn stream(&self) -> &TcpStream {
        &*self.stream
    }
}

impl Read for Side {
    fn read(&mut self, buf: &mut [u8]) -> io::Result<usize> {
        let mut from = self.stream();
        from.read(buf)
    }
}

impl Write for Side {
    fn write(&mut self, buf: &[u8]) -> io::Result<usize> {
        let mut to = self.stream();
        to.write(buf)
    }

    fn flush(&mut self) -> io::Result<()> {
        let mut to = self.stream();
        to.flush()
    }
}

/// Connects over TCP.
pub struct Tcp<'a, N> {
    pub net: &'a N,
}

impl<'a, N: Net<Stream = TcpStream>> Dials for Tcp<'a, N> {
    ghost use Rattle.std.specs.Prelude.{⊤};

    type Reader = Side;

    type Writer = Side;

    // Nothing is claimed of what goes over a socket.
    ghost dials = { λ _ _ _ _. ⊤ };

    fn dial(&mut self, alloc: Global, addr: SocketAddrV4) -> Result<(Side, Side), Refusal> {
        match TcpStream::connect(self.net, addr) {
            Ok(stream) => Side::two(alloc, stream),
            Err(_) => Err(Refusal::Device),
        }
    }
}
