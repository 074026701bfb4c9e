// Clients over connections of their own. The listener takes a connection once its client has ended.
use crate::ran::written_bytes;
use std::alloc::{AllocGlobal, Global};
use std::io::Read;
use std::net::{Ipv4Addr, Net, SocketAddr, SocketAddrV4, TcpListener, TcpStream};
use std::test::Fail;
use xds_cases::cases::words_of;
use xds_client::{StreamVariant, Subscription, Tcp, run_at};
use xds_frames::Counted;
use xds_resource::{Refusal, TypeName};

const SAID: &str =
    r#"3 {"node":{"cluster":"g","id":"xds"},"resourceNamesSubscribe":["a"],"typeUrl":"RDS"}"#;

// Fails unless a client that wants no response comes to this answer, and prints nothing.
fn comes_to<R>(rt: &R, addr: SocketAddrV4, wanted: Result<(), Refusal>) -> Result<(), Fail>
where
    R: Net<Stream = TcpStream> + AllocGlobal,
{
    let alloc = rt.alloc();
    let names = words_of(alloc, "a")?;
    let wish = Subscription {
        variant: StreamVariant::Delta,
        kind: TypeName::Route,
        cluster: "g",
        names: names.as_slice(),
        responses: 0,
    };
    let mut output = Counted::new(Vec::new(alloc));
    let mut tcp = Tcp { net: rt };
    let ended = run_at(&mut tcp, alloc, addr, &wish, &mut output);
    let Tcp { net: _ } = tcp;
    let answer = ended.answer;
    let printed = output.inner.len();
    if answer == wanted && printed == 0 {
        return Ok(());
    }
    Err(Fail::new(format_args!("{answer:?} and not {wanted:?}, {printed} bytes printed")))
}

// A listener at a free port of this machine, and its address.
fn bound<R>(rt: &R) -> Result<(TcpListener, SocketAddrV4), Fail>
where
    R: Net<Listener = TcpListener, Stream = TcpStream>,
{
    let listener = TcpListener::bind(rt, SocketAddrV4::new(Ipv4Addr::LOCALHOST, 0))?;
    match listener.local_addr()? {
        SocketAddr::V4(addr) => Ok((listener, addr)),
        SocketAddr::V6(_) => Err(Fail::new(format_args!("an address of another kind"))),
    }
}

// All that comes over the next connection.
fn heard(alloc: Global, listener: &TcpListener) -> Result<Vec<u8>, Fail> {
    let (mut stream, _) = listener.accept()?;
    let mut bytes = Vec::new(alloc);
    stream.read_to_end(&mut bytes)?;
    Ok(bytes)
}

#[test]
fn a_client_asks_over_a_connection(rt: HostRuntime) -> Result<(), Fail> {
    let (listener, addr) = bound(&rt)?;
    comes_to(&rt, addr, Ok(()))?;
    let said = heard(rt.alloc(), &listener)?;
    let wanted = written_bytes(rt.alloc(), SAID)?;
    assert_eq!(rt; said.as_slice(), wanted.as_slice());
    Ok(())
}

#[test]
fn nobody_is_asked(rt: HostRuntime) -> Result<(), Fail> {
    let (listener, addr) = bound(&rt)?;
    drop(listener);
    comes_to(&rt, addr, Err(Refusal::Device))
}
