// Bodies as long as may be, and longer.
use crate::server::{begun, started, tells};
use std::alloc::Global;
use std::io::Write;
use std::net::{SocketAddr, TcpStream};
use std::test::Fail;

// A sixty-fourth of a body that is as long as may be. It is no JSON.
fn block(alloc: Global) -> Result<Vec<u8>, Fail> {
    let mut block = Vec::new(alloc);
    block.resize(65_536, b'x')?;
    Ok(block)
}

// Writes as many bytes as a body may have.
fn write_body(alloc: Global, socket: &mut TcpStream) -> Result<(), Fail> {
    let block = block(alloc)?;
    for _ in 0..64 {
        socket.write_all(block.as_slice())?;
    }
    Ok(())
}

// Sends this head, as many bytes as a body may have, and this, and compares what is told with what
// is wanted.
fn sent(
    rt: &HostRuntime,
    server: SocketAddr,
    head: &str,
    behind: &str,
    wanted: &str,
) -> Result<(), Fail> {
    let mut socket = begun(rt, server, head.as_bytes())?;
    write_body(rt.alloc(), &mut socket)?;
    socket.write_all(behind.as_bytes())?;
    tells(rt.alloc(), socket, wanted, behind)
}

const AS_LONG: &str = "POST /v3/discovery:clusters HTTP/1.1\r\nhost: h\r\nconnection: close\r\n\
     content-length: 4194304\r\n\r\n";

const LONGER: &str = "POST /v3/discovery:clusters HTTP/1.1\r\nhost: h\r\nconnection: close\r\n\
     content-length: 4194305\r\n\r\n";

// The first chunk has as many bytes as a body may have.
const CHUNKS: &str = "POST /v3/discovery:clusters HTTP/1.1\r\nhost: h\r\nconnection: close\r\n\
     transfer-encoding: chunked\r\n\r\n400000\r\n";

const NOT_JSON: &str = "400 {\"code\":1,\"name\":\"NotJson\"}";

#[test]
fn a_length_may_be_as_many_bytes(rt: HostRuntime) -> Result<(), Fail> {
    let server = started(&rt)?;
    sent(&rt, server, AS_LONG, "", NOT_JSON)?;
    sent(&rt, server, LONGER, "x", "413")
}

#[test]
fn chunks_may_have_as_many_bytes(rt: HostRuntime) -> Result<(), Fail> {
    let server = started(&rt)?;
    sent(&rt, server, CHUNKS, "\r\n0\r\n\r\n", NOT_JSON)?;
    sent(&rt, server, CHUNKS, "\r\n1\r\nx\r\n0\r\n\r\n", "413")
}
