// Inputs of a server that are interrupted, or fail.
use std::fs::File;
use std::io::{ErrorKind, Read};
use std::net::{Net, TcpListener, TcpStream};
use std::rt::Files;
use std::test::Fail;
use std::{io, str};
use xds_frames::{Counted, Faulty};
use xds_machine::Runtime;
use xds_server::{ServeFiles, Serving, serve};

// A server of one replica, of which streams stand at this port, and REST ten ports on.
fn serving(port: u16) -> Serving {
    Serving {
        replicas: 1,
        port,
        rest_port: port.saturating_add(10),
        streams: None,
        workers: None,
        keep_going: false,
        tells: false,
        logs: false,
        logs_json: false,
        first_number: Some(1),
        max_streams: None,
        idle_seconds: None,
        admin_port: None,
        hold: false,
        lint: false,
        refuse_long: false,
    }
}

// That a server of this input ends by a refusal, and tells this.
fn ends_by<
    I: Read + Drop + Send + 'static,
    R: Runtime + Net<Listener = TcpListener, Stream = TcpStream> + Files<File = File, Dir: Send>,
>(rt: &R, input: I, serving: Serving, wanted: &str) -> Result<(), Fail> {
    let mut errors = Counted::new(Vec::new(rt.alloc()));
    let teller: Option<Vec<u8>> = None;
    let files = ServeFiles {
        record: None,
        load: None,
        store: None,
        writes: None,
        from: None,
        token: None,
        checker: None,
    };
    let status = serve(rt, input, &mut errors, teller, serving, files);
    let told = str::from_utf8(errors.inner.as_slice()).unwrap_or("no text");
    if status == 1 && told == wanted {
        return Ok(());
    }
    Err(Fail::new(format_args!("{status}, {told}")))
}

// An input of which each read that brings a byte comes behind one that is interrupted.
#[derive(Drop)]
struct Dripping {
    bytes: &'static [u8],
    interrupted: bool,
}

impl Read for Dripping {
    fn read(&mut self, buf: &mut [u8]) -> io::Result<usize> {
        self.interrupted = !self.interrupted;
        if self.interrupted {
            return Err(ErrorKind::Interrupted.into());
        }
        let count = self.bytes.len().min(buf.len()).min(1);
        let (piece, rest) = self.bytes.split_at(count);
        buf[..count].copy_from_slice(piece);
        self.bytes = rest;
        Ok(count)
    }
}

#[test]
fn lines_that_come_in_pieces_are_counted(rt: HostRuntime) -> Result<(), Fail> {
    let input = Dripping {
        bytes: b"# a comment\n\n\
         put 1 {\"@type\":\"type.googleapis.com/envoy.config.cluster.v3.Cluster\",\"name\":\"a\"}\n\
         settle 1 cluster",
        interrupted: false,
    };
    ends_by(
        &rt,
        input,
        serving(18_500),
        "replica 1: streams on 127.0.0.1:18500, REST on 127.0.0.1:18510\nline 4: 21 BadScript\n",
    )
}

#[test]
fn an_input_that_fails_ends_it(rt: HostRuntime) -> Result<(), Fail> {
    let input = Faulty::new(b"put" as &[u8], 2);
    ends_by(
        &rt,
        input,
        serving(18_520),
        "replica 1: streams on 127.0.0.1:18520, REST on 127.0.0.1:18530\n19 Device\n",
    )
}
