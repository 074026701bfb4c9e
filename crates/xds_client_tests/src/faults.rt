// Clients whose input is cut off or has more than they want, and whose devices fail.
use crate::ran::{Device, Ends, WELL, run, written_bytes};
use std::alloc::Global;
use std::test::Fail;
use xds_cases::cases::words_of;
use xds_client::{StreamVariant, Subscription};
use xds_resource::{Refusal, TypeName};

// What a client says at first, the response to that, all that it says then, and what it prints.
const SAID: &str = r#"1 {"node":{"cluster":"g","id":"xds"},"resourceNames":["*"],"typeUrl":"CDS"}"#;

const RESPONSE: &str = r#"2 {"nonce":"1","typeUrl":"CDS","versionInfo":"1.0"}"#;

const ALL: &str = r#"1 {"node":{"cluster":"g","id":"xds"},"resourceNames":["*"],"typeUrl":"CDS"}
1 {"resourceNames":["*"],"responseNonce":"1","typeUrl":"CDS","versionInfo":"1.0"}"#;

const LINE: &[u8] = b"taken 1\n";

// Runs a client that wants one response. Fails unless it comes to this answer, says this and prints
// these lines.
fn comes_to(
    alloc: Global,
    ends: &mut Ends<'_>,
    answer: Result<(), Refusal>,
    said: &[u8],
    lines: &[u8],
) -> Result<(), Fail> {
    let names = words_of(alloc, "*")?;
    let wish = Subscription {
        variant: StreamVariant::Sotw,
        kind: TypeName::Cluster,
        cluster: "g",
        names: names.as_slice(),
        responses: 1,
    };
    let found = run(alloc, &wish, ends);
    if found == answer && ends.said() == said && ends.printed() == lines {
        return Ok(());
    }
    let (said, printed) = (ends.said(), ends.printed());
    Err(Fail::new(format_args!(
        "{found:?} and not {answer:?}, {said:?} said and {printed:?} printed"
    )))
}

// Where the reader fails or the input ends, what was said at first is all, and nothing is printed.
fn reads_in_vain(
    alloc: Global,
    input: &[u8],
    reader: Device,
    refusal: Refusal,
    said: &[u8],
) -> Result<(), Fail> {
    let mut ends = Ends::new(alloc, input, reader, WELL, WELL);
    comes_to(alloc, &mut ends, Err(refusal), said, b"")
}

#[test]
fn input_may_end_anywhere(rt: HostRuntime) -> Result<(), Fail> {
    let alloc = rt.alloc();
    let said = written_bytes(alloc, SAID)?;
    let response = written_bytes(alloc, RESPONSE)?;
    assert_eq!(rt; response.len(), 102);
    let seven = Device {
        size: 7,
        failing: 0,
    };
    for end in 0..102 {
        let front = response.get(..end).ok_or("the response is too short")?;
        reads_in_vain(alloc, front, seven, Refusal::Truncated, said.as_slice())?;
    }
    Ok(())
}

#[test]
fn each_read_may_fail(rt: HostRuntime) -> Result<(), Fail> {
    let alloc = rt.alloc();
    let said = written_bytes(alloc, SAID)?;
    let response = written_bytes(alloc, RESPONSE)?;
    for failing in 1..103 {
        let reader = Device { size: 1, failing };
        reads_in_vain(
            alloc,
            response.as_slice(),
            reader,
            Refusal::Device,
            said.as_slice(),
        )?;
    }
    Ok(())
}

// The reader would fail once more than the response is asked of it.
#[test]
fn nothing_is_read_behind_the_last_response(rt: HostRuntime) -> Result<(), Fail> {
    let alloc = rt.alloc();
    let all = written_bytes(alloc, ALL)?;
    let response = written_bytes(alloc, RESPONSE)?;
    let reader = Device {
        size: 1,
        failing: 103,
    };
    let mut ends = Ends::new(alloc, response.as_slice(), reader, WELL, WELL);
    let done = comes_to(alloc, &mut ends, Ok(()), all.as_slice(), LINE);
    let reads = ends.reads();
    drop(ends);
    assert_eq!(rt; reads, 102);
    done
}

// Of a server or an output that takes one byte a call, a call fails. What was taken before is all.
fn writes_in_vain(
    alloc: Global,
    server: Device,
    output: Device,
    said: Option<&[u8]>,
    lines: Option<&[u8]>,
) -> Result<(), Fail> {
    let response = written_bytes(alloc, RESPONSE)?;
    let said = said.ok_or("too little is said")?;
    let lines = lines.ok_or("the line is too short")?;
    let mut ends = Ends::new(alloc, response.as_slice(), WELL, server, output);
    comes_to(alloc, &mut ends, Err(Refusal::Device), said, lines)
}

#[test]
fn each_write_to_the_server_may_fail(rt: HostRuntime) -> Result<(), Fail> {
    let alloc = rt.alloc();
    let said = written_bytes(alloc, SAID)?.len();
    let all = written_bytes(alloc, ALL)?;
    for call in 0..all.len() + 2 {
        // a flush behind the first requests, and one at the end
        let taken = if call <= said { call } else { call - 1 };
        let lines = if call <= said { b"" } else { LINE };
        let server = Device {
            size: 1,
            failing: call as u64 + 1,
        };
        writes_in_vain(alloc, server, WELL, all.get(..taken), Some(lines))?;
    }
    Ok(())
}

#[test]
fn each_write_of_lines_may_fail(rt: HostRuntime) -> Result<(), Fail> {
    let alloc = rt.alloc();
    let said = written_bytes(alloc, SAID)?;
    // the last call is a flush
    for taken in 0..9 {
        let output = Device {
            size: 1,
            failing: taken as u64 + 1,
        };
        writes_in_vain(
            alloc,
            WELL,
            output,
            Some(said.as_slice()),
            LINE.get(..taken),
        )?;
    }
    Ok(())
}
