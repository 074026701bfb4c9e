// Streams whose input is cut off, and whose reader or writer fails.
use crate::ran::{Ends, run, written_bytes};
use std::alloc::Global;
use std::test::Fail;
use xds_resource::Refusal;

// A request, 70 bytes as a frame, and the response, 102 bytes. The same request once more is
// answered by nothing.
const ASKED: &str = r#"0000004201 {"typeUrl":"CDS"}"#;

const ASKED_TWICE: &str = r#"0000004201 {"typeUrl":"CDS"}
0000004201 {"typeUrl":"CDS"}"#;

const ANSWERED: &str = r#"0000006202 {"nonce":"1","typeUrl":"CDS","versionInfo":"1.0"}"#;

// Runs a stream. Fails unless it is closed with this answer, and this was written.
fn comes_to(
    alloc: Global,
    ends: &mut Ends<'_>,
    answer: Result<(), Refusal>,
    written: &[u8],
) -> Result<(), Fail> {
    let ran = run(alloc, ends)?;
    if ran.closed && ran.answer == answer && ends.written() == written {
        return Ok(());
    }
    let (found, closed, put) = (ran.answer, ran.closed, ends.written());
    Err(Fail::new(format_args!("{found:?} and not {answer:?}, closed: {closed}, written: {put:?}")))
}

// A beginning of the two requests, in pieces of this size, is answered well where it ends between
// frames, and the first request once it is there whole.
fn ends_so(alloc: Global, input: &[u8], size: usize, response: &[u8]) -> Result<(), Fail> {
    let answer = if input.len() % 70 == 0 {
        Ok(())
    } else {
        Err(Refusal::Truncated)
    };
    let written = if input.len() < 70 { b"" } else { response };
    let mut ends = Ends::new(input, size, Vec::new(alloc));
    comes_to(alloc, &mut ends, answer, written)
}

#[test]
fn input_is_served_wherever_it_ends(rt: HostRuntime) -> Result<(), Fail> {
    let alloc = rt.alloc();
    let input = written_bytes(alloc, ASKED_TWICE)?;
    let response = written_bytes(alloc, ANSWERED)?;
    for end in 0..141 {
        let front = input.get(..end).ok_or("the requests are too short")?;
        ends_so(alloc, front, usize::MAX, response.as_slice())?;
        ends_so(alloc, front, 1, response.as_slice())?;
    }
    Ok(())
}

const NEVER: (usize, u64) = (usize::MAX, u64::MAX);

// A read that fails is told, one byte a read, and what came before it was answered.
fn fails_at_a_read(alloc: Global, input: &[u8], failing: u64, response: &[u8]) -> Result<(), Fail> {
    let written = if failing <= 70 { b"" } else { response };
    let mut ends = Ends::failing(input, (1, failing), NEVER, Vec::new(alloc));
    comes_to(alloc, &mut ends, Err(Refusal::Device), written)
}

#[test]
fn each_read_may_fail(rt: HostRuntime) -> Result<(), Fail> {
    let alloc = rt.alloc();
    let input = written_bytes(alloc, ASKED_TWICE)?;
    let response = written_bytes(alloc, ANSWERED)?;
    for failing in 1..142 {
        fails_at_a_read(alloc, input.as_slice(), failing, response.as_slice())?;
    }
    Ok(())
}

// A writer that takes one byte a call is given this many of them before a call fails.
fn fails_at_a_write(
    alloc: Global,
    input: &[u8],
    taken: usize,
    response: &[u8],
) -> Result<(), Fail> {
    let written = response.get(..taken).ok_or("the response is too short")?;
    let mut ends = Ends::failing(input, NEVER, (1, taken as u64 + 1), Vec::new(alloc));
    comes_to(alloc, &mut ends, Err(Refusal::Device), written)
}

// One byte a read and a write, and no call fails.
fn never_fails(alloc: Global, input: &[u8], response: &[u8]) -> Result<(), Fail> {
    let one = (1, u64::MAX);
    let mut ends = Ends::failing(input, one, one, Vec::new(alloc));
    comes_to(alloc, &mut ends, Ok(()), response)
}

#[test]
fn each_write_may_fail(rt: HostRuntime) -> Result<(), Fail> {
    let alloc = rt.alloc();
    let input = written_bytes(alloc, ASKED)?;
    let response = written_bytes(alloc, ANSWERED)?;
    assert_eq!(rt; (input.len(), response.len()), (70, 102));
    for taken in 0..102 {
        fails_at_a_write(alloc, input.as_slice(), taken, response.as_slice())?;
    }
    never_fails(alloc, input.as_slice(), response.as_slice())
}
