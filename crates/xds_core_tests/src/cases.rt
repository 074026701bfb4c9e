// Streams from bytes to bytes.
use crate::ran::{Ends, Ran, bytes_of, run};
use std::alloc::Global;
use std::str;
use std::test::Fail;
use xds_cases::cases::{Outcome, hold_stories, told};
use xds_frames::{Decoder, Frame, frame_head};
use xds_resource::Refusal;

// Sizes of the pieces that the input comes in.
const SIZES: [usize; 8] = [1, 2, 3, 5, 69, 70, 71, 4097];

// The answer, and then the frames that are written, a frame a line, whatever pieces the input comes
// in.
struct Stream;

impl Outcome for Stream {
    fn of(alloc: Global, given: &str) -> Result<String, Fail> {
        let input = bytes_of(alloc, given)?;
        let whole = served(alloc, input.as_slice(), usize::MAX)?;
        for size in SIZES {
            is_served_so(alloc, input.as_slice(), size, whole.as_str())?;
        }
        Ok(whole)
    }
}

// Fails unless input in pieces of this size comes to the same.
fn is_served_so(alloc: Global, input: &[u8], size: usize, whole: &str) -> Result<(), Fail> {
    let cut = served(alloc, input, size)?;
    if cut.as_str() == whole {
        return Ok(());
    }
    Err(Fail::new(format_args!("{cut} and not {whole}, in pieces of {size}")))
}

// What a stream comes to whose input comes in pieces of this size: the answer, and each frame as it
// is told in the cases.
fn served(alloc: Global, input: &[u8], size: usize) -> Result<String, Fail> {
    let mut ends = Ends::new(input, size, Vec::new(alloc));
    let ran = run(alloc, &mut ends);
    told_of(alloc, ran, ends.written())
}

fn told_of(alloc: Global, ran: Result<Ran, Refusal>, written: &[u8]) -> Result<String, Fail> {
    let ran = ran?;
    if !ran.closed {
        return Err(Fail::new(format_args!("the stream is open")));
    }
    let mut text = told(alloc, ok_or(alloc, ran.answer))?;
    push_frames(alloc, written, &mut text)?;
    Ok(text)
}

// `ok`, or the refusal.
fn ok_or(alloc: Global, answer: Result<(), Refusal>) -> Result<String, Refusal> {
    answer?;
    Ok(String::from_str(alloc, "ok")?)
}

fn push_frames(alloc: Global, bytes: &[u8], text: &mut String) -> Result<(), Refusal> {
    let mut decoder = Decoder::new(alloc);
    decoder.feed(bytes)?;
    push_each(alloc, &mut decoder, text)
}

fn push_each(alloc: Global, decoder: &mut Decoder, text: &mut String) -> Result<(), Refusal> {
    for _ in 0..u64::MAX {
        match decoder.next()? {
            Some(frame) => push_frame(alloc, frame, text)?,
            None => return decoder.finish(),
        }
    }
    Ok(())
}

fn push_frame(alloc: Global, frame: Frame<'_>, text: &mut String) -> Result<(), Refusal> {
    let head = frame_head(frame.kind, frame.text.len())?;
    let head = hex::encode(alloc, head.as_slice())?;
    let body = str::from_utf8(frame.text).ok().ok_or(Refusal::NotJson)?;
    let head = head.as_str();
    text.push_str(format!(in alloc; "\n{head} {body}")?.as_str())?;
    Ok(())
}

#[test]
fn streams_are_served(rt: HostRuntime) -> Result<(), Fail> {
    hold_stories::<Stream, HostRuntime>(
        &rt,
        r#"0000004201 {"typeUrl":"CDS"}
0000005601 {"responseNonce":"1","typeUrl":"CDS"}
0000006c01 {"resourceNames":["z"],"responseNonce":"1","typeUrl":"CDS"}
 => ok
0000006202 {"nonce":"1","typeUrl":"CDS","versionInfo":"1.0"}
0000006802 {"nonce":"2","typeUrl":"CDS","versionInfo":"1.0.named"}

0000004201 {"typeUrl":"CDS"
 => 18 Truncated

0000006503 {"resourceNamesSubscribe":["m","n"],"typeUrl":"CDS"}
0000007703 {"resourceNamesUnsubscribe":["m"],"responseNonce":"1","typeUrl":"CDS"}
0000006103 {"resourceNamesSubscribe":["m"],"typeUrl":"CDS"}
 => ok
0000008504 {"nonce":"1","removedResources":["m","n"],"systemVersionInfo":"1.0","typeUrl":"CDS"}
0000008104 {"nonce":"2","removedResources":["m"],"systemVersionInfo":"1.0","typeUrl":"CDS"}

0000004201 {"typeUrl":"CDS"}
0000000302 {}
 => 13 WrongVariant
0000006202 {"nonce":"1","typeUrl":"CDS","versionInfo":"1.0"}

0000006103 {"resourceNamesSubscribe":["m"],"typeUrl":"CDS"}
 => ok
0000008104 {"nonce":"1","removedResources":["m"],"systemVersionInfo":"1.0","typeUrl":"CDS"}

0000004201 {"typeUrl":"CDS"}
00000000
 => 15 EmptyFrame
0000006202 {"nonce":"1","typeUrl":"CDS","versionInfo":"1.0"}

0000000101
 => 1 NotJson

0100000001 {}
 => 18 Truncated

0000000305 {}
 => 13 WrongVariant

0000004202 {"typeUrl":"CDS"}
 => 13 WrongVariant

0000004201 {"typeUrl":"CDS"}
01000001
 => 16 FrameTooLong
0000006202 {"nonce":"1","typeUrl":"CDS","versionInfo":"1.0"}

0000000401 nul
 => 1 NotJson

0000000301 []
 => 7 BadMessage

0000000301 {}
 => 7 BadMessage

 => ok

0000004201 {"typeUrl":"CDS"}
 => ok
0000006202 {"nonce":"1","typeUrl":"CDS","versionInfo":"1.0"}

0000006101 {"resourceNames":["q"],"typeUrl":"RDS"}
 => ok

0000004201 {"typeUrl":"CDS"}
0000004201 {"typeUrl":"CDS"}
 => ok
0000006202 {"nonce":"1","typeUrl":"CDS","versionInfo":"1.0"}

0000004201 {"typeUrl":"CDS"}
0000004401 {"typeUrl":"LDS"}
 => ok
0000006202 {"nonce":"1","typeUrl":"CDS","versionInfo":"1.0"}
0000006402 {"nonce":"2","typeUrl":"LDS","versionInfo":"1.0"}

0000001001 {"typeUrl":"x"}
0000004201 {"typeUrl":"CDS"}
 => ok
0000006202 {"nonce":"1","typeUrl":"CDS","versionInfo":"1.0"}

0000000309
 => 17 UnknownKind"#,
    )
}
