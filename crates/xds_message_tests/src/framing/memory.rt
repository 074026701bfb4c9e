// A decoder that finds no memory, and a frame. `bench/hand/fail_each.py` runs these tests with each
// allocation failing in turn: a piece that was refused was not fed, and a buffer to which a frame
// was not added is as it was.
use std::alloc::Global;
use std::test::Fail;
use xds_frames::{Decoder, FrameKind, push_frame, write_frame};
use xds_resource::Refusal;

// Whether a piece was refused at first.
fn is_fed_again(decoder: &mut Decoder, piece: &[u8]) -> Result<bool, Refusal> {
    match decoder.feed(piece) {
        Ok(()) => Ok(false),
        Err(Refusal::OutOfMemory) => {
            decoder.feed(piece)?;
            Ok(true)
        }
        Err(refusal) => Err(refusal),
    }
}

// Whether the next frame has this text.
fn gives(decoder: &mut Decoder, text: &[u8]) -> Result<bool, Refusal> {
    match decoder.next()? {
        Some(frame) => Ok(frame.kind == FrameKind::DiscoveryRequest && frame.text == text),
        None => Ok(false),
    }
}

fn is_found(alloc: Global, bytes: &[u8]) -> Result<bool, Fail> {
    let (front, rest) = bytes.split_at(bytes.len().min(3));
    let mut decoder = Decoder::new(alloc);
    let first = is_fed_again(&mut decoder, front)?;
    let second = is_fed_again(&mut decoder, rest)?;
    gives_both(&mut decoder)?;
    Ok(first || second)
}

// That a decoder gives two frames, and then no more.
fn gives_both(decoder: &mut Decoder) -> Result<(), Fail> {
    if !gives(decoder, b"{}")? || !gives(decoder, b"[]")? || gives(decoder, b"")? {
        return Err("other frames are given".into());
    }
    Ok(decoder.finish()?)
}

// rule: whole-frames
#[test]
fn feeding_without_memory(rt: HostRuntime) -> Result<(), Fail> {
    if is_found(rt.alloc(), b"\x00\x00\x00\x03\x01{}\x00\x00\x00\x03\x01[]")? {
        println!(rt; "refused, and went on: feed")?;
    }
    Ok(())
}

const BEFORE: &[u8; 7] = b"\x00\x00\x00\x03\x02{}";

const BEHIND: &[u8; 40] = b"\x00\x00\x00\x03\x02{}\x00\x00\x00\x1d\x05a longer text than the first";

// Whether a frame was not added at first; the buffer is as it was then.
fn is_added_again(alloc: Global) -> Result<bool, Fail> {
    let kind = FrameKind::Batch;
    let mut buffer = write_frame(alloc, FrameKind::DiscoveryResponse, b"{}")?;
    let refused = match push_frame(&mut buffer, kind, b"a longer text than the first") {
        Ok(()) => false,
        Err(Refusal::OutOfMemory) => {
            if buffer.as_slice() != BEFORE.as_slice() {
                return Err("the buffer has changed".into());
            }
            push_frame(&mut buffer, kind, b"a longer text than the first")?;
            true
        }
        Err(refusal) => return Err(refusal.into()),
    };
    if buffer.as_slice() != BEHIND.as_slice() {
        return Err("the frame isn't there".into());
    }
    Ok(refused)
}

#[test]
fn framing_without_memory(rt: HostRuntime) -> Result<(), Fail> {
    if is_added_again(rt.alloc())? {
        println!(rt; "refused, and went on: push_frame")?;
    }
    Ok(())
}
