// Frames that are written, and found again in bytes that come in pieces.
ghost use Rattle.std.specs.Prelude.{◌<◌};

use std::alloc::Global;
use std::test::Fail;
use xds_cases::cases::{Outcome, first_word, hold, told};
use xds_cases::scripts::{Script, follow};
use xds_frames::{Decoder, Frame, FrameKind, frame_head, push_frame, write_frame};
use xds_resource::Refusal;

// A decoder: `feed` feeds it bytes at once, and `drip` one after another, each time with all frames
// that it then gives, a number and a text in hex digits; `finish` ends it.
#[derive(Drop)]
pub(crate) struct Decoding {
    decoder: Decoder,
}

impl Script for Decoding {
    fn begin(alloc: Global) -> Decoding {
        Decoding {
            decoder: Decoder::new(alloc),
        }
    }

    fn step(&mut self, alloc: Global, verb: &str, rest: &str) -> Result<String, Refusal> {
        match verb {
            "feed" => feed(&mut self.decoder, alloc, rest, usize::MAX),
            "drip" => feed(&mut self.decoder, alloc, rest, 1),
            _ => finish(&self.decoder, alloc),
        }
    }
}

fn finish(decoder: &Decoder, alloc: Global) -> Result<String, Refusal> {
    decoder.finish()?;
    Ok(String::from_str(alloc, "ok")?)
}

// Feeds a decoder bytes in hex digits, in pieces of this size, and tells what it gives.
fn feed(decoder: &mut Decoder, alloc: Global, digits: &str, size: usize) -> Result<String, Refusal>
    requires { 0 < size }
{
    let bytes = hex::decode(alloc, digits).ok().ok_or(Refusal::BadScript)?;
    let mut all = String::new(alloc);
    for piece in bytes.chunks(size) {
        feed_piece(decoder, alloc, piece, &mut all)?;
    }
    Ok(all)
}

fn feed_piece(
    decoder: &mut Decoder,
    alloc: Global,
    piece: &[u8],
    all: &mut String,
) -> Result<(), Refusal> {
    decoder.feed(piece)?;
    give_all(decoder, alloc, all)
}

// Adds what a decoder gives until it gives none.
fn give_all(decoder: &mut Decoder, alloc: Global, all: &mut String) -> Result<(), Refusal> {
    for _ in 0..u64::MAX {
        let Some(frame) = decoder.next()? else {
            return Ok(());
        };
        push_frame_told(alloc, all, frame)?;
    }
    Ok(())
}

// Adds a frame's number and its text in hex digits.
fn push_frame_told(alloc: Global, all: &mut String, frame: Frame<'_>) -> Result<(), Refusal> {
    let number = frame.kind.number();
    let text = hex::encode(alloc, frame.text)?;
    Ok(all.push_str(format!(in alloc; "({number},{text})")?.as_str())?)
}

// rule: whole-frames
#[test]
fn frames_are_found_however_they_are_cut(rt: HostRuntime) -> Result<(), Fail> {
    follow::<Decoding, HostRuntime>(
        &rt,
        "feed  => 
finish => ok

feed 00000000 => 15 EmptyFrame
finish => 15 EmptyFrame

drip 00000000 => 15 EmptyFrame
finish => 15 EmptyFrame

feed 01000000 => 
finish => 18 Truncated

drip 01000000 => 
feed 017b7d => 
finish => 18 Truncated

feed 01000001 => 16 FrameTooLong
finish => 16 FrameTooLong

drip ffffffff => 16 FrameTooLong
finish => 16 FrameTooLong

feed 000000 => 
finish => 18 Truncated

feed ff => 
finish => 18 Truncated

drip 000000 => 
feed 03 => 
drip 017b => 
finish => 18 Truncated
feed 7d => (1,7b7d)
finish => ok

feed 0000000309 => 17 UnknownKind

drip 0000000309 => 17 UnknownKind
finish => 17 UnknownKind

drip 0000000300 => 17 UnknownKind
finish => 17 UnknownKind

feed 0000000101 => (1,)
drip 0000000105 => (5,)
finish => ok

feed 00000003017b7d00000003037b7d => (1,7b7d)(3,7b7d)
finish => ok

drip 00000003017b7d00000003037b7d => (1,7b7d)(3,7b7d)
finish => ok

feed 00000003017b7d000000 => (1,7b7d)
feed 03047b7d00 => (4,7b7d)
finish => 18 Truncated
drip 000005020001 => 
feed 02 => 
finish => 18 Truncated
feed 03 => (2,00010203)
finish => ok

feed 0000000000000003017b7d => 15 EmptyFrame
feed 00000003017b7d => 15 EmptyFrame
finish => 15 EmptyFrame

feed 0000000301 => 
feed 7b7d0100000100000003 => 16 FrameTooLong
feed 00000003017b7d => 16 FrameTooLong
finish => 16 FrameTooLong",
    )
}

// The frame of a kind's number and a text in hex digits, in hex digits: written anew, and behind
// another one.
struct Written;

impl Outcome for Written {
    fn of(alloc: Global, given: &str) -> Result<String, Fail> {
        let (number, text) = first_word(given)?;
        let kind = kind_of(number)?;
        let text = hex::decode(alloc, text).ok().ok_or("a text is none")?;
        let bytes = write_frame(alloc, kind, text.as_slice())?;
        let mut buffer = write_frame(alloc, FrameKind::Batch, b"")?;
        push_frame(&mut buffer, kind, text.as_slice())?;
        let bytes = hex::encode(alloc, bytes.as_slice())?;
        let buffer = hex::encode(alloc, buffer.as_slice())?;
        let (bytes, buffer) = (bytes.as_str(), buffer.as_str());
        Ok(format!(in alloc; "{bytes} {buffer}")?)
    }
}

// What stands before a text of a kind's number and a length.
struct Head;

impl Outcome for Head {
    fn of(alloc: Global, given: &str) -> Result<String, Fail> {
        let (number, length) = first_word(given)?;
        let kind = kind_of(number)?;
        Ok(told(alloc, head_of(alloc, kind, length))?)
    }
}

fn head_of(alloc: Global, kind: FrameKind, length: &str) -> Result<String, Refusal> {
    let length = length.parse::<usize>().ok().ok_or(Refusal::BadScript)?;
    let head = frame_head(kind, length)?;
    Ok(hex::encode(alloc, head.as_slice())?)
}

fn kind_of(number: &str) -> Result<FrameKind, Fail> {
    let number = number.parse::<u8>().ok().ok_or("a number is none")?;
    Ok(FrameKind::from_number(number).ok_or("there is no such kind")?)
}

#[test]
fn frames_are_written(rt: HostRuntime) -> Result<(), Fail> {
    hold::<Written, HostRuntime>(
        &rt,
        "1 7b7d => 00000003017b7d 000000010500000003017b7d
4  => 0000000104 00000001050000000104
5 <7b*300> => 0000012d05<7b*300> 00000001050000012d05<7b*300>",
    )?;
    hold::<Head, HostRuntime>(
        &rt,
        "2 97 => 0000006202
1 65 => 0000004201
3 0 => 0000000103
5 16777215 => 0100000005
5 16777216 => 16 FrameTooLong
1 18446744073709551615 => 16 FrameTooLong",
    )
}
