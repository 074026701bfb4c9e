// Frames in bytes that come in pieces.
ghost use Rattle.std.specs.Prelude.{◌≡◌, ◌<◌, ◌^◌, List, ℕ, [], IfSome, IfNone, IfErr, OnOk, length};
ghost use Rattle.std.specs.Borrow.{sem};
ghost use Rattle.xds_resource.specs.declared.refusal.Refusal.TheVariants.{OutOfMemory};
ghost use Rattle.xds_frames.specs.Decoding.{IsFed, IsSound, GivesNext, Finishes};
ghost use Rattle.xds_frames.specs.Frames.{after_length};
ghost use Rattle.xds_frames.specs.Lending.{Leaves};

use crate::frame::{Frame, FrameKind, LONGEST};
use std::alloc::Global;
use std::marker::Model;
use xds_resource::Refusal;

/// Finds the frames in bytes that come in pieces, however they are cut. Contracts see it as the bytes that it was fed
/// and hasn't given yet.
///
/// Once it has met bytes that are no frame it answers the same fault for good, and takes no more.
pub struct Decoder {
    bytes: Vec<u8>,
    // how many of the bytes were given
    given: usize,
}

// Written out: docs/PROVING.md, "Drops".
impl Drop for Decoder {
    fn drop(self) {
        let Decoder { bytes: _, given: _ } = self;
    }
}

impl Model for Decoder {
    ghost use Rattle.std.specs.Prelude.{ℕ, ◌≤◌, List, drop, vec_len};

    ghost Value = { List ℕ };

    ghost view = { λ d. drop d.given d.bytes.items };

    ghost invariant = { λ d. d.given ≤ vec_len d.bytes };
}

// rule: whole-frames
// The length that stands first, and what follows it.
fn split_length(bytes: &[u8]) -> Option<(usize, &[u8])>
    ensures some { IfSome result (λ p. (p.0 < 2 ^ 32) × (bytes.now ≡ after_length p.0 p.1.now)) }
    ensures none { IfNone result (length bytes.now < 4) }
{
    let (length, body) = bytes.split_first_chunk::<4>()?;
    Some((u32::from_be_bytes(*length) as usize, body))
}

// rule: whole-frames
/// The frame at the front of the bytes, if all of it is there. `EmptyFrame` and `FrameTooLong` are told as soon as the four
/// bytes of a length are there, and `UnknownKind` as soon as the kind is.
pub fn first_frame(bytes: &[u8]) -> Result<Option<Frame<'_>>, Refusal>
    ensures { (after : List ℕ) × GivesNext bytes.now result after }
{
    let Some((length, body)) = split_length(bytes) else {
        return Ok(None);
    };
    if length == 0 {
        return Err(Refusal::EmptyFrame);
    }
    if length > LONGEST {
        return Err(Refusal::FrameTooLong);
    }
    let Some((&number, text)) = body.split_first() else {
        return Ok(None);
    };
    let Some(kind) = FrameKind::from_number(number) else {
        return Err(Refusal::UnknownKind);
    };
    if text.len() < length - 1 {
        return Ok(None);
    }
    Ok(Some(Frame {
        kind,
        text: &text[..length - 1],
    }))
}

impl Decoder {
    pub fn new(alloc: Global) -> Decoder
        ensures { result ≡ [] }
    {
        Decoder {
            bytes: Vec::new(alloc),
            given: 0,
        }
    }

    // rule: whole-frames
    /// Takes the next piece, or passes over it behind a fault. It takes memory for what has come, whatever length a
    /// frame announces.
    pub fn feed(&mut self, piece: &[u8]) -> Result<(), Refusal>
        ensures fed { OnOk result (IsFed self.old piece.now self.new) }
        ensures refused { IfErr result (λ e. (e ≡ OutOfMemory) × IsSound self.old × (self.new ≡ self.old)) }
    {
        if first_frame(&self.bytes[self.given..]).is_err() {
            return Ok(());
        }
        self.make_room();
        self.bytes.extend_from_slice(piece)?;
        Ok(())
    }

    // rule: whole-frames
    // Moves what is left to the front once no less than that was given. So for a byte that was given one is moved at most.
    fn make_room(&mut self)
        ensures { self.new ≡ self.old }
    {
        let left = self.bytes.len() - self.given;
        if left <= self.given {
            self.bytes.copy_within(self.given.., 0);
            self.bytes.truncate(left);
            self.given = 0;
        }
    }

    // rule: whole-frames
    /// The next whole frame, as [`first_frame`] finds it, or none while less than one is there. It takes no memory: the
    /// text is lent from where it was put when it came. A fault is told again at each call.
    pub fn next(&mut self) -> Result<Option<Frame<'_>>, Refusal>
        ensures first { (after : List ℕ) × GivesNext self.old result after }
        ensures* after_borrow { sem 𝓛 (Leaves self.entry (GivesNext self.old result)) }
    {
        match first_frame(&self.bytes[self.given..])? {
            None => Ok(None),
            Some(frame) => {
                self.given += 5 + frame.text.len();
                Ok(Some(frame))
            }
        }
    }

    // rule: whole-frames
    /// How the bytes end where no more come, once `next` has given none: `Truncated` where some are left, or the fault
    /// that they begin with.
    pub fn finish(&self) -> Result<(), Refusal>
        ensures { Finishes self.now result }
    {
        let left = &self.bytes[self.given..];
        let _ = first_frame(left)?;
        if left.is_empty() {
            Ok(())
        } else {
            Err(Refusal::Truncated)
        }
    }
}
