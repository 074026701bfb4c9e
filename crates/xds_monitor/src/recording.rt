// A replica's trace, as it is recorded segment by segment.
ghost use Rattle.std.specs.Prelude.{◌≡◌, ◌≢◌, ◌⊎◌, length, None, Some, Err, IsSome, IsOk, IfErr, OnOk};
ghost use Rattle.xds_resource.specs.declared.refusal.Refusal.TheVariants.{Device, Gap};
ghost use Rattle.xds_frames.specs.Devices.{seen};
ghost use Rattle.xds_trace.specs.Texts.{records_text, WritesText};
ghost use Rattle.xds_monitor.specs.Recordings.{next_after, ended_by};

use crate::reel::Seals;
use std::alloc::Global;
use std::io::Write;
use xds_frames::Counted;
use xds_node::{NodeName, Segment};
use xds_resource::Refusal;
use xds_trace::write_segment;

/// Records that a replica handed out.
pub trait Piece {
    ghost use Rattle.std.specs.Prelude.{◌≡◌, ℕ, List, length};
    ghost use Rattle.xds_core.specs.Legal.{Record};
    ghost use Rattle.xds_frames.specs.Devices.{seen};
    ghost use Rattle.xds_trace.specs.Texts.{records_text, WritesText};

    // The records.
    ghost records: { Self → List Record };

    // The number of the first.
    ghost number: { Self → ℕ };

    /// The number of the first record. A replica's first record has the number 1.
    fn first(&self) -> u64
        ensures { result ≡ number self.now };

    /// How many records there are.
    fn count(&self) -> u64
        ensures { result ≡ length (records self.now) };

    /// Writes the records as lines of a trace, and flushes. `Device` where a call of the writer failed, else refused only by
    /// `OutOfMemory`; either way a beginning was written.
    fn write<W: Write>(&self, alloc: Global, writer: &mut Counted<W>) -> Result<(), Refusal>
        ensures { WritesText (seen W.contents writer.old writer.new) (records_text (records self.now)) result };
}

impl<N: NodeName> Piece for Segment<N> {
    ghost records = { λ s. s.records };

    ghost number = { λ s. s.first };

    fn first(&self) -> u64 {
        Segment::first(self)
    }

    fn count(&self) -> u64 {
        self.records().len() as u64
    }

    fn write<W: Write>(&self, alloc: Global, writer: &mut Counted<W>) -> Result<(), Refusal> {
        write_segment(alloc, self, writer)
    }
}

/// A trace that is recorded, and how far it is.
pub struct Recording<W> {
    writer: Counted<W>,
    // The number of the record that comes next.
    next: u64,
    // How it ended, if it did: whole, or by a refusal.
    end: Option<Result<(), Refusal>>,
}

// Written out: docs/PROVING.md, "Drops".
impl<W: Drop> Drop for Recording<W> {
    fn drop(self) {
        let Recording {
            writer: _,
            next: _,
            end: _,
        } = self;
    }
}

impl<W: Write> Recording<W> {
    /// That of a replica at which nothing happened.
    pub fn new(writer: W) -> Recording<W>
        ensures next { result.next ≡ 1 }
        ensures end { result.end ≡ None }
    {
        Recording {
            writer: Counted::new(writer),
            next: 1,
            end: None,
        }
    }

    /// What is written to.
    pub fn writer(&self) -> &W
        ensures { result.now ≡ self.now.writer.inner }
    {
        &self.writer.inner
    }

    /// How it ended, if it did: whole, or by a refusal.
    pub fn end(&self) -> Option<Result<(), Refusal>>
        ensures { result ≡ self.now.end }
    {
        self.end
    }

    /// Writes the records of a segment, unless it has ended. `Gap` where the segment isn't the next one, and nothing is written; else
    /// refused as `Piece::write`. By each refusal it ends.
    pub fn take<P: Piece>(&mut self, alloc: Global, piece: &P) -> Result<(), Refusal>
        ensures over { IsSome self.old.end → IsOk result × (self.new ≡ self.old) }
        ensures gap { self.old.end ≡ None → P.number piece.now ≢ self.old.next → (result ≡ Err Gap) × (self.new.writer ≡ self.old.writer) }
        ensures taken { self.old.end ≡ None → P.number piece.now ≡ self.old.next
            → WritesText (seen W.contents self.old.writer self.new.writer) (records_text (P.records piece.now)) result }
        ensures next { OnOk result (self.old.end ≡ None → self.new.next ≡ next_after self.old.next (length (P.records piece.now))) }
        ensures end { OnOk result (self.new.end ≡ self.old.end) }
        ensures refused { IfErr result (λ e. self.new.end ≡ Some (Err e)) }
    {
        if self.end.is_some() {
            return Ok(());
        }
        match self.put(alloc, piece) {
            Ok(()) => Ok(()),
            Err(refusal) => {
                self.end = Some(Err(refusal));
                Err(refusal)
            }
        }
    }

    // rule: cuts
    // Writes the records of a segment that is the next one.
    fn put<P: Piece>(&mut self, alloc: Global, piece: &P) -> Result<(), Refusal>
        ensures gap { P.number piece.now ≢ self.old.next → (result ≡ Err Gap) × (self.new.writer ≡ self.old.writer) }
        ensures taken { P.number piece.now ≡ self.old.next
            → WritesText (seen W.contents self.old.writer self.new.writer) (records_text (P.records piece.now)) result }
        ensures next { OnOk result (self.new.next ≡ next_after self.old.next (length (P.records piece.now))) }
        ensures end { self.new.end ≡ self.old.end }
    {
        if piece.first() != self.next {
            return Err(Refusal::Gap);
        }
        match piece.write(alloc, &mut self.writer) {
            Ok(()) => {
                self.next = self.next.saturating_add(piece.count());
                Ok(())
            }
            Err(refusal) => Err(refusal),
        }
    }

    /// Ends it by this refusal, unless it has ended. Answers the refusal, where it ends by it. Nothing is written.
    pub fn stop(&mut self, refusal: Refusal) -> Result<(), Refusal>
        ensures over { IsSome self.old.end → IsOk result }
        ensures ended { self.old.end ≡ None → result ≡ Err refusal }
        ensures end { self.new.end ≡ ended_by self.old.end (Err refusal) }
        ensures writer { self.new.writer ≡ self.old.writer }
    {
        if self.end.is_some() {
            return Ok(());
        }
        self.end = Some(Err(refusal));
        Err(refusal)
    }
}

impl<W: Seals> Recording<W> {
    /// Ends it, unless it has ended, where the rest was cut so: whole, or by the refusal of that cut; and by `Device` where it can't be
    /// sealed, or what was written is gone. Answers the refusal by which it ends just now, if it does. Nothing is written by a cut that
    /// was refused, nor to one that has ended.
    pub fn finish(&mut self, rest: Result<(), Refusal>) -> Result<(), Refusal>
        ensures over { IsSome self.old.end → IsOk result × (self.new ≡ self.old) }
        ensures refused { self.old.end ≡ None → IfErr rest (λ e. (result ≡ Err e) × (self.new.writer ≡ self.old.writer)) }
        ensures sealed { self.old.end ≡ None → IfErr result (λ e. (rest ≡ Err e) ⊎ (e ≡ Device)) }
        ensures end { self.new.end ≡ ended_by self.old.end result }
    {
        if self.end.is_some() {
            return Ok(());
        }
        let end = match rest {
            Ok(()) => self.sealed(),
            Err(refusal) => Err(refusal),
        };
        self.end = Some(end);
        end
    }

    // Seals what was written. `Device` where that fails, or it is gone.
    fn sealed(&mut self) -> Result<(), Refusal>
        ensures refused { IfErr result (λ e. e ≡ Device) }
        ensures end { self.new.end ≡ self.old.end }
    {
        if !self.writer.inner.is_there() {
            return Err(Refusal::Device);
        }
        match self.writer.inner.seal() {
            Ok(()) => Ok(()),
            Err(_) => Err(Refusal::Device),
        }
    }

    /// Ends it by `Device`, unless it has ended, where what was written is gone. Answers the refusal by which it ends just now, if it
    /// does. Nothing is written.
    pub fn look(&mut self) -> Result<(), Refusal>
        ensures refused { IfErr result (λ e. (e ≡ Device) × (self.new.end ≡ Some (Err e))) }
        ensures goes_on { OnOk result (self.new.end ≡ self.old.end) }
        ensures writer { self.new.writer ≡ self.old.writer }
    {
        if self.writer.inner.is_there() {
            return Ok(());
        }
        self.stop(Refusal::Device)
    }
}
