// The input's lines, as they come in pieces.
ghost use Rattle.std.specs.Prelude.{◌≡◌, ◌∷◌, []};
ghost use Rattle.xds_script.specs.Lines.{feed, pieces};

use crate::change::{Change, read_change, within_limit};
use std::alloc::Global;
use std::mem;
use xds_resource::Refusal;
use xds_script::lines::split_line;

/// What has come of the input's last line.
pub struct HeldLine {
    pub bytes: Vec<u8>,
    // Its number, from 1.
    line: u64,
    ghost one: { pieces feed bytes.items ≡ bytes.items ∷ [] },
}

// Written out: docs/PROVING.md, "Drops".
impl Drop for HeldLine {
    fn drop(self) {
        let HeldLine { bytes: _, line: _ } = self;
    }
}

/// What a piece of the input brings.
#[derive(Drop)]
pub struct TakenPiece {
    /// The changes of the lines that end in it, in order, up to one that is refused.
    pub changes: Vec<Change>,
    /// How many lines those are.
    pub lines: usize,
    /// Why the line behind them is refused, if it is.
    pub refused: Option<Refusal>,
}

impl HeldLine {
    ghost use Rattle.std.specs.Prelude.{◌≡◌, ◌≢◌, ◌∷◌, ◌++◌, [], Err, OnOk, OnErr, IfErr, map, false};
    ghost use Rattle.std.specs.Option.{option_map};
    ghost use Rattle.xds_resource.specs.declared.refusal.Refusal.TheVariants.{OutOfMemory};
    ghost use Rattle.xds_resource.specs.Refusals.{Gives};
    ghost use Rattle.xds_script.specs.Lines.{feed, pieces};
    ghost use Rattle.xds_changes.specs.Changes.{change_of, change_in};
    ghost use Rattle.xds_changes.specs.Inputs.{Takes, brings, is_wrong};

    /// Nothing has come.
    pub fn new(alloc: Global) -> HeldLine
        ensures { result.bytes.items ≡ [] }
    {
        HeldLine {
            bytes: Vec::new(alloc),
            line: 1,
        }
    }

    /// Takes a piece more: the lines that end in it, up to one that is refused, as `BadScript` where it is no change, as `TooLong` where more has come
    /// of it than a line may have, and with `OutOfMemory` where there was no memory for it. Behind a line that is refused nothing more is to be taken.
    pub fn take(&mut self, alloc: Global, piece: &[u8]) -> TakenPiece
        ensures { Takes (self.old.bytes.items ++ piece.now) (map change_of result.changes.items) result.lines result.refused self.new.bytes.items }
    {
        let mut changes = Vec::new(alloc);
        let mut lines = 0usize;
        let mut rest = piece;
        while let Some((part, following)) = split_line(rest) {
            if let Err(refusal) = self.take_line(alloc, &mut changes, part) {
                return TakenPiece {
                    changes,
                    lines,
                    refused: Some(refusal),
                };
            }
            rest = following;
            lines += 1;
        }
        match self.keep(rest) {
            Ok(()) => TakenPiece {
                changes,
                lines,
                refused: None,
            },
            Err(refusal) => TakenPiece {
                changes,
                lines,
                refused: Some(refusal),
            },
        }
    }

    /// What the last line changes, which no line feed ends: none where it is skipped. Any other line is `BadScript`, or `TooLong`.
    pub fn finish(&self, alloc: Global) -> Result<Option<Change>, Refusal>
        ensures { Gives (option_map change_of) result (change_in self.now.bytes.items) }
    {
        read_change(alloc, self.line, self.bytes.as_slice())
    }

    // Adds what the line changes that this part ends. Then nothing is held.
    fn take_line(
        &mut self,
        alloc: Global,
        changes: &mut Vec<Change>,
        part: &[u8],
    ) -> Result<(), Refusal>
        ensures held { self.new.bytes.items ≡ [] }
        ensures good { OnOk result (is_wrong (self.old.bytes.items ++ part.now) ≡ false) }
        ensures brought { OnOk result (map change_of changes.new.items ≡ map change_of changes.old.items ++ brings (self.old.bytes.items ++ part.now)) }
        ensures refused { IfErr result (λ e. e ≢ OutOfMemory → change_in (self.old.bytes.items ++ part.now) ≡ Err e) }
        ensures err { OnErr result (map change_of changes.new.items ≡ map change_of changes.old.items) }
    {
        match self.completed(alloc, part) {
            Err(refusal) => Err(refusal),
            Ok(None) => Ok(()),
            Ok(Some(change)) => match changes.push(change) {
                Ok(()) => Ok(()),
                Err(_) => Err(Refusal::OutOfMemory),
            },
        }
    }

    // What the line changes that this part ends. Then nothing is held.
    fn completed(&mut self, alloc: Global, part: &[u8]) -> Result<Option<Change>, Refusal>
        ensures change { Gives (option_map change_of) result (change_in (self.old.bytes.items ++ part.now)) }
        ensures held { self.new.bytes.items ≡ [] }
    {
        let mut line = mem::replace(&mut self.bytes, Vec::new(alloc));
        let number = self.line;
        self.line = number.saturating_add(1);
        match line.extend_from_slice(part) {
            Ok(()) => read_change(alloc, number, line.as_slice()),
            Err(_) => Err(Refusal::OutOfMemory),
        }
    }

    // Holds a part more, in which no line ends. What has come of a line may be too long for one.
    fn keep(&mut self, part: &[u8]) -> Result<(), Refusal>
        requires { pieces feed part.now ≡ part.now ∷ [] }
        ensures kept { OnOk result (self.new.bytes.items ≡ self.old.bytes.items ++ part.now) }
        ensures refused { IfErr result (λ e. e ≢ OutOfMemory → change_in (self.old.bytes.items ++ part.now) ≡ Err e) }
    {
        match self.bytes.extend_from_slice(part) {
            Ok(()) => within_limit(self.bytes.as_slice()),
            Err(_) => Err(Refusal::OutOfMemory),
        }
    }
}
