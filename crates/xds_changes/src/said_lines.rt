// The lines of an input whose refused lines are passed over, as they come in pieces.
ghost use Rattle.std.specs.Prelude.{◌≡◌, ◌≤◌, ◌+◌, length, [], false};
ghost use Rattle.xds_notes.specs.Causes.{IsFaultOf};
ghost use Rattle.xds_changes.specs.Changes.{most_line};
ghost use Rattle.xds_changes.specs.HeldLines.{HasHeld, IsSaid, next_line};

use crate::change::{Change, MAX_LINE, read_change};
use std::alloc::Global;
use std::mem;
use xds_causes::cause_of;
use xds_notes::Fault;
use xds_resource::Refusal;

/// What a line says, which has this number.
#[derive(Drop)]
pub struct SaidLine {
    pub line: u64,
    /// The change, if it says one, or why it is refused.
    pub what: Result<Option<Change>, Fault>,
}

/// What has come of the line at work: no more of it than shows that it is too long.
pub struct Kept {
    pub bytes: Vec<u8>,
    /// Whether there was no memory for it.
    pub is_lost: bool,
    /// Its number, from 1.
    pub line: u64,
    ghost short: { length bytes.items ≤ most_line + 1 },
}

// Written out: docs/PROVING.md, "Drops".
impl Drop for Kept {
    fn drop(self) {
        let Kept {
            bytes: _,
            is_lost: _,
            line: _,
        } = self;
    }
}

impl Kept {
    /// Nothing has come.
    pub fn new(alloc: Global) -> Kept
        ensures nothing { (result.bytes.items ≡ []) × (result.is_lost ≡ false) }
        ensures first { result.line ≡ 1 }
    {
        Kept {
            bytes: Vec::new(alloc),
            is_lost: false,
            line: 1,
        }
    }

    /// Holds a part more of the line, in which it doesn't end.
    pub fn hold(&mut self, part: &[u8])
        ensures held { HasHeld self.old.bytes.items self.old.is_lost part.now self.new.bytes.items self.new.is_lost }
        ensures line { self.new.line ≡ self.old.line }
    {
        if self.is_lost {
            return;
        }
        let room = (MAX_LINE + 1).saturating_sub(self.bytes.as_slice().len());
        let taken = &part[..part.len().min(room)];
        match self.bytes.extend_from_slice(taken) {
            Ok(()) => {}
            Err(_) => self.is_lost = true,
        }
    }

    /// What the line says that ends here. Then nothing is held.
    pub fn end(&mut self, alloc: Global) -> SaidLine
        ensures said { IsSaid self.old.bytes.items self.old.is_lost self.old.line result }
        ensures nothing { (self.new.bytes.items ≡ []) × (self.new.is_lost ≡ false) }
        ensures line { self.new.line ≡ next_line self.old.line }
    {
        let bytes = mem::replace(&mut self.bytes, Vec::new(alloc));
        let is_lost = mem::replace(&mut self.is_lost, false);
        let line = self.line;
        self.line = line.saturating_add(1);
        let what = if is_lost {
            Err(Fault::of(Refusal::OutOfMemory))
        } else {
            read_said(alloc, line, bytes.as_slice())
        };
        SaidLine { line, what }
    }
}

// What a line says, or why it is refused.
fn read_said(alloc: Global, number: u64, line: &[u8]) -> Result<Option<Change>, Fault>
    ensures { IsSaid line.now false number (record { line = number; what = result }) }
{
    match read_change(alloc, number, line) {
        Ok(change) => Ok(change),
        Err(refusal) => Err(fault_of(alloc, refusal, line)),
    }
}

// How a line is refused. Where there is no memory to find its cause, it has none.
fn fault_of(alloc: Global, refusal: Refusal, line: &[u8]) -> Fault
    ensures refusal { result.refusal ≡ refusal }
    ensures cause { IsFaultOf line.now result }
{
    if refusal != Refusal::BadScript {
        return Fault::of(refusal);
    }
    match cause_of(alloc, line) {
        Ok(cause) => Fault::by(cause),
        Err(_) => Fault::of(refusal),
    }
}
