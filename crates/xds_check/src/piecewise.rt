// A checker that takes the bytes of a trace in pieces, and holds of them the last line alone.
ghost use Rattle.std.specs.Prelude.{◌≡◌, ◌≢◌, ◌≤◌, ◌+◌, ◌∷◌, [], ◌++◌, ℕ, List, reverse, IfOk, IfErr, OnOk, OnErr};
ghost use Rattle.xds_resource.specs.declared.refusal.Refusal.TheVariants.{OutOfMemory, BadTrace};
ghost use Rattle.xds_check.specs.declared.line.Line.{Line};
ghost use Rattle.xds_check.specs.Checkers.{most_lines, HasTaken, TakesText, HasRead, IsVerdictOf};
ghost use Rattle.xds_check.specs.Texts.{IsOneLine, IsBad, IsFirstBad, IsRefusedAt};

use crate::checker::Checker;
use crate::checking::Broken;
use crate::reading::read_line;
use crate::trace::{TraceFault, split_line};
use std::alloc::Global;
use std::mem;
use xds_resource::Refusal;

/// Checks a trace whose bytes come in pieces, cut anywhere. A line is held until it was read, and then what [`Checker`] keeps of
/// it.
pub struct PiecewiseChecker {
    checker: Checker,
    held: Vec<u8>,
}

// Written out: docs/PROVING.md, "Drops".
impl Drop for PiecewiseChecker {
    fn drop(self) {
        let PiecewiseChecker {
            checker: _,
            held: _,
        } = self;
    }
}

impl PiecewiseChecker {
    /// A checker that has read nothing.
    pub fn new(alloc: Global) -> PiecewiseChecker
        ensures { HasRead [] result }
    {
        PiecewiseChecker {
            checker: Checker::new(alloc),
            held: Vec::new(alloc),
        }
    }

    /// Reads a piece more. The first bad line is told, as `BadTrace`, whatever bytes may follow; `OutOfMemory` comes with the line
    /// that was at work. Then the checker is of no further use.
    pub fn read(&mut self, alloc: Global, piece: &[u8]) -> Result<(), TraceFault>
        requires { (bytes : List ℕ) × HasRead bytes self.old }
        ensures read { OnOk result ((bytes : List ℕ) → HasRead bytes self.old → HasRead (bytes ++ piece.now) self.new) }
        ensures refused { IfErr result (λ fault. (bytes following : List ℕ) → HasRead bytes self.old → IsRefusedAt (bytes ++ piece.now ++ following) fault.line fault.refusal) }
    {
        let mut rest = piece;
        while let Some((part, following)) = split_line(rest) {
            if let Err(refusal) = self.end_line(alloc, part) {
                return Err(self.fault(refusal));
            }
            rest = following;
        }
        match self.held.extend_from_slice(rest) {
            Ok(()) => Ok(()),
            Err(_) => Err(self.fault(Refusal::OutOfMemory)),
        }
    }

    /// The verdict on the bytes, where no more follow. Where the last line isn't ended it is told, as `BadTrace`.
    pub fn verdict(&self) -> Result<Option<Broken>, TraceFault>
        requires { (bytes : List ℕ) × HasRead bytes self.now }
        ensures verdict { IfOk result (λ broken. (bytes : List ℕ) → HasRead bytes self.now → IsVerdictOf bytes broken) }
        ensures refused { IfErr result (λ fault. (fault.refusal ≡ BadTrace) × ((bytes : List ℕ) → HasRead bytes self.now → IsFirstBad bytes fault.line)) }
    {
        if self.held.is_empty() {
            return Ok(self.checker.verdict());
        }
        Err(self.fault(Refusal::BadTrace))
    }

    // The line that comes next is refused.
    fn fault(&self, refusal: Refusal) -> TraceFault
        requires { self.now.checker.taken ≤ most_lines }
        ensures line { result.line ≡ self.now.checker.taken + 1 }
        ensures refusal { result.refusal ≡ refusal }
    {
        TraceFault {
            line: self.checker.taken() + 1,
            refusal,
        }
    }

    // Takes the line that this part ends. Then nothing is held.
    fn end_line(&mut self, alloc: Global, part: &[u8]) -> Result<(), Refusal>
        requires some { (bytes : List ℕ) × HasRead bytes self.old }
        requires one { IsOneLine part.now }
        ensures read { OnOk result ((bytes : List ℕ) → HasRead bytes self.old → HasRead (bytes ++ part.now ++ 10 ∷ []) self.new) }
        ensures refused { IfErr result (λ e. e ≢ OutOfMemory → (e ≡ BadTrace)
            × ((bytes following : List ℕ) → HasRead bytes self.old → IsFirstBad (bytes ++ part.now ++ 10 ∷ following) (self.old.checker.taken + 1))) }
        ensures count { OnErr result (self.new.checker.taken ≡ self.old.checker.taken) }
    {
        let held = mem::replace(&mut self.held, Vec::new(alloc));
        if held.is_empty() {
            return take_line(alloc, &mut self.checker, part);
        }
        let mut text = held;
        text.extend_from_slice(part)?;
        take_line(alloc, &mut self.checker, text.as_slice())
    }
}

// Takes the line that a text says.
fn take_line(alloc: Global, checker: &mut Checker, text: &[u8]) -> Result<(), Refusal>
    requires { (lines : List Line) × HasTaken lines checker.old }
    ensures taken { OnOk result (TakesText text.now checker.old checker.new) }
    ensures refused { IfErr result (λ e. e ≢ OutOfMemory → (e ≡ BadTrace) × ((lines : List Line) → HasTaken lines checker.old → IsBad (reverse lines) text.now)) }
    ensures count { OnErr result (checker.new.taken ≡ checker.old.taken) }
{
    let line = match read_line(alloc, text) {
        Ok(line) => line,
        Err(refusal) => return Err(refusal),
    };
    checker.take(alloc, &line)
}
