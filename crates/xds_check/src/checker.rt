// A checker that takes the lines of a trace one after another, and keeps of them what the rules need.
ghost use Rattle.std.specs.Prelude.{◌≡◌, ◌≢◌, ◌<◌, ◌∷◌, [], ◌++◌, List, length, reverse, true, false, IfErr, OnOk, OnErr};
ghost use Rattle.xds_resource.specs.declared.refusal.Refusal.TheVariants.{OutOfMemory, BadTrace};
ghost use Rattle.xds_check.specs.declared.line.Line.{Line};
ghost use Rattle.xds_check.specs.Checkers.{most_lines, IsJudged, HasTaken, IsNext};
ghost use Rattle.xds_check.specs.Judges.{let_go_after};
ghost use Rattle.xds_check.specs.Streams.{may_follow};
ghost use Rattle.xds_check.specs.Verdicts.{IsVerdict, TellsWell, TellsTheFirst};

use crate::checking::Broken;
use crate::judges::Judges;
use crate::line::Line;
use crate::order::StreamOrder;
use std::alloc::Global;
use xds_resource::Refusal;

// As many lines as a checker takes: no memory holds more.
const MOST_LINES: usize = 9_223_372_036_854_775_807;

/// Checks a trace line by line. Of the lines that were taken it keeps what the rules need to judge those that may come: the best
/// writes, what was said of each stream that wasn't closed, and which streams there were. Once a rule is broken it keeps the last
/// alone. Its verdict is at any time that of [`check`](crate::check) on the lines that were taken.
pub struct Checker {
    order: StreamOrder,
    judges: Judges,
    broken: Option<Broken>,
    taken: usize,
}

// Written out: docs/PROVING.md, "Drops".
impl Drop for Checker {
    fn drop(self) {
        let Checker {
            order: _,
            judges: _,
            broken: _,
            taken: _,
        } = self;
    }
}

// Puts a value in the place of another.
fn put<V: Drop>(place: &mut V, value: V)
    ensures { place.new ≡ value }
{
    *place = value;
}

// Lets go of what is kept of a stream that the line closes.
fn let_go(judges: &mut Judges, line: &Line)
    ensures { judges.new ≡ let_go_after line.now judges.old }
{
    if let Line::Close(stream) = line {
        judges.let_go(*stream);
    }
}

// Judges the line behind so many that were taken, and keeps what it says. Behind a broken line nothing more is kept.
fn judge(
    alloc: Global,
    judges: &mut Judges,
    broken: &mut Option<Broken>,
    taken: usize,
    line: &Line,
) -> Result<(), Refusal>
    requires few { taken < most_lines }
    requires judged { (lines : List Line) × (taken ≡ length lines) × IsJudged lines judges.old broken.old }
    ensures judged { OnOk result ((lines : List Line) → taken ≡ length lines → may_follow (reverse lines) line.now ≡ true
        → IsJudged lines judges.old broken.old → IsJudged (lines ++ line.now ∷ []) judges.new broken.new) }
    ensures refused { IfErr result (λ e. e ≡ OutOfMemory) }
{
    if broken.is_some() {
        return Ok(());
    }
    if let Some(rule) = judges.take(alloc, line)? {
        *broken = Some(Broken {
            line: taken + 1,
            rule,
        });
        put(judges, Judges::new(alloc));
        return Ok(());
    }
    let_go(judges, line);
    Ok(())
}

impl Checker {
    /// A checker that has taken no line.
    pub fn new(alloc: Global) -> Checker
        ensures { HasTaken [] result }
    {
        Checker {
            order: StreamOrder::new(alloc),
            judges: Judges::new(alloc),
            broken: None,
            taken: 0,
        }
    }

    /// How many lines were taken.
    pub fn taken(&self) -> usize
        ensures { result ≡ self.now.taken }
    {
        self.taken
    }

    /// Takes one line more. A line that may not come next is refused by `BadTrace`, and isn't taken. After `OutOfMemory` the
    /// checker is of no further use.
    pub fn take(&mut self, alloc: Global, line: &Line) -> Result<(), Refusal>
        requires { (lines : List Line) × HasTaken lines self.old }
        ensures follows { OnOk result (IsNext true self.old line.now) }
        ensures taken { OnOk result ((lines : List Line) → HasTaken lines self.old → HasTaken (lines ++ line.now ∷ []) self.new) }
        ensures refused { IfErr result (λ e. e ≢ OutOfMemory → (e ≡ BadTrace) × IsNext false self.old line.now × (self.new ≡ self.old)) }
        ensures count { OnErr result (self.new.taken ≡ self.old.taken) }
    {
        if !self.order.may_follow(line) {
            return Err(Refusal::BadTrace);
        }
        if self.taken >= MOST_LINES {
            return Err(Refusal::OutOfMemory);
        }
        judge(alloc, &mut self.judges, &mut self.broken, self.taken, line)?;
        self.order.take(line)?;
        self.taken += 1;
        Ok(())
    }

    /// The first line at which a rule is broken, and the least rule that is broken there; none where every line that was taken
    /// keeps the rules.
    pub fn verdict(&self) -> Option<Broken>
        ensures verdict { (lines : List Line) → HasTaken lines self.now → IsVerdict lines result }
        ensures well { (lines : List Line) → HasTaken lines self.now → TellsWell lines result }
        ensures first { (lines : List Line) → HasTaken lines self.now → TellsTheFirst lines result }
    {
        self.broken
    }
}
