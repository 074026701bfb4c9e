// What a node left, as lines of a trace.
ghost use Rattle.std.specs.Prelude.{◌≡◌, ◌≢◌, ◌⊎◌, [], ◌++◌, IfOk, IfErr};
ghost use Rattle.xds_resource.specs.declared.refusal.Refusal.TheVariants.{OutOfMemory, Gap};
ghost use Rattle.xds_node.specs.Pieces.{pieces_entries};
ghost use Rattle.xds_check.specs.Rules.{NoneBroken};
ghost use Rattle.xds_trace.specs.Making.{trace_of};
ghost use Rattle.xds_core.specs.Legal.{IsLegal};
ghost use Rattle.xds_trace.specs.Joined.{pieces_records, all_records, AddsTo, AddsAll, TellsJoined};

use crate::bases::what_is_held_could_be_read;
use crate::telling::push_record;
use std::alloc::Global;
use xds_check::{Line, Trace};
use xds_core::Core;
use xds_node::{History, JournalLine, NodeName, Segment};
use xds_resource::Refusal;

// rule: cuts
/// The trace of what the threads of a node did: the lines of each record of the segments, one after another, and then of the
/// history. Where nothing was cut it breaks no rule, nor where the segments are all that was cut, as `History::audit` finds out.
/// `Gap` where the segments, in this order, don't begin with record 1 and join without a gap up to the first record of the
/// history; else refused only by `OutOfMemory`: each segment's records are those of a replica, from its base, and so are the
/// history's, so that they can all be told.
pub fn of_history<N: NodeName>(
    alloc: Global,
    segments: &[Segment<N>],
    history: &History<N>,
) -> Result<Trace, Refusal>
    ensures told { TellsJoined segments.now history.now result }
    ensures uncut { IfOk result (λ t. history.now.before ≡ [] → NoneBroken t) }
    ensures keeps { IfOk result (λ t. pieces_entries segments.now ≡ history.now.before → NoneBroken t) }
    ensures legal { pieces_entries segments.now ≡ history.now.before → IfErr result (λ e. e ≡ OutOfMemory) }
{
    let base = history.base();
    let last = history.records();
    if !history.follows(segments) {
        return Err(Refusal::Gap);
    }
    match all_lines(alloc, segments, base, last) {
        Ok(lines) => Ok(Trace::of_lines(lines)),
        Err(refusal) => Err(refusal),
    }
}

// rule: cuts
// The lines of segments, and of the records behind them that were made from this base.
fn all_lines<N: NodeName>(
    alloc: Global,
    segments: &[Segment<N>],
    base: &Core,
    last: &[JournalLine],
) -> Result<Vec<Line>, Refusal>
    requires { IsLegal base.now last.now }
    ensures { AddsAll [] (λ v. v.items) (pieces_records segments.now ++ last.now) result }
{
    let mut lines = Vec::new(alloc);
    match push_segments(alloc, &mut lines, segments) {
        Ok(()) => {}
        Err(refusal) => return Err(refusal),
    }
    match push_legal(alloc, &mut lines, base, last) {
        Ok(()) => Ok(lines),
        Err(refusal) => Err(refusal),
    }
}

// rule: cuts
// Adds the lines of segments, one after another.
fn push_segments<N: NodeName>(
    alloc: Global,
    lines: &mut Vec<Line>,
    segments: &[Segment<N>],
) -> Result<(), Refusal>
    ensures { AddsAll lines.old.items (λ _. lines.new.items) (pieces_records segments.now) result }
{
    for segment in segments {
        match push_legal(alloc, lines, segment.base(), segment.records()) {
            Ok(()) => {}
            Err(refusal) => return Err(refusal),
        }
    }
    Ok(())
}

// Adds the lines of records that were made from this base. They can all be told, so that it refuses only for memory.
fn push_legal(
    alloc: Global,
    lines: &mut Vec<Line>,
    base: &Core,
    records: &[JournalLine],
) -> Result<(), Refusal>
    requires { IsLegal base.now records.now }
    ensures { AddsAll lines.old.items (λ _. lines.new.items) records.now result }
{
    match push_lines(alloc, lines, records) {
        Ok(()) => Ok(()),
        Err(refusal) => {
            what_is_held_could_be_read(base);
            Err(refusal)
        }
    }
}

// Adds the lines of records.
fn push_lines(alloc: Global, lines: &mut Vec<Line>, records: &[JournalLine]) -> Result<(), Refusal>
    ensures { AddsTo lines.old.items (λ _. lines.new.items) records.now result }
{
    for line in records {
        match push_record(alloc, lines, line.record()) {
            Ok(()) => {}
            Err(refusal) => return Err(refusal),
        }
    }
    Ok(())
}

// rule: cuts
/// The same of a history that is audited then by these segments, and handed over with them: the trace breaks no rule. `Gap` where
/// the segments aren't all that was cut, in order; else refused only by `OutOfMemory`.
pub fn of_audited<N: NodeName>(
    alloc: Global,
    segments: Vec<Segment<N>>,
    history: History<N>,
) -> Result<Trace, Refusal>
    ensures told { IfOk result (λ t. t ≡ trace_of (all_records segments.items history)) }
    ensures keeps { IfOk result (λ t. (pieces_entries segments.items ≡ history.before) × NoneBroken t) }
    ensures refused { IfErr result (λ e. (e ≡ OutOfMemory) ⊎ ((e ≡ Gap) × (pieces_entries segments.items ≢ history.before))) }
{
    let trace = of_history(alloc, segments.as_slice(), &history);
    match history.audit(segments) {
        Ok(()) => trace,
        Err(refusal) => Err(refusal),
    }
}
