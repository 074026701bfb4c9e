// What a node left, as the text of a trace: written piece by piece, so that the whole is nowhere in memory.
ghost use Rattle.std.specs.Prelude.{◌≡◌, ◌∷◌, [], string_bytes, IfOk, IfErr};
ghost use Rattle.xds_resource.specs.declared.refusal.Refusal.TheVariants.{OutOfMemory};
ghost use Rattle.xds_frames.specs.Devices.{seen};
ghost use Rattle.xds_check.specs.declared.line.Line.TheVariants as forms;
ghost use Rattle.xds_check.specs.Texts.{trace_text};
ghost use Rattle.xds_core.specs.Legal.{IsLegal};
ghost use Rattle.xds_trace.specs.Making.{own_names, answer_of, lines_of};
ghost use Rattle.xds_trace.specs.Telling.{IsTold, IsSoundRecord, UnlessShort, Tells, record_of};
ghost use Rattle.xds_trace.specs.Texts.{records_text, draft_kind, WritesText, WritesTold};

use crate::bases::what_is_held_could_be_read;
use crate::telling::push_record;
use itoa::Buffer;
use std::alloc::Global;
use std::io::Write;
use xds_check::Trace;
use xds_core::{Core, Event, Record, Reply};
use xds_frames::{Counted, gather, write_whole};
use xds_message::Draft;
use xds_node::{History, JournalLine, NodeName, Segment};
use xds_resource::Refusal;

// How many bytes are gathered before they are written.
const BLOCK: usize = 65_536;

// rule: cuts
/// Writes the records of a segment as lines of a trace, and flushes: of the segments of a node, one after another, and of what its
/// history has behind them, the texts are the text of the trace (`laws`). The text of a record at a time is in memory, and a block
/// of 65,536 bytes. `Device` where a call of the writer failed, else refused only by `OutOfMemory`; either way a beginning was
/// written.
pub fn write_segment<N: NodeName, W: Write>(
    alloc: Global,
    segment: &Segment<N>,
    writer: &mut Counted<W>,
) -> Result<(), Refusal>
    ensures { WritesText (seen W.contents writer.old writer.new) (records_text segment.now.records) result }
{
    write_legal(alloc, segment.base(), segment.records(), writer)
}

// rule: cuts
/// The same of the records that a history has, which stand behind all segments.
pub fn write_history<N: NodeName, W: Write>(
    alloc: Global,
    history: &History<N>,
    writer: &mut Counted<W>,
) -> Result<(), Refusal>
    ensures { WritesText (seen W.contents writer.old writer.new) (records_text history.now.records) result }
{
    write_legal(alloc, history.base(), history.records(), writer)
}

// Writes the lines of records that were made from this base. They can all be told.
fn write_legal<W: Write>(
    alloc: Global,
    base: &Core,
    records: &[JournalLine],
    writer: &mut Counted<W>,
) -> Result<(), Refusal>
    requires { IsLegal base.now records.now }
    ensures { WritesText (seen W.contents writer.old writer.new) (records_text records.now) result }
{
    match write_records(alloc, records, writer) {
        Ok(()) => Ok(()),
        Err(refusal) => {
            what_is_held_could_be_read(base);
            Err(refusal)
        }
    }
}

// Writes the lines of records.
fn write_records<W: Write>(
    alloc: Global,
    records: &[JournalLine],
    writer: &mut Counted<W>,
) -> Result<(), Refusal>
    ensures { WritesTold (seen W.contents writer.old writer.new) records.now result }
{
    let Ok(mut block) = Vec::with_capacity(alloc, BLOCK) else {
        return Err(Refusal::OutOfMemory);
    };
    for line in records {
        let text = match record_text(alloc, line.record()) {
            Ok(text) => text,
            Err(refusal) => return Err(refusal),
        };
        if let Err(refusal) = gather(writer, &mut block, text.as_bytes()) {
            return Err(refusal);
        }
    }
    if let Err(refusal) = write_whole(writer, block.as_slice()) {
        return Err(refusal);
    }
    Ok(())
}

// The text of the lines of a record. A response is joined from the stored texts of its resources.
fn record_text(alloc: Global, made: &Record) -> Result<String, Refusal>
    ensures told { Tells string_bytes (trace_text (lines_of own_names (record_of made.now))) (IsTold (record_of made.now)) result }
    ensures sound { UnlessShort result (IsSoundRecord (record_of made.now)) }
{
    match (&made.event, &made.answer) {
        (Event::Poll(stream, _), Ok(Reply::Polled(Some(draft)))) => {
            response_text(alloc, *stream, draft)
        }
        _ => lines_text(alloc, made),
    }
}

// The text of the lines of a record, by the lines.
fn lines_text(alloc: Global, made: &Record) -> Result<String, Refusal>
    ensures told { Tells string_bytes (trace_text (lines_of own_names (record_of made.now))) (IsTold (record_of made.now)) result }
    ensures sound { UnlessShort result (IsSoundRecord (record_of made.now)) }
{
    let mut lines = Vec::new(alloc);
    match push_record(alloc, &mut lines, made) {
        Ok(()) => Trace::of_lines(lines).write(alloc),
        Err(refusal) => Err(refusal),
    }
}

// The line of a response, with its line feed.
fn response_text(alloc: Global, stream: u64, draft: &Draft) -> Result<String, Refusal>
    ensures ok { IfOk result (λ t. string_bytes t ≡ trace_text (forms.Response stream (answer_of own_names draft.now) ∷ [])) }
    ensures refused { IfErr result (λ e. e ≡ OutOfMemory) }
{
    let mut text = String::from_str(alloc, "response ")?;
    let mut digits = Buffer::new();
    text.push_str(digits.format(stream))?;
    text.push_str(kind_text(draft))?;
    let message = draft.write(alloc)?;
    text.push_str(message.as_str())?;
    text.push_str("\n")?;
    Ok(text)
}

// The kind of a response's frame, between two spaces.
fn kind_text(draft: &Draft) -> &'static str
    ensures { result.now ≡ draft_kind draft.now }
{
    match draft {
        Draft::Sotw(_) => " 2 ",
        Draft::Delta(_) => " 4 ",
    }
}
