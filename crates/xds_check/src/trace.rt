// A trace: its lines, as they are read and written.
ghost use Rattle.std.specs.Prelude.{◌≡◌, ◌≢◌, ◌++◌, [], ◌∷◌, map, string_bytes, All, IfSome, IfNone, IfOk, IfErr, OnOk};
ghost use Rattle.xds_resource.specs.declared.refusal.Refusal.TheVariants.{OutOfMemory, BadTrace};
ghost use Rattle.xds_check.specs.Orders.{IsTaken, IsBadIn};
ghost use Rattle.xds_check.specs.Streams.{IsInOrder};
ghost use Rattle.xds_check.specs.Texts.{HasStream, IsOneLine, IsTrace, IsRefusedAt, line_text, trace_text, Says};

use crate::line::Line;
use crate::order::StreamOrder;
use crate::reading::read_line;
use std::alloc::Global;
use std::marker::Model;
use xds_resource::Refusal;

/// Which line of a trace is refused, and why.
#[derive(Clone, Copy, Debug, PartialEq, Eq)]
pub struct TraceFault {
    /// The number of the line, from 1.
    pub line: usize,
    pub refusal: Refusal,
}

/// What one replica did, line by line. Contracts see the list of the lines.
pub struct Trace {
    lines: Vec<Line>,
}

// Written out: docs/PROVING.md, "Drops".
impl Drop for Trace {
    fn drop(self) {
        let Trace { lines: _ } = self;
    }
}

impl Model for Trace {
    ghost use Rattle.std.specs.Prelude.{List};
    ghost use Rattle.std.specs.Coded.{codes};
    ghost use Rattle.xds_json.specs.Versions.{version_map_code};
    ghost use Rattle.xds_check.specs.declared.line.Line.{Line};

    ghost Value = { List Line };

    ghost coded = { Prim.hlevel (codes, version_map_code) };

    ghost view = { λ t. t.lines.items };
}

// The bytes before the first line feed, and those behind it, where there is one.
pub(crate) fn split_line(bytes: &[u8]) -> Option<(&[u8], &[u8])>
    ensures split { IfSome result (λ p. (bytes.now ≡ p.0.now ++ 10 ∷ p.1.now) × IsOneLine p.0.now) }
    ensures last { IfNone result (IsOneLine bytes.now) }
{
    for (i, b) in bytes.iter().enumerate() {
        if *b == b'\n' {
            return Some((&bytes[..i], &bytes[i + 1..]));
        }
    }
    None
}

// Reads one line more.
fn take_line(
    alloc: Global,
    order: &mut StreamOrder,
    lines: &mut Vec<Line>,
    text: &[u8],
) -> Result<(), Refusal>
    ensures ok { OnOk result (IsTaken order.old lines.old.items text.now order.new lines.new.items) }
    ensures refused { IfErr result (λ e. e ≢ OutOfMemory → (e ≡ BadTrace) × IsBadIn order.old text.now) }
{
    let line = match read_line(alloc, text) {
        Ok(line) => line,
        Err(refusal) => return Err(refusal),
    };
    if !order.may_follow(&line) {
        return Err(Refusal::BadTrace);
    }
    order.take(&line)?;
    lines.push(line)?;
    Ok(())
}

// Appends the text of a line, and a line feed.
fn join_line(alloc: Global, out: &mut String, line: &Line) -> Result<(), Refusal>
    ensures ok { OnOk result (string_bytes out.new ≡ string_bytes out.old ++ line_text line.now ++ 10 ∷ []) }
    ensures says { HasStream line.now → OnOk result (Says (line_text line.now) line.now) }
    ensures refused { IfErr result (λ e. e ≡ OutOfMemory) }
{
    let text = line.text(alloc)?;
    out.push_str(text.as_str())?;
    Ok(out.push_str("\n")?)
}

impl Trace {
    /// The trace of these lines.
    pub fn of_lines(lines: Vec<Line>) -> Trace
        ensures { result ≡ lines.items }
    {
        Trace { lines }
    }

    pub fn lines(&self) -> &[Line]
        ensures { result.now ≡ self.now }
    {
        self.lines.as_slice()
    }

    /// Reads a trace, a line for each thing that happened. Each line is ended by a line feed, the last one too. The first bad
    /// line is told, as `BadTrace`; `OutOfMemory` comes with the line that was at work.
    pub fn read(alloc: Global, bytes: &[u8]) -> Result<Trace, TraceFault>
        ensures read { IfOk result (IsTrace bytes.now) }
        ensures refused { IfErr result (λ fault. IsRefusedAt bytes.now fault.line fault.refusal) }
    {
        let mut order = StreamOrder::new(alloc);
        let mut lines = Vec::new(alloc);
        let mut rest = bytes;
        let mut line = 1usize;
        while let Some((text, following)) = split_line(rest) {
            if let Err(refusal) = take_line(alloc, &mut order, &mut lines, text) {
                return Err(TraceFault { line, refusal });
            }
            rest = following;
            line += 1;
        }
        if rest.is_empty() {
            return Ok(Trace { lines });
        }
        Err(TraceFault {
            line,
            refusal: Refusal::BadTrace,
        })
    }

    /// The text of the trace: that of each line, and a line feed behind it. Refused only by `OutOfMemory`.
    pub fn write(&self, alloc: Global) -> Result<String, Refusal>
        ensures text { IfOk result (λ s. string_bytes s ≡ trace_text self.now) }
        ensures reads_back { IfOk result (λ s. All HasStream self.now → IsInOrder self.now → IsTrace (string_bytes s) self.now) }
        ensures refused { IfErr result (λ e. e ≡ OutOfMemory) }
    {
        let mut out = String::new(alloc);
        for line in &self.lines {
            join_line(alloc, &mut out, line)?;
        }
        Ok(out)
    }
}
