// Stamped writes as lines.
ghost use Rattle.std.specs.Prelude.{◌≡◌, ◌<◌, ◌+◌, ◌∷◌, [], ◌++◌, length, get_or, string_bytes, true, Ok, IfOk, IfErr, OnOk};
ghost use Rattle.xds_resource.specs.PerType.{at, with_at};
ghost use Rattle.xds_resource.specs.TypedWrites.{TypedWrite};
ghost use Rattle.xds_resource.specs.Writes.{StampedWrite};
ghost use Rattle.xds_causes.specs.WriteLines.{IsWriteLine};
ghost use Rattle.xds_changes.specs.WriteLines.{AreWritesIn, IsBadLine, RefusesWriteLine, following, left_at, line_of, text_of};

use std::alloc::Global;
use std::mem;
use xds_causes::LineFault;
use xds_message::{Batch, WriteReader, write_object};
use xds_resource::{Refusal, TypeName};
use xds_script::lines::{split_line, without_last_feed};

/// The batch of the writes that the lines of a body spell, each in a line; no byte is no line. The first line that spells none is told:
/// `NotJson`, `BadMessage`, or `OutOfMemory`.
pub fn read_batch(alloc: Global, body: &[u8]) -> Result<Batch, LineFault>
    ensures writes { IfOk result (λ b. AreWritesIn body.now b) }
    ensures fault { IfErr result (λ f. IsBadLine body.now f.line f.refusal) }
{
    if body.is_empty() {
        return Ok(Batch::new(alloc));
    }
    let mut batch = Batch::new(alloc);
    let mut reader = WriteReader::new(alloc);
    let mut line = 1;
    let mut left = without_last_feed(body);
    while let Some((bytes, following)) = split_line(left) {
        if let Err(refusal) = take_write(alloc, &mut reader, &mut batch, bytes) {
            drop(batch);
            return Err(LineFault { line, refusal });
        }
        left = following;
        line += 1;
    }
    take_last(alloc, reader, batch, left, line)
}

// Adds the write that a line spells.
fn take_write(
    alloc: Global,
    reader: &mut WriteReader,
    batch: &mut Batch,
    line: &[u8],
) -> Result<(), Refusal>
    ensures taken { OnOk result ((x : TypedWrite) × IsWriteLine line.now x × (batch.new ≡ with_at batch.old x.0 (at batch.old x.0 ++ x.1 ∷ []))) }
    ensures refused { IfErr result (λ e. RefusesWriteLine line.now e) }
{
    let write = reader.read(alloc, line)?;
    batch.push(write)
}

// The batch with the write that the last line spells, which has this number.
fn take_last(
    alloc: Global,
    reader: WriteReader,
    batch: Batch,
    last: &[u8],
    line: usize,
) -> Result<Batch, LineFault>
    ensures taken { IfOk result (λ b. (x : TypedWrite) × IsWriteLine last.now x × (b ≡ with_at batch x.0 (at batch x.0 ++ x.1 ∷ []))) }
    ensures refused { IfErr result (λ f. (f.line ≡ line) × RefusesWriteLine last.now f.refusal) }
{
    let mut reader = reader;
    let mut batch = batch;
    match take_write(alloc, &mut reader, &mut batch, last) {
        Ok(()) => Ok(batch),
        Err(refusal) => {
            drop(batch);
            Err(LineFault { line, refusal })
        }
    }
}

/// The line of a write of a batch, with its line feed.
pub fn line_at(
    alloc: Global,
    batch: &Batch,
    kind: TypeName,
    index: usize,
) -> Result<String, Refusal>
    requires { index < length (at batch.now kind) }
    ensures line { IfOk result (λ t. (d : StampedWrite) → string_bytes t ≡ line_of kind (get_or (at batch.now kind) index d)) }
{
    let write = batch.write_at(alloc, kind, index)?;
    let value = write_object(alloc, &write)?;
    let mut line = value.to_string(alloc)?;
    line.push_str("\n")?;
    Ok(line)
}

// Adds the line of a write of a batch to a text.
fn push_line(
    alloc: Global,
    batch: &Batch,
    kind: TypeName,
    index: usize,
    text: &mut String,
) -> Result<(), Refusal>
    requires { index < length (at batch.now kind) }
    ensures line { OnOk result ((d : StampedWrite) → string_bytes text.new ≡ string_bytes text.old ++ line_of kind (get_or (at batch.now kind) index d)) }
{
    let line = line_at(alloc, batch, kind, index)?;
    text.push_str(line.as_str())?;
    Ok(())
}

// The type behind this one in the types' table.
fn following(kind: TypeName) -> Option<TypeName>
    ensures { result ≡ following kind }
{
    match kind {
        TypeName::Cluster => Some(TypeName::Endpoint),
        TypeName::Endpoint => Some(TypeName::Listener),
        TypeName::Listener => Some(TypeName::Route),
        TypeName::Route => Some(TypeName::Secret),
        TypeName::Secret => None,
    }
}

/// The writes of a batch as lines, which are made a few at a time.
pub struct Lines {
    batch: Batch,
    // The type at work, none once all lines are made, and how many of its lines are made.
    kind: Option<TypeName>,
    index: usize,
    text: String,
}

// Written out: docs/PROVING.md, "Drops".
impl Drop for Lines {
    fn drop(self) {
        let Lines {
            batch: _,
            kind: _,
            index: _,
            text: _,
        } = self;
    }
}

impl Lines {
    /// Those of this batch, of which none is made.
    pub fn of(alloc: Global, batch: Batch) -> Lines
        ensures { string_bytes result.text ++ left_at result.batch result.kind result.index ≡ text_of batch }
    {
        Lines {
            batch,
            kind: Some(TypeName::Cluster),
            index: 0,
            text: String::new(alloc),
        }
    }

    /// Makes so many lines more at most. Answers whether all are made.
    pub fn make(&mut self, alloc: Global, most: usize) -> Result<bool, Refusal>
        ensures lines { OnOk result (string_bytes self.new.text ++ left_at self.new.batch self.new.kind self.new.index ≡ string_bytes self.old.text ++ left_at self.old.batch self.old.kind self.old.index) }
        ensures over { result ≡ Ok true → left_at self.new.batch self.new.kind self.new.index ≡ [] }
    {
        for _ in 0..most {
            if self.make_one(alloc)? {
                return Ok(true);
            }
        }
        Ok(false)
    }

    // Makes the next line, or goes on to the next type. Answers whether all are made.
    fn make_one(&mut self, alloc: Global) -> Result<bool, Refusal>
        ensures lines { OnOk result (string_bytes self.new.text ++ left_at self.new.batch self.new.kind self.new.index ≡ string_bytes self.old.text ++ left_at self.old.batch self.old.kind self.old.index) }
        ensures over { result ≡ Ok true → left_at self.new.batch self.new.kind self.new.index ≡ [] }
    {
        let Some(kind) = self.kind else {
            return Ok(true);
        };
        if self.index < self.batch.len_of(kind) {
            push_line(alloc, &self.batch, kind, self.index, &mut self.text)?;
            self.index += 1;
        } else {
            self.kind = following(kind);
            self.index = 0;
        }
        Ok(false)
    }

    /// The lines that are made. Then none are held.
    pub fn take(&mut self, alloc: Global) -> String
        ensures { string_bytes result ≡ string_bytes self.old.text }
    {
        mem::replace(&mut self.text, String::new(alloc))
    }
}
