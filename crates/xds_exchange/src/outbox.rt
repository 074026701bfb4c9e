// A batch that waits to be sent, part by part.
ghost use Rattle.std.specs.Prelude.{◌≡◌, ◌<◌, ◌++◌, [], map, length, get_or, take, All, IfSome, IfOk, IfErr, OnOk, OnErr};
ghost use Rattle.xds_resource.specs.PerType.{at};
ghost use Rattle.xds_resource.specs.Writes.{StampedWrite};
ghost use Rattle.xds_resource.specs.declared.refusal.Refusal.TheVariants.{OutOfMemory};
ghost use Rattle.xds_frames.specs.Frames.{IsFrame};
ghost use Rattle.xds_message.specs.Batches.{by_type, in_order, typed, IsSound};
ghost use Rattle.xds_exchange.specs.Parts.{typed_write, batch_frame, IsNextPart, IsFirstPart};

use crate::weighing::weight_of;
use std::alloc::Global;
use std::marker::Model;
use std::mem;
use xds_message::Batch;
use xds_resource::{AnyWrite, Refusal, TypeName};

/// The most writes of a part.
pub const MAX_WRITES: usize = 512;

/// The most bytes of bodies and of lists of groups, as they are written, of a part.
pub const MAX_BYTES: usize = 8_388_608;

/// A batch that waits to be sent in parts, each of which fits a frame.
pub struct Outbox {
    // All writes of the batch, by type in the table's order.
    writes: Vec<AnyWrite>,
    // How many of them were given.
    given: usize,
    alloc: Global,
}

// Written out: docs/PROVING.md, "Drops".
impl Drop for Outbox {
    fn drop(self) {
        let Outbox {
            writes: _,
            given: _,
            alloc: _,
        } = self;
    }
}

impl Model for Outbox {
    ghost use Rattle.std.specs.Prelude.{List, ◌≤◌, map, length, drop};
    ghost use Rattle.xds_resource.specs.TypedWrites.{TypedWrite};
    ghost use Rattle.xds_exchange.specs.Parts.{typed_write};

    ghost Value = { List TypedWrite };

    ghost view = { λ o. map typed_write (drop o.given o.writes.items) };

    ghost invariant = { λ o. o.given ≤ length o.writes.items };
}

impl Outbox {
    /// An outbox with nothing in it.
    pub fn new(alloc: Global) -> Outbox
        ensures { result ≡ [] }
    {
        Outbox {
            writes: Vec::new(alloc),
            given: 0,
            alloc,
        }
    }

    /// Puts a batch in, in place of what is left of one before: its writes by type in the table's order, and those of a
    /// type in their order. Refused only by `OutOfMemory`, with nothing changed.
    pub fn fill(&mut self, batch: Batch) -> Result<(), Refusal>
        ensures ok { OnOk result (self.new ≡ in_order batch) }
        ensures err { OnErr result (self.new ≡ self.old) }
        ensures refused { IfErr result (λ e. e ≡ OutOfMemory) }
    {
        let writes = all_writes(self.alloc, &batch)?;
        drop(mem::replace(&mut self.writes, writes));
        self.given = 0;
        Ok(())
    }

    /// How many writes are left.
    pub fn len(&self) -> usize
        ensures { result ≡ length self.now }
    {
        self.writes.len() - self.given
    }

    /// The next part of the batch, or none where all was given. A part takes writes in order until it has 512 of them,
    /// or until the next one would bring the bytes of its bodies and lists of groups over 8,388,608. No body is copied, and
    /// the batch's text fits a frame. Refused only by `OutOfMemory`, with nothing changed.
    pub fn next_part(&mut self) -> Result<Option<Batch>, Refusal>
        ensures ok { IfOk result (λ part. IsNextPart self.old part self.new) }
        ensures fits { IfOk result (λ part. IfSome part (λ b. IsFrame (batch_frame b))) }
        ensures err { OnErr result (self.new ≡ self.old) }
        ensures refused { IfErr result (λ e. e ≡ OutOfMemory) }
    {
        let left = &self.writes[self.given..];
        let len = part_len(self.alloc, left)?;
        if len == 0 {
            return Ok(None);
        }
        let part = batch_of(self.alloc, &left[..len])?;
        self.given += len;
        Ok(Some(part))
    }
}

// How many writes the first part takes.
fn part_len(alloc: Global, writes: &[AnyWrite]) -> Result<usize, Refusal>
    ensures ok { IfOk result (IsFirstPart (map typed_write writes.now)) }
    ensures sound { IfOk result (λ n. All IsSound (take n (map typed_write writes.now))) }
    ensures refused { IfErr result (λ e. e ≡ OutOfMemory) }
{
    let mut len = 0;
    let mut bytes = 0;
    for write in writes {
        if len == MAX_WRITES {
            return Ok(len);
        }
        let weight = weight_of(alloc, write)?;
        if bytes + weight > MAX_BYTES {
            return Ok(len);
        }
        bytes += weight;
        len += 1;
    }
    Ok(len)
}

// The batch of some writes.
fn batch_of(alloc: Global, writes: &[AnyWrite]) -> Result<Batch, Refusal>
    ensures ok { IfOk result (λ b. b ≡ by_type (map typed_write writes.now)) }
    ensures refused { IfErr result (λ e. e ≡ OutOfMemory) }
{
    let mut batch = Batch::new(alloc);
    for write in writes {
        batch.push(write.try_copy(alloc)?)?;
    }
    Ok(batch)
}

// All writes of a batch, in order.
fn all_writes(alloc: Global, batch: &Batch) -> Result<Vec<AnyWrite>, Refusal>
    ensures ok { IfOk result (λ v. map typed_write v.items ≡ in_order batch.now) }
    ensures refused { IfErr result (λ e. e ≡ OutOfMemory) }
{
    let mut all = Vec::new(alloc);
    push_all(alloc, &mut all, batch, TypeName::Cluster)?;
    push_all(alloc, &mut all, batch, TypeName::Endpoint)?;
    push_all(alloc, &mut all, batch, TypeName::Listener)?;
    push_all(alloc, &mut all, batch, TypeName::Route)?;
    push_all(alloc, &mut all, batch, TypeName::Secret)?;
    Ok(all)
}

// Adds the writes of one type at the end.
fn push_all(
    alloc: Global,
    all: &mut Vec<AnyWrite>,
    batch: &Batch,
    kind: TypeName,
) -> Result<(), Refusal>
    ensures ok { OnOk result
        (map typed_write all.new.items ≡ map typed_write all.old.items ++ typed kind (at batch.now kind)) }
    ensures refused { IfErr result (λ e. e ≡ OutOfMemory) }
{
    for index in 0..batch.len_of(kind) {
        all.push(batch.write_at(alloc, kind, index)?)?;
    }
    Ok(())
}
