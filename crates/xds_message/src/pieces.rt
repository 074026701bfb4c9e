// The text of a response in pieces, and how it is written piece by piece.
ghost use Rattle.std.specs.Prelude.{◌≡◌, ◌<◌, ◌≤◌, ◌+◌, ◌++◌, length, map, string_bytes, IfSome, IfNone, IfErr, OnOk};
ghost use Rattle.xds_resource.specs.declared.refusal.Refusal.TheVariants as refusals;
ghost use Rattle.xds_frames.specs.Devices.{Wrote, WrotePart, seen};
ghost use Rattle.xds_frames.specs.Gathering.{Passes};
ghost use Rattle.xds_message.specs.Drafts.{body_text};
ghost use Rattle.xds_message.specs.Joined.{with_commas};
ghost use Rattle.xds_message.specs.Pieces.{comma_before, resource_text};

use crate::body::Body;
use crate::delta_draft::DraftResource;
use crate::stated::{Bodies, Resources};
use std::alloc::Global;
use std::io::Write;
use std::marker::Model;
use xds_frames::{Counted, gather, write_bytes};
use xds_resource::Refusal;

/// A stored text in pieces that follow one another.
#[derive(Clone, Copy)]
pub struct Parts<'a> {
    pub(crate) head: &'a str,
    pub(crate) body: &'a str,
    pub(crate) tail: &'a str,
}

/// What has a compact text that is stored, in pieces.
pub trait Stored: Drop {
    ghost use Rattle.std.specs.Prelude.{◌≡◌, ◌++◌, List, ℕ};

    // The text.
    ghost text: { Self → List ℕ };

    /// The pieces of the text.
    fn parts(&self) -> Parts<'_>
        ensures { result.head.now ++ (result.body.now ++ result.tail.now) ≡ text self.now };
}

/// A text in pieces: what stands before the texts of resources, these with commas between them, and what stands behind. The texts of
/// resources are where they are stored, so the whole is nowhere in memory. Contracts see the whole.
#[derive(Drop)]
pub struct Pieces<'a> {
    head: String,
    // One of these three at most has something.
    joined: &'a str,
    resources: &'a [DraftResource],
    bodies: &'a [Body],
    tail: String,
}

impl<'a> Model for Pieces<'a> {
    ghost use Rattle.std.specs.Prelude.{ℕ, List, ◌++◌, map, string_bytes};
    ghost use Rattle.xds_message.specs.Drafts.{body_text};
    ghost use Rattle.xds_message.specs.Joined.{with_commas};
    ghost use Rattle.xds_message.specs.Pieces.{resource_text};

    ghost Value = { List ℕ };

    ghost view = { λ p. string_bytes p.head ++ ((p.joined.now ++ (with_commas (map resource_text p.resources.now) ++ with_commas (map body_text p.bodies.now))) ++ string_bytes p.tail) };
}

impl<'a> Pieces<'a> {
    /// Round stored bodies, or round how they read together where that was made.
    pub(crate) fn around(head: String, bodies: &'a Bodies, tail: String) -> Pieces<'a>
        ensures { result ≡ string_bytes head ++ (with_commas (map body_text bodies.now) ++ string_bytes tail) }
    {
        let (joined, bodies): (&'a str, &'a [Body]) = match bodies.joined() {
            Some(text) => (text, &[]),
            None => ("", bodies.as_slice()),
        };
        Pieces {
            head,
            joined,
            resources: &[],
            bodies,
            tail,
        }
    }

    /// The same round resources with their names and versions.
    pub(crate) fn around_resources(
        head: String,
        resources: &'a Resources,
        tail: String,
    ) -> Pieces<'a>
        ensures { result ≡ string_bytes head ++ (with_commas (map resource_text resources.now) ++ string_bytes tail) }
    {
        let (joined, resources): (&'a str, &'a [DraftResource]) = match resources.joined() {
            Some(text) => (text, &[]),
            None => ("", resources.as_slice()),
        };
        Pieces {
            head,
            joined,
            resources,
            bodies: &[],
            tail,
        }
    }

    /// Puts a text behind. Refused only by `OutOfMemory`.
    pub fn push(&mut self, text: &str) -> Result<(), Refusal>
        ensures ok { OnOk result (self.new ≡ self.old ++ text.now) }
        ensures refused { IfErr result (λ e. e ≡ refusals.OutOfMemory) }
    {
        self.tail.push_str(text)?;
        Ok(())
    }

    /// The length of the whole, unless it is more than a limit. It takes no memory.
    pub fn length_up_to(&self, limit: usize) -> Option<usize>
        ensures within { IfSome result (λ n. n ≡ length self.now) }
        ensures beyond { IfNone result (limit < length self.now) }
    {
        let head = counted(0, self.head.as_bytes(), limit)?;
        let joined = counted(head, self.joined.as_bytes(), limit)?;
        let resources = items_counted(joined, self.resources, limit)?;
        let bodies = items_counted(resources, self.bodies, limit)?;
        counted(bodies, self.tail.as_bytes(), limit)
    }

    /// Whether the texts of resources are written as one, for which a block needs no room.
    pub fn is_joined(&self) -> bool {
        !self.joined.is_empty()
    }

    /// Writes what a block holds, and the whole behind it, in pieces that fill the block. It takes no memory. Where a call of the
    /// writer fails, `Device` is answered, and a beginning of all these bytes was written.
    pub fn write<W: Write>(&self, writer: &mut Counted<W>, block: Vec<u8>) -> Result<(), Refusal>
        ensures written { OnOk result (Wrote (seen W.contents writer.old writer.new) (block.items ++ self.now)) }
        ensures none_failed { OnOk result (writer.new.failed ≡ writer.old.failed) }
        ensures failed { IfErr result (λ e. (e ≡ refusals.Device)
            × WrotePart (seen W.contents writer.old writer.new) (block.items ++ self.now)) }
    {
        let mut block = block;
        if let Err(refusal) = gather(writer, &mut block, self.head.as_bytes()) {
            return Err(refusal);
        }
        if let Err(refusal) = put_middle(
            writer,
            &mut block,
            self.joined,
            self.resources,
            self.bodies,
        ) {
            return Err(refusal);
        }
        if let Err(refusal) = gather(writer, &mut block, self.tail.as_bytes()) {
            return Err(refusal);
        }
        if let Err(refusal) = write_bytes(writer, block.as_slice()) {
            return Err(refusal);
        }
        Ok(())
    }
}

// Puts a text, and resources and bodies behind it, each with commas between them.
fn put_middle<W: Write>(
    writer: &mut Counted<W>,
    block: &mut Vec<u8>,
    joined: &str,
    resources: &[DraftResource],
    bodies: &[Body],
) -> Result<(), Refusal>
    ensures put { OnOk result (Passes (seen W.contents writer.old writer.new) block.old.items
        (joined.now ++ (with_commas (map resource_text resources.now) ++ with_commas (map body_text bodies.now))) block.new.items) }
    ensures failed { IfErr result (λ e. (e ≡ refusals.Device) × WrotePart (seen W.contents writer.old writer.new)
        (block.old.items ++ (joined.now ++ (with_commas (map resource_text resources.now) ++ with_commas (map body_text bodies.now))))) }
{
    if let Err(refusal) = gather(writer, block, joined.as_bytes()) {
        return Err(refusal);
    }
    if let Err(refusal) = put_lists(writer, block, resources, bodies) {
        return Err(refusal);
    }
    Ok(())
}

// Puts resources and bodies, each with commas between them.
fn put_lists<W: Write>(
    writer: &mut Counted<W>,
    block: &mut Vec<u8>,
    resources: &[DraftResource],
    bodies: &[Body],
) -> Result<(), Refusal>
    ensures put { OnOk result (Passes (seen W.contents writer.old writer.new) block.old.items
        (with_commas (map resource_text resources.now) ++ with_commas (map body_text bodies.now)) block.new.items) }
    ensures failed { IfErr result (λ e. (e ≡ refusals.Device) × WrotePart (seen W.contents writer.old writer.new)
        (block.old.items ++ (with_commas (map resource_text resources.now) ++ with_commas (map body_text bodies.now)))) }
{
    if let Err(refusal) = put_items(writer, block, resources) {
        return Err(refusal);
    }
    if let Err(refusal) = put_items(writer, block, bodies) {
        return Err(refusal);
    }
    Ok(())
}

// Puts stored texts with commas between them.
fn put_items<S: Stored, W: Write>(
    writer: &mut Counted<W>,
    block: &mut Vec<u8>,
    items: &[S],
) -> Result<(), Refusal>
    ensures put { OnOk result (Passes (seen W.contents writer.old writer.new) block.old.items (with_commas (map S.text items.now)) block.new.items) }
    ensures failed { IfErr result (λ e. (e ≡ refusals.Device)
        × WrotePart (seen W.contents writer.old writer.new) (block.old.items ++ with_commas (map S.text items.now))) }
{
    let mut later = false;
    for item in items {
        if let Err(refusal) = put_item(writer, block, later, item) {
            return Err(refusal);
        }
        later = true;
    }
    Ok(())
}

// Puts a stored text, and a comma before it where one stands before.
fn put_item<S: Stored, W: Write>(
    writer: &mut Counted<W>,
    block: &mut Vec<u8>,
    later: bool,
    item: &S,
) -> Result<(), Refusal>
    ensures put { OnOk result (Passes (seen W.contents writer.old writer.new) block.old.items (comma_before later ++ S.text item.now) block.new.items) }
    ensures failed { IfErr result (λ e. (e ≡ refusals.Device)
        × WrotePart (seen W.contents writer.old writer.new) (block.old.items ++ (comma_before later ++ S.text item.now))) }
{
    let parts = item.parts();
    if let Err(refusal) = put_two(writer, block, comma(later), parts.head.as_bytes()) {
        return Err(refusal);
    }
    if let Err(refusal) = put_two(writer, block, parts.body.as_bytes(), parts.tail.as_bytes()) {
        return Err(refusal);
    }
    Ok(())
}

// Puts bytes, and more behind them.
fn put_two<W: Write>(
    writer: &mut Counted<W>,
    block: &mut Vec<u8>,
    first: &[u8],
    second: &[u8],
) -> Result<(), Refusal>
    ensures put { OnOk result (Passes (seen W.contents writer.old writer.new) block.old.items (first.now ++ second.now) block.new.items) }
    ensures failed { IfErr result (λ e. (e ≡ refusals.Device)
        × WrotePart (seen W.contents writer.old writer.new) (block.old.items ++ (first.now ++ second.now))) }
{
    if let Err(refusal) = gather(writer, block, first) {
        return Err(refusal);
    }
    if let Err(refusal) = gather(writer, block, second) {
        return Err(refusal);
    }
    Ok(())
}

// The bytes that stand before a text: a comma, where one stands before.
pub(crate) fn comma(later: bool) -> &'static [u8]
    ensures { result.now ≡ comma_before later }
{
    if later { b"," } else { b"" }
}

// A count of bytes with more of them, unless these are more than a limit.
fn counted(count: usize, bytes: &[u8], limit: usize) -> Option<usize>
    requires { count ≤ limit }
    ensures within { IfSome result (λ n. n ≡ count + length bytes.now) }
    ensures bounded { IfSome result (λ n. n ≤ limit) }
    ensures beyond { IfNone result (limit < count + length bytes.now) }
{
    if bytes.len() > limit - count {
        return None;
    }
    Some(count + bytes.len())
}

// The same with two texts.
fn two_counted(count: usize, first: &[u8], second: &[u8], limit: usize) -> Option<usize>
    requires { count ≤ limit }
    ensures within { IfSome result (λ n. n ≡ count + length (first.now ++ second.now)) }
    ensures bounded { IfSome result (λ n. n ≤ limit) }
    ensures beyond { IfNone result (limit < count + length (first.now ++ second.now)) }
{
    let before = counted(count, first, limit)?;
    counted(before, second, limit)
}

// A count of bytes with those of a stored text, and of a comma before it where one stands before.
fn item_counted<S: Stored>(count: usize, later: bool, item: &S, limit: usize) -> Option<usize>
    requires { count ≤ limit }
    ensures within { IfSome result (λ n. n ≡ count + length (comma_before later ++ S.text item.now)) }
    ensures bounded { IfSome result (λ n. n ≤ limit) }
    ensures beyond { IfNone result (limit < count + length (comma_before later ++ S.text item.now)) }
{
    let parts = item.parts();
    let before = two_counted(count, comma(later), parts.head.as_bytes(), limit)?;
    two_counted(before, parts.body.as_bytes(), parts.tail.as_bytes(), limit)
}

/// A count of bytes with those of stored texts with commas between them, unless these are more than a limit.
pub(crate) fn items_counted<S: Stored>(count: usize, items: &[S], limit: usize) -> Option<usize>
    requires { count ≤ limit }
    ensures within { IfSome result (λ n. n ≡ count + length (with_commas (map S.text items.now))) }
    ensures bounded { IfSome result (λ n. n ≤ limit) }
    ensures beyond { IfNone result (limit < count + length (with_commas (map S.text items.now))) }
{
    let mut all = count;
    let mut later = false;
    for item in items {
        all = item_counted(all, later, item, limit)?;
        later = true;
    }
    Some(all)
}
