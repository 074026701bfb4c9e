// What is left to be written of a response's frame, with the texts of resources where they are stored.
ghost use Rattle.std.specs.Prelude.{◌≡◌, ◌<◌, ◌≤◌, ◌==◌, ◌++◌, [], length, map, drop, string_bytes, vec_capacity, IfOk, IfErr};
ghost use Rattle.xds_resource.specs.declared.refusal.Refusal.TheVariants.{OutOfMemory};
ghost use Rattle.xds_frames.specs.Frames.{longest};
ghost use Rattle.xds_message.specs.Drafts.{body_text};
ghost use Rattle.xds_message.specs.Joined.{with_commas};
ghost use Rattle.xds_message.specs.Pieces.{resource_text};
ghost use Rattle.xds_message.specs.Unsent.{IsFrontOf, IsHeld};

use crate::body::Body;
use crate::delta_draft::DraftResource;
use crate::filling::{LeftText, Texts};
use crate::pieces::Stored;
use crate::stated::{Bodies, Resources, Stated};
use std::alloc::Global;
use std::marker::Model;
use std::sync::ArcStr;
use xds_resource::Refusal;

/// What is left to be written of a frame. The texts of resources are where they are stored: as many bytes as a block has room for
/// are gathered in it at a time, and texts that were joined for many responses are written as they stand. Once it is made it takes no
/// memory. Contracts see the bytes that are left.
pub struct Unsent {
    block: Vec<u8>,
    // How many bytes of the block were written.
    at: usize,
    // One of these three at most has something.
    joined: LeftText,
    resources: Texts<DraftResource>,
    bodies: Texts<Body>,
    tail: LeftText,
}

// Written out: docs/PROVING.md, "Drops".
impl Drop for Unsent {
    fn drop(self) {
        let Unsent {
            block: _,
            at: _,
            joined: _,
            resources: _,
            bodies: _,
            tail: _,
        } = self;
    }
}

impl Model for Unsent {
    ghost use Rattle.std.specs.Prelude.{ℕ, List, ◌++◌, drop, vec_capacity};
    ghost use Rattle.xds_message.specs.Unsent.{IsHeld};

    ghost Value = { List ℕ };

    ghost view = { λ u. drop u.at u.block.items ++ (u.joined ++ (u.resources ++ (u.bodies ++ u.tail))) };

    ghost invariant = { λ u. IsHeld u.block.items (vec_capacity u.block) u.at u.joined (u.resources ++ (u.bodies ++ u.tail)) };
}

impl Unsent {
    /// Nothing. It takes no memory.
    pub fn none(alloc: Global) -> Unsent
        ensures { result ≡ [] }
    {
        Unsent {
            block: Vec::new(alloc),
            at: 0,
            joined: LeftText::none(),
            resources: Texts::none(),
            bodies: Texts::none(),
            tail: LeftText::none(),
        }
    }

    /// Whether nothing is left.
    pub fn is_empty(&self) -> bool
        ensures { result ≡ (length self.now == 0) }
    {
        self.chunk().is_empty()
    }

    /// The bytes that come next and lie together.
    pub fn chunk(&self) -> &[u8]
        ensures { IsFrontOf result.now self.now }
    {
        if self.at < self.block.len() {
            return &self.block.as_slice()[self.at..];
        }
        self.joined.left()
    }

    /// Passes so many bytes, which were written.
    pub fn advance(&mut self, count: usize)
        requires { count ≤ length self.old }
        ensures { self.new ≡ drop count self.old }
    {
        let mut left = count;
        while left > 0 {
            left -= self.pass(left);
        }
    }

    // Passes bytes that lie together, of so many at most, and answers how many.
    fn pass(&mut self, most: usize) -> usize
        requires { most ≤ length self.old }
        ensures most { result ≤ most }
        ensures some { 0 < most → 0 < result }
        ensures left { self.new ≡ drop result self.old }
    {
        let held = self.block.len() - self.at;
        if held > 0 {
            let count = most.min(held);
            self.at = filled(
                &mut self.block,
                self.at + count,
                &self.joined,
                &mut self.resources,
                &mut self.bodies,
                &mut self.tail,
            );
            return count;
        }
        let count = most.min(self.joined.left().len());
        self.joined.pass(count);
        self.at = filled(
            &mut self.block,
            self.at,
            &self.joined,
            &mut self.resources,
            &mut self.bodies,
            &mut self.tail,
        );
        count
    }

    /// A frame of which a block holds the beginning, with stored bodies between two texts, or how they read together where that was
    /// made. Refused only by `OutOfMemory`.
    pub(crate) fn around(
        block: Vec<u8>,
        head: String,
        bodies: &Bodies,
        tail: String,
    ) -> Result<Unsent, Refusal>
        requires { length (with_commas (map body_text bodies.now)) ≤ longest }
        ensures ok { IfOk result (λ u. u ≡ block.items ++ (string_bytes head ++ (with_commas (map body_text bodies.now) ++ string_bytes tail))) }
        ensures refused { IfErr result (λ e. e ≡ OutOfMemory) }
    {
        let (joined, texts) = said_or_stored(bodies)?;
        begun(block, head, joined, Texts::none(), texts, tail)
    }

    /// The same with resources with their names and versions.
    pub(crate) fn around_resources(
        block: Vec<u8>,
        head: String,
        resources: &Resources,
        tail: String,
    ) -> Result<Unsent, Refusal>
        requires { length (with_commas (map resource_text resources.now)) ≤ longest }
        ensures ok { IfOk result (λ u. u ≡ block.items ++ (string_bytes head ++ (with_commas (map resource_text resources.now) ++ string_bytes tail))) }
        ensures refused { IfErr result (λ e. e ≡ OutOfMemory) }
    {
        let (joined, texts) = said_or_stored(resources)?;
        begun(block, head, joined, texts, Texts::none(), tail)
    }
}

// Stored texts: how they read together, where that was made, and else each.
fn said_or_stored<S: Stored>(stated: &Stated<S>) -> Result<(LeftText, Texts<S>), Refusal>
    requires { length (with_commas (map S.text stated.now)) ≤ longest }
    ensures ok { IfOk result (λ r. r.0 ++ r.1 ≡ with_commas (map S.text stated.now)) }
    ensures refused { IfErr result (λ e. e ≡ OutOfMemory) }
{
    if let Some(text) = stated.shared_text()? {
        return Ok((LeftText::of(text), Texts::none()));
    }
    Ok((LeftText::none(), Texts::of(stated.shared_list()?)))
}

// A frame of which a block holds the beginning, and these texts stand behind it.
fn begun(
    block: Vec<u8>,
    head: String,
    joined: LeftText,
    resources: Texts<DraftResource>,
    bodies: Texts<Body>,
    tail: String,
) -> Result<Unsent, Refusal>
    ensures ok { IfOk result (λ u. u ≡ block.items ++ (string_bytes head ++ (joined ++ (resources ++ (bodies ++ string_bytes tail))))) }
    ensures refused { IfErr result (λ e. e ≡ OutOfMemory) }
{
    let mut block = block;
    let mut joined = joined;
    let mut resources = resources;
    let mut bodies = bodies;
    block.extend_from_slice(head.as_bytes())?;
    block.reserve(1)?;
    let mut tail = LeftText::of(ArcStr::from_string(tail)?);
    fill_first(
        &mut block,
        &mut joined,
        &mut resources,
        &mut bodies,
        &mut tail,
    );
    Ok(Unsent {
        block,
        at: 0,
        joined,
        resources,
        bodies,
        tail,
    })
}

// Moves as much as there is room for behind what a block holds, for the first time: a joined text as a whole or not at all.
fn fill_first(
    block: &mut Vec<u8>,
    joined: &mut LeftText,
    resources: &mut Texts<DraftResource>,
    bodies: &mut Texts<Body>,
    tail: &mut LeftText,
)
    requires { length block.old.items < vec_capacity block.old }
    ensures moved { block.new.items ++ (joined.new ++ (resources.new ++ (bodies.new ++ tail.new)))
        ≡ block.old.items ++ (joined.old ++ (resources.old ++ (bodies.old ++ tail.old))) }
    ensures held { IsHeld block.new.items (vec_capacity block.new) 0 joined.new (resources.new ++ (bodies.new ++ tail.new)) }
{
    if joined.left().len() > block.capacity() - block.len() {
        return;
    }
    joined.fill(block);
    if !joined.left().is_empty() {
        return;
    }
    fill(block, resources, bodies, tail);
}

// Fills a block again from what stands behind it, where all of it and of the joined text was passed. Answers how much of it was passed.
fn filled(
    block: &mut Vec<u8>,
    at: usize,
    joined: &LeftText,
    resources: &mut Texts<DraftResource>,
    bodies: &mut Texts<Body>,
    tail: &mut LeftText,
) -> usize
    requires within { at ≤ length block.old.items }
    requires room { vec_capacity block.old ≡ 0 → resources.old ++ (bodies.old ++ tail.old) ≡ [] }
    ensures left { drop result block.new.items ++ (joined.now ++ (resources.new ++ (bodies.new ++ tail.new)))
        ≡ drop at block.old.items ++ (joined.now ++ (resources.old ++ (bodies.old ++ tail.old))) }
    ensures held { IsHeld block.new.items (vec_capacity block.new) result joined.now (resources.new ++ (bodies.new ++ tail.new)) }
{
    if at < block.len() {
        return at;
    }
    if !joined.left().is_empty() {
        return at;
    }
    block.clear();
    fill(block, resources, bodies, tail);
    0
}

// Moves as much as there is room for behind what a block holds. It takes no memory.
fn fill(
    block: &mut Vec<u8>,
    resources: &mut Texts<DraftResource>,
    bodies: &mut Texts<Body>,
    tail: &mut LeftText,
)
    ensures moved { block.new.items ++ (resources.new ++ (bodies.new ++ tail.new)) ≡ block.old.items ++ (resources.old ++ (bodies.old ++ tail.old)) }
    ensures grown { vec_capacity block.old ≤ vec_capacity block.new }
    ensures full { length block.new.items < vec_capacity block.new → resources.new ++ (bodies.new ++ tail.new) ≡ [] }
{
    resources.fill(block);
    if block.len() >= block.capacity() {
        return;
    }
    bodies.fill(block);
    if block.len() >= block.capacity() {
        return;
    }
    tail.fill(block);
}
