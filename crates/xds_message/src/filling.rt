// Stored texts that are copied into a block as far as it has room, from a place in them on.
ghost use Rattle.std.specs.Prelude.{◌≡◌, ◌<◌, ◌≤◌, ◌+◌, ◌++◌, [], length, map, take, drop, vec_capacity, IfOk, IfErr, MatchOption};
ghost use Rattle.std.specs.Arc.{arc_slice_items, arc_str_bytes};
ghost use Rattle.xds_frames.specs.Frames.{longest};
ghost use Rattle.xds_message.specs.Joined.{with_commas};
ghost use Rattle.xds_message.specs.Pieces.{comma_before};
ghost use Rattle.xds_message.specs.Unsent.{IsFrontOf, IsPlaceIn, all_of, left_at};

use crate::pieces::{Parts, Stored, comma};
use std::alloc::Global;
use std::marker::Model;
use std::sync::{ArcSlice, ArcStr};

/// A place in stored texts with commas between them: as many texts were passed, and as many bytes of the next with its comma.
#[derive(Clone, Copy)]
pub(crate) struct TextPlace {
    // Whether a comma stands before the next.
    pub(crate) later: bool,
    pub(crate) next: usize,
    pub(crate) offset: usize,
}

/// Stored texts with commas between them, as far as they weren't passed. Contracts see what is left.
#[derive(Drop)]
pub(crate) struct Texts<S: Stored> {
    items: Option<ArcSlice<S, Global>>,
    at: TextPlace,
}

impl<S: Stored> Model for Texts<S> {
    ghost use Rattle.std.specs.Prelude.{ℕ, List};
    ghost use Rattle.std.specs.Coded.{coded_ℕ, coded_list};
    ghost use Rattle.std.specs.Arc.{arc_slice_items};
    ghost use Rattle.xds_message.specs.Unsent.{IsPlaceIn, all_of, left_at};

    ghost Value = { List ℕ };

    ghost coded = { coded_list coded_ℕ };

    ghost view = { λ t. left_at S.text (all_of arc_slice_items t.items) t.at };

    ghost invariant = { λ t. IsPlaceIn S.text (all_of arc_slice_items t.items) t.at };
}

impl<S: Stored> Texts<S> {
    /// None.
    pub(crate) fn none() -> Texts<S>
        ensures { result ≡ [] }
    {
        Texts {
            items: None,
            at: TextPlace {
                later: false,
                next: 0,
                offset: 0,
            },
        }
    }

    /// These, none of which was passed.
    pub(crate) fn of(items: ArcSlice<S, Global>) -> Texts<S>
        requires { length (with_commas (map S.text (arc_slice_items items))) ≤ longest }
        ensures { result ≡ with_commas (map S.text (arc_slice_items items)) }
    {
        Texts {
            items: Some(items),
            at: TextPlace {
                later: false,
                next: 0,
                offset: 0,
            },
        }
    }

    /// Moves as much of them as there is room for behind what a block holds. It takes no memory.
    pub(crate) fn fill(&mut self, block: &mut Vec<u8>)
        ensures moved { block.new.items ++ self.new ≡ block.old.items ++ self.old }
        ensures grown { vec_capacity block.old ≤ vec_capacity block.new }
        ensures full { length block.new.items < vec_capacity block.new → self.new ≡ [] }
    {
        let Some(items) = &self.items else {
            return;
        };
        self.at = fill_from(block, items.as_slice(), self.at);
    }
}

// Moves as much of stored texts as there is room for behind what a block holds, from a place on. Answers the place up to which it did.
fn fill_from<S: Stored>(block: &mut Vec<u8>, items: &[S], from: TextPlace) -> TextPlace
    requires { IsPlaceIn S.text items.now from }
    ensures moved { block.new.items ++ left_at S.text items.now result ≡ block.old.items ++ left_at S.text items.now from }
    ensures place { IsPlaceIn S.text items.now result }
    ensures grown { vec_capacity block.old ≤ vec_capacity block.new }
    ensures full { length block.new.items < vec_capacity block.new → left_at S.text items.now result ≡ [] }
{
    let mut at = from;
    while block.len() < block.capacity() {
        if at.next >= items.len() {
            return at;
        }
        at = match put_some(block, &items[at.next], at.later, at.offset) {
            Some(offset) => TextPlace {
                later: at.later,
                next: at.next,
                offset,
            },
            None => TextPlace {
                later: true,
                next: at.next + 1,
                offset: 0,
            },
        };
    }
    at
}

// Puts some bytes of a text and of the comma before it into a block that has room, behind those that were put. Answers how many were
// put then; nothing where all were.
fn put_some<S: Stored>(block: &mut Vec<u8>, item: &S, later: bool, offset: usize) -> Option<usize>
    requires fits { offset ≤ length (comma_before later ++ S.text item.now) }
    requires bounded { length (comma_before later ++ S.text item.now) ≤ longest }
    requires room { length block.old.items < vec_capacity block.old }
    ensures grown { vec_capacity block.old ≤ vec_capacity block.new }
    ensures put { MatchOption result
        ((block.new.items ≡ block.old.items) × (offset ≡ length (comma_before later ++ S.text item.now)))
        (λ n. (offset < n) × (n ≤ length (comma_before later ++ S.text item.now))
        × (block.new.items ++ drop n (comma_before later ++ S.text item.now) ≡ block.old.items ++ drop offset (comma_before later ++ S.text item.now))) }
{
    let piece = piece_at(comma(later), item.parts(), offset);
    if piece.is_empty() {
        return None;
    }
    Some(offset + put_front(block, piece))
}

// The bytes that lie together behind so many of a text in pieces and of the comma before it.
fn piece_at<'a>(comma: &'a [u8], parts: Parts<'a>, offset: usize) -> &'a [u8]
    ensures { IsFrontOf result.now (drop offset (comma.now ++ (parts.entry.head.now ++ (parts.entry.body.now ++ parts.entry.tail.now)))) }
{
    if offset < comma.len() {
        return &comma[offset..];
    }
    piece_of(parts, offset - comma.len())
}

// The same of the text alone.
fn piece_of<'a>(parts: Parts<'a>, offset: usize) -> &'a [u8]
    ensures { IsFrontOf result.now (drop offset (parts.entry.head.now ++ (parts.entry.body.now ++ parts.entry.tail.now))) }
{
    let head = parts.head.as_bytes();
    if offset < head.len() {
        return &head[offset..];
    }
    piece_of_two(
        parts.body.as_bytes(),
        parts.tail.as_bytes(),
        offset - head.len(),
    )
}

// The same of two pieces.
fn piece_of_two<'a>(first: &'a [u8], second: &'a [u8], offset: usize) -> &'a [u8]
    ensures { IsFrontOf result.now (drop offset (first.now ++ second.now)) }
{
    if offset < first.len() {
        return &first[offset..];
    }
    let passed = offset - first.len();
    if passed < second.len() {
        return &second[passed..];
    }
    &[]
}

// Puts as many of the bytes as there is room for behind those that a block holds, and answers how many. It takes no memory.
fn put_front(block: &mut Vec<u8>, bytes: &[u8]) -> usize
    requires { length block.old.items < vec_capacity block.old }
    ensures fits { result ≤ length bytes.now }
    ensures some { result ≤ 0 → length bytes.now ≤ 0 }
    ensures put { block.new.items ≡ block.old.items ++ take result bytes.now }
    ensures grown { vec_capacity block.old ≤ vec_capacity block.new }
{
    let count = bytes.len().min(block.capacity() - block.len());
    let Ok(()) = block.extend_from_slice(&bytes[..count]) else {
        unreachable!()
    };
    count
}

/// A text, as far as it wasn't passed. Contracts see what is left.
#[derive(Drop)]
pub(crate) struct LeftText {
    text: Option<ArcStr<Global>>,
    // How many bytes of it are left.
    left: usize,
}

impl Model for LeftText {
    ghost use Rattle.std.specs.Prelude.{ℕ, List, ◌≤◌, ◌-◌, length, drop};
    ghost use Rattle.std.specs.Arc.{arc_str_bytes};
    ghost use Rattle.xds_message.specs.Unsent.{all_of};

    ghost Value = { List ℕ };

    ghost view = { λ s. drop (length (all_of arc_str_bytes s.text) - s.left) (all_of arc_str_bytes s.text) };

    ghost invariant = { λ s. s.left ≤ length (all_of arc_str_bytes s.text) };
}

impl LeftText {
    /// Nothing.
    pub(crate) fn none() -> LeftText
        ensures { result ≡ [] }
    {
        LeftText {
            text: None,
            left: 0,
        }
    }

    /// This text, of which nothing was passed.
    pub(crate) fn of(text: ArcStr<Global>) -> LeftText
        ensures { result ≡ arc_str_bytes text }
    {
        let left = text.len();
        LeftText {
            text: Some(text),
            left,
        }
    }

    /// What is left.
    pub(crate) fn left(&self) -> &[u8]
        ensures { result.now ≡ self.now }
    {
        let Some(text) = &self.text else {
            return &[];
        };
        let bytes = text.as_str().as_bytes();
        &bytes[bytes.len() - self.left..]
    }

    /// Passes so many bytes.
    pub(crate) fn pass(&mut self, count: usize)
        requires { count ≤ length self.old }
        ensures { self.new ≡ drop count self.old }
    {
        self.left -= count;
    }

    /// Moves as much of it as there is room for behind what a block holds. It takes no memory.
    pub(crate) fn fill(&mut self, block: &mut Vec<u8>)
        ensures moved { block.new.items ++ self.new ≡ block.old.items ++ self.old }
        ensures grown { vec_capacity block.old ≤ vec_capacity block.new }
        ensures full { length block.new.items < vec_capacity block.new → self.new ≡ [] }
    {
        while block.len() < block.capacity() {
            let left = self.left();
            if left.is_empty() {
                return;
            }
            let count = put_front(block, left);
            self.pass(count);
        }
    }
}
