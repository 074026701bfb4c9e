// Lists of stored texts, and how they read together.
ghost use Rattle.std.specs.Prelude.{◌≡◌, ◌++◌, Bool, map, if◌then◌else◌, IfSome, IfOk, IfErr, OnOk, string_bytes};
ghost use Rattle.std.specs.Arc.{arc_slice_items, arc_str_bytes};
ghost use Rattle.xds_resource.specs.declared.refusal.Refusal.TheVariants.{OutOfMemory};
ghost use Rattle.xds_message.specs.Joined.{with_commas};
ghost use Rattle.xds_message.specs.Pieces.{comma_before};

use crate::body::Body;
use crate::delta_draft::DraftResource;
use crate::joining::join_comma;
use crate::pieces::{Stored, items_counted};
use std::alloc::Global;
use std::marker::Model;
use std::sync::{ArcSlice, ArcStr};
use xds_frames::frame::LONGEST;
use xds_resource::Refusal;

/// What a response states, as stored texts. Copies of a list share it. Where many responses state the same list, how its texts
/// read with commas between them is made once for all, and is written as it stands. Contracts see the list.
pub struct Stated<S: Stored> {
    list: ArcSlice<S, Global>,
    // The texts with commas between them, if that was made.
    joined: Option<ArcStr<Global>>,
}

/// The stored texts of a state-of-the-world response's resources.
pub type Bodies = Stated<Body>;

/// The resources of an incremental response, with their names and versions.
pub type Resources = Stated<DraftResource>;

// Written out: docs/PROVING.md, "Drops".
impl<S: Stored> Drop for Stated<S> {
    fn drop(self) {
        let Stated { list: _, joined: _ } = self;
    }
}

impl<S: Stored> Model for Stated<S> {
    ghost use Rattle.std.specs.Prelude.{◌≡◌, List, map, IfSome};
    ghost use Rattle.std.specs.Coded.{coded_list};
    ghost use Rattle.std.specs.Arc.{arc_slice_items, arc_str_bytes};
    ghost use Rattle.xds_message.specs.Joined.{with_commas};

    ghost Value = { List S };

    ghost coded = { coded_list S.code };

    ghost view = { λ s. arc_slice_items s.list };

    ghost invariant = { λ s. IfSome s.joined (λ j. arc_str_bytes j ≡ with_commas (map S.text (arc_slice_items s.list))) };
}

impl<S: Stored> Stated<S> {
    /// These texts. Refused only by `OutOfMemory`.
    pub fn new(list: Vec<S>) -> Result<Stated<S>, Refusal>
        ensures ok { IfOk result (λ s. s ≡ list.items) }
        ensures refused { IfErr result (λ e. e ≡ OutOfMemory) }
    {
        Ok(Stated {
            list: ArcSlice::from_vec(list)?,
            joined: None,
        })
    }

    /// The same, as many responses will state them: how they read together is made here, where a frame has room for it. Refused
    /// only by `OutOfMemory`.
    pub fn shared(self, alloc: Global) -> Result<Stated<S>, Refusal>
        ensures ok { IfOk result (λ s. s ≡ self) }
        ensures refused { IfErr result (λ e. e ≡ OutOfMemory) }
    {
        let Stated { list, joined: _ } = self;
        let Some(length) = items_counted(0, list.as_slice(), LONGEST) else {
            return Ok(Stated { list, joined: None });
        };
        let text = joined_text(alloc, list.as_slice(), length)?;
        Ok(Stated {
            list,
            joined: Some(ArcStr::from_string(text)?),
        })
    }

    /// The texts.
    pub fn as_slice(&self) -> &[S]
        ensures value { result.now ≡ self.now }
    {
        self.list.as_slice()
    }

    /// How they read with commas between them, if that was made.
    pub(crate) fn joined(&self) -> Option<&str>
        ensures { IfSome result (λ t. t.now ≡ with_commas (map S.text self.now)) }
    {
        match &self.joined {
            Some(text) => Some(text.as_str()),
            None => None,
        }
    }

    /// The list, shared. Refused only by `OutOfMemory`.
    pub(crate) fn shared_list(&self) -> Result<ArcSlice<S, Global>, Refusal>
        ensures ok { IfOk result (λ l. arc_slice_items l ≡ self.now) }
        ensures refused { IfErr result (λ e. e ≡ OutOfMemory) }
    {
        Ok(self.list.clone()?)
    }

    /// How they read with commas between them, shared, if that was made. Refused only by `OutOfMemory`.
    pub(crate) fn shared_text(&self) -> Result<Option<ArcStr<Global>>, Refusal>
        ensures ok { IfOk result (λ o. IfSome o (λ t. arc_str_bytes t ≡ with_commas (map S.text self.now))) }
        ensures refused { IfErr result (λ e. e ≡ OutOfMemory) }
    {
        match &self.joined {
            Some(text) => Ok(Some(text.clone()?)),
            None => Ok(None),
        }
    }

    /// The same list. No text is copied. Refused only by `OutOfMemory`.
    pub fn try_copy(&self) -> Result<Stated<S>, Refusal>
        ensures ok { IfOk result (λ s. s ≡ self.now) }
        ensures refused { IfErr result (λ e. e ≡ OutOfMemory) }
    {
        Ok(Stated {
            list: self.shared_list()?,
            joined: self.shared_text()?,
        })
    }

    /// The same list, without how its texts read together, for who keeps it and doesn't write it. No text is copied. Refused only
    /// by `OutOfMemory`.
    pub fn unjoined(&self) -> Result<Stated<S>, Refusal>
        ensures ok { IfOk result (λ s. s ≡ self.now) }
        ensures refused { IfErr result (λ e. e ≡ OutOfMemory) }
    {
        Ok(Stated {
            list: self.shared_list()?,
            joined: None,
        })
    }
}

// Puts a stored text behind others, and a comma before it where one stands before.
fn push_text<S: Stored>(out: &mut String, later: bool, item: &S) -> Result<(), Refusal>
    ensures ok { OnOk result (string_bytes out.new ≡ string_bytes out.old ++ (comma_before later ++ S.text item.now)) }
    ensures refused { IfErr result (λ e. e ≡ OutOfMemory) }
{
    join_comma(out, later)?;
    let parts = item.parts();
    out.push_str(parts.head)?;
    out.push_str(parts.body)?;
    Ok(out.push_str(parts.tail)?)
}

// These texts with commas between them, for which room is made at once.
fn joined_text<S: Stored>(alloc: Global, items: &[S], length: usize) -> Result<String, Refusal>
    ensures ok { IfOk result (λ s. string_bytes s ≡ with_commas (map S.text items.now)) }
    ensures refused { IfErr result (λ e. e ≡ OutOfMemory) }
{
    let mut out = String::new(alloc);
    out.reserve(length)?;
    let mut later = false;
    for item in items {
        push_text(&mut out, later, item)?;
        later = true;
    }
    Ok(out)
}
