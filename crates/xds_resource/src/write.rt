// Stamped writes of one resource type, and their order.
ghost use Rattle.std.specs.Prelude.{◌≡◌, IfOk, IfErr, ◌≤◌, Some, None, IfSome, true, false};
ghost use Rattle.std.specs.Arc.{arc_str_bytes};
ghost use Rattle.std.specs.Option.{option_map};
ghost use Rattle.serde_json.specs.Data.{depth};
ghost use Rattle.serde_json.specs.View.{view};
ghost use Rattle.serde_json.specs.Written.{compact_text, has_float};
ghost use Rattle.xds_resource.specs.Resources.{is_valid_name, value_of, max_nesting, IsWritable, written, deleted};

use crate::groups::Groups;
use crate::refusal::Refusal;
use crate::resource::{Resource, read_body};
use crate::stamp::Stamp;
use crate::types::ResourceType;
use serde_json::Value;
use std::alloc::{AllocError, Global};
use std::cmp::Ordering;
use std::marker::{Model, PhantomData};
use std::sync::ArcStr;

/// A stamped write of a resource, or of its deletion.
pub struct Write<T: ResourceType> {
    stamp: Stamp,
    name: ArcStr<Global>,
    // The compact text of the resource's object, or none for a deletion.
    body: Option<ArcStr<Global>>,
    groups: Groups,
    kind: PhantomData<T>,
}

// Written out: docs/PROVING.md, "Drops".
impl<T: ResourceType> Drop for Write<T> {
    fn drop(self) {
        let Write {
            stamp: _,
            name: _,
            body: _,
            groups: _,
            kind: _,
        } = self;
    }
}

impl<T: ResourceType> Model for Write<T> {
    ghost use Rattle.std.specs.Arc.{arc_str_bytes};
    ghost use Rattle.std.specs.Option.{option_map};
    ghost use Rattle.xds_resource.specs.Writes.{StampedWrite, write_code};

    ghost Value = { StampedWrite };

    ghost coded = { write_code };

    ghost use Rattle.xds_resource.specs.Resources.{IsWritable};

    ghost view = { λ w. record { name = arc_str_bytes w.name; counter = w.stamp.counter; writer = w.stamp.writer; body = option_map arc_str_bytes w.body; groups = w.groups } };

    ghost invariant = { λ w. IsWritable T.TYPE (record { name = arc_str_bytes w.name; counter = w.stamp.counter; writer = w.stamp.writer; body = option_map arc_str_bytes w.body; groups = w.groups }) };
}

impl<T: ResourceType> Write<T> {
    // rule: groups
    /// The write that puts a resource, for clients of these groups, or for all where there are none.
    pub fn put(stamp: Stamp, resource: Resource<T>, groups: Groups) -> Write<T>
        ensures { result ≡ written stamp.counter stamp.writer resource groups }
    {
        groups.are_kept();
        let Resource { name, body, kind } = resource;
        Write {
            stamp,
            name,
            body: Some(body),
            groups,
            kind,
        }
    }

    // rule: tombstones
    /// The write that deletes the resource of this name.
    pub fn deletion(stamp: Stamp, name: ArcStr<Global>) -> Write<T>
        requires { is_valid_name (arc_str_bytes name) ≡ true }
        ensures { result ≡ deleted stamp.counter stamp.writer (arc_str_bytes name) }
    {
        Write {
            stamp,
            name,
            body: None,
            groups: Groups::none(),
            kind: PhantomData,
        }
    }

    /// The name of the resource.
    pub fn name(&self) -> &str
        ensures name { result.now ≡ self.now.name }
        ensures valid { is_valid_name self.now.name ≡ true }
    {
        self.name.as_str()
    }

    pub fn stamp(&self) -> Stamp
        ensures counter { result.counter ≡ self.now.counter }
        ensures writer { result.writer ≡ self.now.writer }
    {
        self.stamp
    }

    /// The compact text of the resource's object, or none for a deletion.
    pub fn body(&self) -> Option<&str>
        ensures { option_map (λ s. s.now) result ≡ self.now.body }
    {
        match &self.body {
            Some(text) => Some(text.as_str()),
            None => None,
        }
    }

    /// The groups of clients that the write is for. There are none where it is for all, and where it deletes.
    pub fn groups(&self) -> &Groups
        ensures { result.now ≡ self.now.groups }
    {
        &self.groups
    }

    /// The groups, shared: no text is copied. `OutOfMemory` where they have 2^63 owners.
    pub fn shared_groups(&self) -> Result<Groups, Refusal>
        ensures groups { IfOk result (λ g. g ≡ self.now.groups) }
        ensures refused { IfErr result (λ e. e ≡ Refusal.OutOfMemory) }
    {
        Ok(self.groups.clone()?)
    }

    /// The name as a text that is shared: no bytes are copied. `OutOfMemory` where a text has 2^63 owners.
    pub fn shared_name(&self) -> Result<ArcStr<Global>, Refusal>
        ensures name { IfOk result (λ s. arc_str_bytes s ≡ self.now.name) }
        ensures valid { IfOk result (λ s. is_valid_name (arc_str_bytes s) ≡ true) }
        ensures refused { IfErr result (λ e. e ≡ Refusal.OutOfMemory) }
    {
        Ok(self.name.clone()?)
    }

    /// The body as a text that is shared, or none for a deletion: no bytes are copied. `OutOfMemory` where a text has
    /// 2^63 owners.
    pub fn shared_body(&self) -> Result<Option<ArcStr<Global>>, Refusal>
        ensures body { IfOk result (λ o. option_map arc_str_bytes o ≡ self.now.body) }
        ensures writable { IsWritable T.TYPE self.now }
        ensures refused { IfErr result (λ e. e ≡ Refusal.OutOfMemory) }
    {
        match &self.body {
            Some(text) => Ok(Some(text.clone()?)),
            None => Ok(None),
        }
    }

    /// The resource's object, as it is read again from its text, or none for a deletion. `OutOfMemory` where reading
    /// took more memory than there is.
    pub fn value(&self, alloc: Global) -> Result<Option<Value>, Refusal>
        ensures value { IfOk result (λ o. option_map view o ≡ option_map value_of self.now.body) }
        ensures text { IfOk result (λ o. option_map (λ v. compact_text (view v)) o ≡ self.now.body) }
        ensures whole { IfOk result (λ o. IfSome o (λ v. has_float (view v) ≡ false)) }
        ensures shallow { IfOk result (λ o. IfSome o (λ v. depth (view v) ≤ max_nesting)) }
        ensures refused { IfErr result (λ e. e ≡ Refusal.OutOfMemory) }
    {
        match &self.body {
            Some(body) => Ok(Some(read_body(alloc, body.as_str())?)),
            None => Ok(None),
        }
    }

    /// An equal write, or `OutOfMemory`.
    pub fn try_copy(&self, _alloc: Global) -> Result<Write<T>, Refusal>
        ensures copy { IfOk result (λ w. w ≡ self.now) }
        ensures refused { IfErr result (λ e. e ≡ Refusal.OutOfMemory) }
    {
        Ok(self.clone()?)
    }
}

impl<T: ResourceType> Clone for Write<T> {
    ghost use Rattle.std.specs.Prelude.{◌≡◌};

    ghost is_clone = { λ w c. c ≡ w };

    // The texts and the groups are shared.
    fn clone(&self) -> Result<Write<T>, AllocError> {
        let body = match &self.body {
            Some(text) => Some(text.clone()?),
            None => None,
        };
        Ok(Write {
            stamp: self.stamp,
            name: self.name.clone()?,
            body,
            groups: self.groups.clone()?,
            kind: PhantomData,
        })
    }
}

impl<T: ResourceType> PartialEq for Write<T> {
    ghost use Rattle.std.specs.Prelude.{◌↔◌, IsTrue};
    ghost use Rattle.std.proofs.Common.{rules};
    ghost use Rattle.std.specs.Ordering.{eq_by_cmp};
    ghost use Rattle.std.specs.Cmp.Rules.{comparing};
    ghost use Rattle.xds_resource.specs.WriteOrder.{write_cmp_total};
    ghost use Rattle.xds_resource.specs.Writes.{write_cmp};

    ghost eq = { eq_by_cmp write_cmp };

    ghost laws = { Prim.search (write_cmp_total, comparing, rules) };

    // rule: greatest-write
    /// Whether the two are the same write.
    fn eq(&self, other: &Write<T>) -> bool
        ensures value { result ≡ eq_by_cmp write_cmp self.now other.now }
        ensures same { IsTrue result ↔ (self.now ≡ other.now) }
    {
        self.cmp(other) == Ordering::Equal
    }
}

impl<T: ResourceType> Eq for Write<T> {
    ghost use Rattle.std.proofs.Common.{rules};
    ghost use Rattle.std.specs.Cmp.Rules.{comparing};
    ghost use Rattle.xds_resource.specs.WriteOrder.{write_cmp_total};

    ghost laws = { Prim.search (write_cmp_total, comparing, rules) };
}

impl<T: ResourceType> PartialOrd for Write<T> {
    ghost use Rattle.std.proofs.Common.{rules};
    ghost use Rattle.std.specs.Cmp.{partial_order_from_own_ties};
    ghost use Rattle.std.specs.Ordering.{as_partial_cmp};
    ghost use Rattle.std.specs.Cmp.Rules.{comparing};
    ghost use Rattle.xds_resource.specs.WriteOrder.{write_cmp_total};
    ghost use Rattle.xds_resource.specs.Writes.{write_cmp};

    ghost partial_cmp = { as_partial_cmp write_cmp };

    ghost laws = { partial_order_from_own_ties (Prim.search (write_cmp_total, comparing, rules)) (Prim.search (comparing, rules)) };

    // rule: greatest-write
    fn partial_cmp(&self, other: &Write<T>) -> Option<Ordering> {
        Some(self.cmp(other))
    }
}

impl<T: ResourceType> Ord for Write<T> {
    ghost use Rattle.std.proofs.Common.{rules};
    ghost use Rattle.std.specs.Cmp.Rules.{comparing};
    ghost use Rattle.xds_resource.specs.WriteOrder.{write_cmp_total};
    ghost use Rattle.xds_resource.specs.Writes.{write_cmp};

    ghost cmp = { write_cmp };

    ghost total = { Prim.search (write_cmp_total, comparing, rules) };

    ghost matches_partial_cmp = { Prim.search (comparing, rules) };

    ghost matches_eq = { Prim.search (comparing, rules) };

    // rule: greatest-write, rule: tombstones
    fn cmp(&self, other: &Write<T>) -> Ordering {
        self.stamp
            .cmp(&other.stamp)
            .then(self.body.cmp(&other.body))
            .then(self.groups.compare(&other.groups))
            .then(self.name.cmp(&other.name))
    }
}
