// The groups of clients that a write may be for.
ghost use Rattle.std.specs.Prelude.{◌≡◌, ◌==◌, IfOk, IfErr, OnOk, Ok, [], length, map, not, nat_lt, string_bytes};
ghost use Rattle.std.specs.List.{list_all};
ghost use Rattle.xds_resource.specs.Refusals.{Gives};
ghost use Rattle.xds_resource.specs.Groups.{IsGroups, max_groups, is_group as may_be_group, grouped, groups_of, has_group, placed};
ghost use Rattle.xds_resource.specs.Writes.{groups_cmp};

use crate::refusal::Refusal;
use std::alloc::{AllocError, Global};
use std::cmp::Ordering;
use std::marker::Model;
use std::sync::ArcSlice;

/// The most groups that a write may list.
pub const MAX_GROUPS: usize = 64;

/// The longest group, in bytes.
pub const MAX_GROUP: usize = 1024;

/// A set of groups, in ascending byte order. Its copies share it, and an empty one takes no memory.
pub struct Groups {
    // None where there is no group.
    list: Option<ArcSlice<String, Global>>,
}

// Written out: docs/PROVING.md, "Drops".
impl Drop for Groups {
    fn drop(self) {
        let Groups { list: _ } = self;
    }
}

impl Model for Groups {
    ghost use Rattle.std.specs.Prelude.{ℕ, List, [], map, string_bytes};
    ghost use Rattle.std.specs.Option.{option_map_or};
    ghost use Rattle.std.specs.Arc.{arc_slice_items};
    ghost use Rattle.std.specs.Coded.{coded_ℕ, coded_list};
    ghost use Rattle.xds_resource.specs.Groups.{IsGroups};

    ghost Value = { List (List ℕ) };

    ghost coded = { coded_list (coded_list coded_ℕ) };

    ghost view = { λ g. option_map_or (λ a. map string_bytes (arc_slice_items a)) g.list [] };

    ghost invariant = { λ g. IsGroups (option_map_or (λ a. map string_bytes (arc_slice_items a)) g.list []) };
}

impl Groups {
    /// No groups.
    pub fn none() -> Groups
        ensures { result ≡ [] }
    {
        Groups { list: None }
    }

    // rule: groups
    /// The groups that the texts are, in whatever order, where a doubled text counts once. Refused by `BadGroup` where a
    /// text is empty or longer than [`MAX_GROUP`] bytes, or more than [`MAX_GROUPS`] different ones are left; then by
    /// `OutOfMemory`.
    pub fn new(alloc: Global, texts: &[String]) -> Result<Groups, Refusal>
        ensures given { Gives (λ g. g) result (groups_of (map string_bytes texts.now)) }
        ensures memory { IfErr result (λ e. e ≡ Refusal.OutOfMemory
            → groups_of (map string_bytes texts.now) ≡ Ok (grouped (map string_bytes texts.now))) }
    {
        if !all_are_groups(texts) || !are_few(texts) {
            return Err(Refusal::BadGroup);
        }
        Groups::of_groups(alloc, texts)
    }

    // rule: groups
    // The groups of texts of which none is refused.
    fn of_groups(alloc: Global, texts: &[String]) -> Result<Groups, Refusal>
        requires { groups_of (map string_bytes texts.now) ≡ Ok (grouped (map string_bytes texts.now)) }
        ensures ok { IfOk result (λ g. g ≡ grouped (map string_bytes texts.now)) }
        ensures refused { IfErr result (λ e. e ≡ Refusal.OutOfMemory) }
    {
        if texts.is_empty() {
            return Ok(Groups::none());
        }
        let mut list = gathered(alloc, texts)?;
        list.shrink_to_fit();
        Ok(Groups {
            list: Some(ArcSlice::from_vec(list)?),
        })
    }

    /// The groups, ascending.
    pub fn texts(&self) -> &[String]
        ensures { map string_bytes result.now ≡ self.now }
    {
        match &self.list {
            Some(list) => list.as_slice(),
            None => &[],
        }
    }

    /// Whether there are none.
    pub fn is_empty(&self) -> bool
        ensures { result ≡ (length self.now == 0) }
    {
        self.texts().is_empty()
    }

    /// How many there are.
    pub fn len(&self) -> usize
        ensures { result ≡ length self.now }
    {
        self.texts().len()
    }

    // rule: groups
    /// Whether the text is one of them.
    pub fn has(&self, text: &str) -> bool
        ensures { result ≡ has_group self.now text.now }
    {
        is_among(self.texts(), text)
    }

    // What is held are groups as they are kept.
    pub(crate) fn are_kept(&self)
        ensures { IsGroups self.now }
    {
        let _ = &self.list;
    }

    /// The same groups, shared: no text is copied. `OutOfMemory` where they have 2^63 owners.
    pub fn try_copy(&self, _alloc: Global) -> Result<Groups, Refusal>
        ensures copy { IfOk result (λ g. g ≡ self.now) }
        ensures refused { IfErr result (λ e. e ≡ Refusal.OutOfMemory) }
    {
        Ok(self.clone()?)
    }

    // rule: greatest-write, rule: groups
    // Their order: text by text.
    pub(crate) fn compare(&self, other: &Groups) -> Ordering
        ensures { result ≡ groups_cmp self.now other.now }
    {
        self.texts().cmp(other.texts())
    }
}

impl Clone for Groups {
    ghost use Rattle.std.specs.Prelude.{◌≡◌};

    ghost is_clone = { λ g c. c ≡ g };

    // The texts are shared.
    fn clone(&self) -> Result<Groups, AllocError> {
        Ok(Groups {
            list: match &self.list {
                Some(list) => Some(list.clone()?),
                None => None,
            },
        })
    }
}

// rule: groups
// Whether the text may be a group.
fn is_group(text: &str) -> bool
    ensures { result ≡ may_be_group text.now }
{
    !text.is_empty() && text.len() <= MAX_GROUP
}

// rule: groups
// Whether each of the texts may be a group.
fn all_are_groups(texts: &[String]) -> bool
    ensures { result ≡ list_all may_be_group (map string_bytes texts.now) }
{
    for text in texts {
        if !is_group(text.as_str()) {
            return false;
        }
    }
    true
}

// rule: groups
// Whether the text is one of these.
fn is_among(texts: &[String], text: &str) -> bool
    ensures { result ≡ has_group (map string_bytes texts.now) text.now }
{
    for other in texts {
        if text == other.as_str() {
            return true;
        }
    }
    false
}

// rule: groups
// Whether the texts are few enough, a doubled one counted once. No memory is taken. Each text is looked for among those
// after it, so that a long list of few different texts doesn't take long.
fn are_few(texts: &[String]) -> bool
    ensures { result ≡ not (nat_lt max_groups (length (grouped (map string_bytes texts.now)))) }
{
    let mut start = texts.len();
    let mut count = 0;
    while start > 0 {
        start -= 1;
        if !is_among(&texts[start + 1..], texts[start].as_str()) {
            if count == MAX_GROUPS {
                return false;
            }
            count += 1;
        }
    }
    true
}

// rule: groups
// The texts in ascending order, a doubled one once.
fn gathered(alloc: Global, texts: &[String]) -> Result<Vec<String>, Refusal>
    ensures ok { IfOk result (λ v. map string_bytes v.items ≡ grouped (map string_bytes texts.now)) }
    ensures refused { IfErr result (λ e. e ≡ Refusal.OutOfMemory) }
{
    let mut list = Vec::new(alloc);
    let mut start = texts.len();
    while start > 0 {
        start -= 1;
        add(alloc, &mut list, texts[start].as_str())?;
    }
    Ok(list)
}

// rule: groups
// Puts a text in its place in an ascending list, if it isn't there.
fn add(alloc: Global, list: &mut Vec<String>, text: &str) -> Result<(), Refusal>
    ensures ok { OnOk result (map string_bytes list.new.items ≡ placed text.now (map string_bytes list.old.items)) }
    ensures refused { IfErr result (λ e. e ≡ Refusal.OutOfMemory) }
{
    let mut at = 0;
    while at < list.len() {
        match text.cmp(list[at].as_str()) {
            Ordering::Less => break,
            Ordering::Equal => return Ok(()),
            Ordering::Greater => at += 1,
        }
    }
    list.insert(at, String::from_str(alloc, text)?)?;
    Ok(())
}
