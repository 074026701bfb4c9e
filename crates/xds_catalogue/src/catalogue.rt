// The catalogue of one type.
ghost use Rattle.std.specs.Prelude.{◌≡◌, ◌-◌, ◌≤◌, ◌<◌, ◌^◌, ◌∷◌, [], length, nat_lt, map, is_some, true, false, IfSome, IfNone, IsOk, IfOk, IfErr, OnErr};
ghost use Rattle.std.specs.List.{filter, filter_map};
ghost use Rattle.std.specs.Option.{option_map};
ghost use Rattle.std.specs.Arc.{arc_str_bytes};
ghost use Rattle.std.specs.FinMap as finmap;
ghost use Rattle.xds_resource.specs.Refusals.{Gives, unless_refused};
ghost use Rattle.xds_resource.specs.Resources.{is_valid_name};
ghost use Rattle.xds_catalogue.specs.Holdings.{nothing_held, IsCatalogue, IsNumbered};
ghost use Rattle.xds_catalogue.specs.Content.{content, is_shown, live_at};
ghost use Rattle.xds_resource.specs.Stamps.{max_counter};
ghost use Rattle.xds_catalogue.specs.Joins.{joined, joining};
ghost use Rattle.xds_catalogue.specs.Local.{putting, deleting, has_live, spent_conditions, next_counter};
ghost use Rattle.xds_catalogue.specs.Next.{IsNextChange, NoneAfter};

use crate::batch::{is_spent_by, join, join_all, put_all};
use crate::pending::PendingJoin;
use crate::tables::Tables;
use std::alloc::Global;
use std::marker::Model;
use std::sync::ArcStr;
use xds_interest::Interest;
use xds_resource::stamp::MAX_COUNTER;
use xds_resource::{Groups, Refusal, Resource, ResourceType, Stamp, Write};

/// The greatest write of each name of the type `T`. Deletions stay for good.
pub struct Catalogue<T: ResourceType> {
    pub(crate) tables: Tables<T>,
    pub(crate) alloc: Global,
}

// Written out: docs/PROVING.md, "Drops".
impl<T: ResourceType> Drop for Catalogue<T> {
    fn drop(self) {
        let Catalogue {
            tables: _,
            alloc: _,
        } = self;
    }
}

impl<T: ResourceType> Model for Catalogue<T> {
    ghost use Rattle.xds_catalogue.specs.Holdings.{Holdings, holdings_code};
    ghost use Rattle.xds_catalogue.specs.Tables.{IsSound, held_by};

    ghost Value = { Holdings };

    ghost coded = { holdings_code };

    ghost view = { λ c. held_by c.tables };

    ghost invariant = { λ c. IsSound c.tables };
}

// rule: tombstones, rule: star-covers
// Those of some writes that are live and covered.
fn shown_of<'a, T: ResourceType>(
    alloc: Global,
    writes: &[&'a Write<T>],
    interest: &Interest<T>,
) -> Result<Vec<&'a Write<T>>, Refusal>
    ensures ok { IfOk result (λ v. map (λ w. w.now) v.items ≡ filter (is_shown interest.now) (map (λ w. w.now) writes.now)) }
    ensures err { IfErr result (λ e. e ≡ Refusal.OutOfMemory) }
{
    let mut shown = Vec::new(alloc);
    for write in writes {
        if write.body().is_some() && interest.covers(write.name(), write.groups()) {
            shown.push(*write)?;
        }
    }
    Ok(shown)
}

impl<T: ResourceType> Catalogue<T> {
    /// A catalogue that holds nothing.
    pub fn new(alloc: Global) -> Self
        ensures { result ≡ nothing_held }
    {
        Self {
            tables: Tables::new(alloc),
            alloc,
        }
    }

    /// How many writes added or replaced an entry, since the catalogue was new.
    pub fn changes(&self) -> u64
        ensures { result ≡ self.now.changes }
    {
        self.tables.changes()
    }

    // rule: marks
    /// The entry whose latest change has the least number above this one, and that number, or none where no entry
    /// changed since. It takes no memory.
    pub fn next_change(&self, after: u64) -> Option<(u64, &Write<T>)>
        ensures next { IfSome result (λ p. IsNextChange self.now after p.0 p.1.now) }
        ensures none { IfNone result (NoneAfter self.now after) }
        ensures numbered { IsNumbered self.now }
    {
        if after >= self.tables.changes() {
            return None;
        }
        let (number, name) = self.tables.numbers().first_from(after + 1)?;
        let held = self.tables.names().get(name)?;
        Some((number, held.write()))
    }

    // rule: marks
    /// How many changes lie above this number.
    pub fn changes_since(&self, after: u64) -> u64
        ensures count { result ≡ self.now.changes - after }
        ensures numbered { IsNumbered self.now }
    {
        self.tables.changes().saturating_sub(after)
    }

    // rule: marks
    /// The number of the latest change of a name's entry, or none where it has no entry. It takes no memory.
    pub fn latest_change(&self, name: &str) -> Option<u64>
        ensures { result ≡ finmap.get self.now.latest name.now }
    {
        match self.tables.names().get(name) {
            Some(held) => Some(held.change()),
            None => None,
        }
    }

    /// The write that stands under a name, be it a deletion.
    pub fn get(&self, name: &str) -> Option<&Write<T>>
        ensures found { option_map (λ w. w.now) result ≡ finmap.get self.now.entries name.now }
        ensures named { IsCatalogue self.now.entries }
    {
        match self.tables.names().get(name) {
            Some(held) => Some(held.write()),
            None => None,
        }
    }

    // rule: greatest-write
    /// Joins a write: it stands if it is greater than what stands under its name. Answers by how much the
    /// changes grew, 0 or 1.
    pub fn join_write(&mut self, write: Write<T>) -> Result<u64, Refusal>
        ensures joins { Gives (λ grown. (grown, self.new)) result (joining self.old (write ∷ [])) }
        ensures memory { IfErr result (λ e. e ≡ Refusal.OutOfMemory → IsOk (joining self.old (write ∷ []))) }
        ensures err { OnErr result (self.new ≡ self.old) }
    {
        join(&mut self.tables, write)
    }

    // rule: greatest-write
    /// Joins writes, all or none, as one by one in their order. Answers by how much the changes grew.
    pub fn join_all(&mut self, writes: Vec<Write<T>>) -> Result<u64, Refusal>
        ensures joins { Gives (λ grown. (grown, self.new)) result (joining self.old writes.items) }
        ensures memory { IfErr result (λ e. e ≡ Refusal.OutOfMemory → IsOk (joining self.old writes.items)) }
        ensures err { OnErr result (self.new ≡ self.old) }
    {
        join_all(&mut self.tables, self.alloc, writes)
    }

    /// Whether the writes would make more changes than can be counted. It takes no memory.
    pub fn is_spent_by(&self, writes: &[Write<T>]) -> bool
        requires { length writes.now < 2 ^ 64 }
        ensures { result ≡ nat_lt max_counter (joined self.now writes.now).changes }
    {
        is_spent_by(&self.tables, writes)
    }

    /// Joins writes, all or none, as `join_all` does, but so that they can still be taken back. Where there is no memory, the
    /// catalogue comes back as it was.
    pub fn start_join(self, writes: Vec<Write<T>>) -> Result<PendingJoin<T>, Catalogue<T>>
        requires { (joined self writes.items).changes ≤ max_counter }
        ensures ok { IfOk result (λ p. (p.before ≡ self) × (p.after ≡ joined self writes.items)) }
        ensures err { IfErr result (λ c. c ≡ self) }
    {
        let Catalogue { mut tables, alloc } = self;
        let changes = tables.changes();
        let greatest = tables.greatest();
        match put_all(&mut tables, alloc, writes) {
            Ok(displaced) => Ok(PendingJoin {
                tables,
                displaced,
                changes,
                greatest,
                alloc,
            }),
            Err(_) => Err(Catalogue { tables, alloc }),
        }
    }

    // rule: groups
    /// Puts a resource with these groups, as a new write even where an equal body stands, and whatever groups that had.
    /// `writer` is the number of this replica, from 1.
    pub fn put(
        &mut self,
        resource: Resource<T>,
        groups: Groups,
        writer: u16,
    ) -> Result<Stamp, Refusal>
        requires { 1 ≤ writer }
        ensures puts { Gives (λ s. (s.counter, self.new)) result (putting self.old resource groups writer) }
        ensures memory { IfErr result (λ e. e ≡ Refusal.OutOfMemory → IsOk (putting self.old resource groups writer)) }
        ensures writer { IfOk result (λ s. s.writer ≡ writer) }
        ensures err { OnErr result (self.new ≡ self.old) }
    {
        let stamp = self.next_stamp(writer)?;
        join(&mut self.tables, Write::put(stamp, resource, groups))?;
        Ok(stamp)
    }

    // rule: tombstones
    /// Deletes the live resource of a name; the write stays for good. `writer` is the number of this replica,
    /// from 1.
    pub fn delete(&mut self, name: &str, writer: u16) -> Result<Stamp, Refusal>
        requires { 1 ≤ writer }
        ensures deletes { Gives (λ s. (s.counter, self.new)) result (deleting self.old name.now writer) }
        ensures memory { IfErr result (λ e. e ≡ Refusal.OutOfMemory → IsOk (deleting self.old name.now writer)) }
        ensures writer { IfOk result (λ s. s.writer ≡ writer) }
        ensures err { OnErr result (self.new ≡ self.old) }
    {
        let held = self.live(name).ok_or(Refusal::NotFound)?;
        let stamp = self.next_stamp(writer)?;
        let name = held.shared_name()?;
        join(&mut self.tables, Write::deletion(stamp, name))?;
        Ok(stamp)
    }

    // rule: tombstones
    // The write that stands under a name, if it puts a resource there.
    fn live(&self, name: &str) -> Option<&Write<T>>
        ensures same { IfSome result (λ w. w.now.name ≡ name.now) }
        ensures missing { is_some result ≡ has_live self.now.entries name.now }
    {
        let held = self.get(name)?;
        held.body()?;
        Some(held)
    }

    // rule: tombstones
    // The stamp of the next write of this replica.
    fn next_stamp(&self, writer: u16) -> Result<Stamp, Refusal>
        requires { 1 ≤ writer }
        ensures counter { Gives (λ s. s.counter) result (unless_refused (spent_conditions self.now) (next_counter self.now)) }
        ensures writer { IfOk result (λ s. s.writer ≡ writer) }
        ensures refused { IfErr result (λ e. e ≡ Refusal.CounterSpent) }
    {
        let greatest = self.tables.greatest();
        if greatest == MAX_COUNTER || self.changes() == MAX_COUNTER {
            return Err(Refusal::CounterSpent);
        }
        Ok(Stamp::new(greatest + 1, writer))
    }

    // rule: tombstones
    /// Every write that stands, deletions included, in ascending order of names. Refused only by `OutOfMemory`.
    pub fn entries(&self, alloc: Global) -> Result<Vec<&Write<T>>, Refusal>
        ensures ok { IfOk result (λ v. map (λ w. w.now) v.items ≡ finmap.values self.now.entries) }
        ensures named { IsCatalogue self.now.entries }
        ensures err { IfErr result (λ e. e ≡ Refusal.OutOfMemory) }
    {
        self.tables.names().in_order(alloc)
    }

    // rule: star-covers
    /// The live writes that a client of this interest sees, in ascending order of names. Refused only by
    /// `OutOfMemory`.
    pub fn content(&self, alloc: Global, interest: &Interest<T>) -> Result<Vec<&Write<T>>, Refusal>
        ensures ok { IfOk result (λ v. map (λ w. w.now) v.items ≡ content self.now.entries interest.now) }
        ensures named { IsCatalogue self.now.entries }
        ensures err { IfErr result (λ e. e ≡ Refusal.OutOfMemory) }
    {
        if !interest.has_star() {
            return self.tables.names().shown(alloc, interest);
        }
        let entries = self.entries(alloc)?;
        shown_of(alloc, &entries, interest)
    }

    // rule: tombstones
    /// What stands live under each of some names, in the order of these. Refused only by `OutOfMemory`.
    pub fn live_under(&self, alloc: Global, names: &[&str]) -> Result<Vec<&Write<T>>, Refusal>
        ensures ok { IfOk result (λ v. map (λ w. w.now) v.items ≡ filter_map (live_at self.now.entries) (map (λ n. n.now) names.now)) }
        ensures named { IsCatalogue self.now.entries }
        ensures err { IfErr result (λ e. e ≡ Refusal.OutOfMemory) }
    {
        self.tables.names().live_under(alloc, names)
    }

    /// An equal catalogue, with memory of its own. Refused only by `OutOfMemory`.
    pub fn try_copy(&self, alloc: Global) -> Result<Catalogue<T>, Refusal>
        ensures ok { IfOk result (λ c. c ≡ self.now) }
        ensures err { IfErr result (λ e. e ≡ Refusal.OutOfMemory) }
    {
        Ok(Catalogue {
            tables: self.tables.try_copy(alloc)?,
            alloc,
        })
    }
}
