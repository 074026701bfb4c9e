// Both maps of a catalogue, and the two counts beside them.
ghost use Rattle.std.specs.Prelude.{◌≡◌, ◌+◌, ◌<◌, ◌≤◌, None, is_some, IfSome, OnOk, OnErr, IfOk, IfErr};
ghost use Rattle.std.specs.Option.{option_map};
ghost use Rattle.std.specs.FinMap as finmap;
ghost use Rattle.xds_resource.specs.Stamps.{max_counter};
ghost use Rattle.xds_catalogue.specs.Changes.{surpasses};
ghost use Rattle.xds_catalogue.specs.Tables.{no_tables, with_write, without_number, taken_back, with_counts, IsPutAside};

use crate::names::{StandingWrite, WritesByName};
use crate::numbers::NamesByNumber;
use std::alloc::Global;
use std::cmp::Ordering;
use std::marker::Model;
use std::sync::ArcStr;
use xds_resource::{Refusal, ResourceType, Write};

pub(crate) struct Tables<T: ResourceType> {
    names: WritesByName<T>,
    numbers: NamesByNumber,
    changes: u64,
    // The greatest counter of a write that stands, or 0.
    greatest: u64,
}

// Written out: docs/PROVING.md, "Drops".
impl<T: ResourceType> Drop for Tables<T> {
    fn drop(self) {
        let Tables {
            names: _,
            numbers: _,
            changes: _,
            greatest: _,
        } = self;
    }
}

impl<T: ResourceType> Model for Tables<T> {
    ghost use Rattle.xds_catalogue.specs.Tables.{TwoMaps, two_maps_code};

    ghost Value = { TwoMaps };

    ghost coded = { two_maps_code };

    ghost view = { λ t. record { named = t.names; numbers = t.numbers; changes = t.changes; greatest = t.greatest } };
}

// What a change put aside, so that it can be taken back.
#[derive(Drop)]
pub(crate) struct Displaced<T: ResourceType> {
    name: ArcStr<Global>,
    number: u64,
    former: Option<StandingWrite<T>>,
}

impl<T: ResourceType> Model for Displaced<T> {
    ghost use Rattle.std.specs.Arc.{arc_str_bytes};
    ghost use Rattle.xds_catalogue.specs.Tables.{PutAside, put_aside_code};

    ghost Value = { PutAside };

    ghost coded = { put_aside_code };

    ghost view = { λ d. record { name = arc_str_bytes d.name; number = d.number; former = d.former } };
}

impl<T: ResourceType> Displaced<T> {
    // The number of what stood there before.
    pub(crate) fn former_number(&self) -> Option<u64>
        ensures { result ≡ option_map (λ e. e.change) self.now.former }
    {
        match &self.former {
            Some(entry) => Some(entry.change()),
            None => None,
        }
    }
}

impl<T: ResourceType> Tables<T> {
    pub(crate) fn new(alloc: Global) -> Self
        ensures { result ≡ no_tables }
    {
        Tables {
            names: WritesByName::new(alloc),
            numbers: NamesByNumber::new(alloc),
            changes: 0,
            greatest: 0,
        }
    }

    pub(crate) fn names(&self) -> &WritesByName<T>
        ensures { result.now ≡ self.now.named }
    {
        &self.names
    }

    pub(crate) fn numbers(&self) -> &NamesByNumber
        ensures { result.now ≡ self.now.numbers }
    {
        &self.numbers
    }

    pub(crate) fn changes(&self) -> u64
        ensures { result ≡ self.now.changes }
    {
        self.changes
    }

    pub(crate) fn greatest(&self) -> u64
        ensures { result ≡ self.now.greatest }
    {
        self.greatest
    }

    // rule: greatest-write
    // Whether a write adds or replaces an entry.
    pub(crate) fn is_news(&self, write: &Write<T>) -> bool
        ensures { result ≡ surpasses write.now (finmap.get self.now.named.entries write.now.name) }
    {
        match self.names.get(write.name()) {
            Some(held) => write.cmp(held.write()) == Ordering::Greater,
            None => true,
        }
    }

    // rule: greatest-write
    // The number of what a write would replace, if it would replace anything; none where it is no news.
    pub(crate) fn former(&self, write: &Write<T>) -> Option<Option<u64>>
        ensures news { is_some result ≡ surpasses write.now (finmap.get self.now.named.entries write.now.name) }
        ensures number { IfSome result (λ n. n ≡ finmap.get self.now.named.latest write.now.name) }
    {
        match self.names.get(write.name()) {
            Some(held) if write.cmp(held.write()) == Ordering::Greater => Some(Some(held.change())),
            Some(_) => None,
            None => Some(None),
        }
    }

    // What putting this write would put aside.
    pub(crate) fn aside(&self, write: &Write<T>) -> Result<Displaced<T>, Refusal>
        requires { self.now.changes < max_counter }
        ensures ok { IfOk result (IsPutAside self.now write.now) }
        ensures err { IfErr result (λ e. e ≡ Refusal.OutOfMemory) }
    {
        let former = match self.names.get(write.name()) {
            Some(held) => Some(held.clone()?),
            None => None,
        };
        Ok(Displaced {
            name: write.shared_name()?,
            number: self.changes + 1,
            former,
        })
    }

    // rule: tombstones, rule: marks
    // Puts a write under its name with the next number. The number of what stood there stays.
    pub(crate) fn put(&mut self, write: Write<T>) -> Result<(), Refusal>
        requires room { self.old.changes < max_counter }
        requires fresh { finmap.get self.old.numbers (self.old.changes + 1) ≡ None }
        ensures ok { OnOk result (self.new ≡ with_write self.old write) }
        ensures stamped { OnOk result (write.counter ≤ max_counter) }
        ensures err { OnErr result (self.new ≡ self.old) }
        ensures refused { IfErr result (λ e. e ≡ Refusal.OutOfMemory) }
    {
        let change = self.changes + 1;
        let counter = write.stamp().counter;
        let name = write.shared_name()?;
        self.numbers.insert(change, name)?;
        if let Err(refusal) = self.names.put(StandingWrite { write, change }) {
            self.numbers.remove(change);
            return Err(refusal);
        }
        self.changes = change;
        self.greatest = self.greatest.max(counter);
        Ok(())
    }

    pub(crate) fn remove_number(&mut self, number: u64)
        ensures { self.new ≡ without_number self.old number }
    {
        self.numbers.remove(number);
    }

    // rule: refused-event
    // Takes a change back, but for the counts. It takes no memory.
    pub(crate) fn take_back(&mut self, displaced: Displaced<T>)
        ensures { self.new ≡ taken_back self.old displaced }
    {
        let Displaced {
            name,
            number,
            former,
        } = displaced;
        self.numbers.remove(number);
        self.names.put_back(name.as_str(), former);
    }

    pub(crate) fn set_counts(&mut self, changes: u64, greatest: u64)
        ensures { self.new ≡ with_counts self.old changes greatest }
    {
        self.changes = changes;
        self.greatest = greatest;
    }

    pub(crate) fn try_copy(&self, alloc: Global) -> Result<Tables<T>, Refusal>
        ensures ok { IfOk result (λ t. t ≡ self.now) }
        ensures err { IfErr result (λ e. e ≡ Refusal.OutOfMemory) }
    {
        Ok(Tables {
            names: self.names.try_copy(alloc)?,
            numbers: self.numbers.try_copy()?,
            changes: self.changes,
            greatest: self.greatest,
        })
    }
}
