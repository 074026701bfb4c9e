// A catalogue to which writes were joined, for as long as they can be taken back.
ghost use Rattle.std.specs.Prelude.{◌≡◌, ◌-◌};

use crate::batch::{drop_former, take_all_back};
use crate::catalogue::Catalogue;
use crate::tables::{Displaced, Tables};
use std::alloc::Global;
use std::marker::Model;
use xds_resource::ResourceType;

/// Writes that were joined to a catalogue, and that can still be taken back. Either takes no memory, so that writes of
/// several types are joined all or none.
#[derive(Drop)]
pub struct PendingJoin<T: ResourceType> {
    pub(crate) tables: Tables<T>,
    pub(crate) displaced: Vec<Displaced<T>>,
    // The counts before.
    pub(crate) changes: u64,
    pub(crate) greatest: u64,
    pub(crate) alloc: Global,
}

impl<T: ResourceType> Model for PendingJoin<T> {
    ghost use Rattle.xds_catalogue.specs.Pending.{Pending, pending_code, tables_before, IsPending};
    ghost use Rattle.xds_catalogue.specs.Tables.{held_by};

    ghost Value = { Pending };

    ghost coded = { pending_code };

    ghost view = { λ p. record { before = held_by (tables_before p.tables p.displaced.items p.changes p.greatest); after = held_by p.tables } };

    ghost invariant = { λ p. IsPending p.tables p.displaced.items p.changes p.greatest };
}

impl<T: ResourceType> PendingJoin<T> {
    /// By how much the changes grow.
    pub fn grown(&self) -> u64
        ensures { result ≡ self.now.after.changes - self.now.before.changes }
    {
        self.tables.changes() - self.changes
    }

    /// The catalogue with the writes.
    pub fn finish(self) -> Catalogue<T>
        ensures { result ≡ self.after }
    {
        let PendingJoin {
            mut tables,
            displaced,
            alloc,
            ..
        } = self;
        drop_former(&mut tables, displaced);
        Catalogue { tables, alloc }
    }

    // rule: refused-event
    /// The catalogue as it was before the writes.
    pub fn take_back(self) -> Catalogue<T>
        ensures { result ≡ self.before }
    {
        let PendingJoin {
            mut tables,
            displaced,
            changes,
            greatest,
            alloc,
        } = self;
        take_all_back(&mut tables, displaced);
        tables.set_counts(changes, greatest);
        Catalogue { tables, alloc }
    }
}
