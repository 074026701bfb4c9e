// Replica numbers, each of which is taken once.
ghost use Rattle.std.specs.Prelude.{◌≡◌, ◌≤◌, ℕ, pos, ◌+◌, [], ◌∷◌, IsTrue, IfOk, OnOk, OnErr};
ghost use Rattle.sqlite_value.specs.declared.value.Value.TheVariants.{Null, Int};
ghost use Rattle.sqlite_trees.specs.View.{IsClean, doubt};
ghost use Rattle.xds_store.specs.Numbers.{Notes, Takes, AreTaken};
ghost use Rattle.xds_store.specs.Steps.{IsPending, Survives};
ghost use Rattle.xds_store.specs.Tables.{HasTables, next_number};

use crate::calls::{begin, commit, end, get_number, next_row, put_number, seek_number};
use crate::refusal::StoreRefusal;
use crate::store::Store;
use sqlite_trees::store::Store as Trees;
use sqlite_value::row::Row;
use sqlite_value::value::ValueRef;

/// One more than the greatest replica number.
const NUMBERS_END: u32 = 65_536;

// The format of the store, which is the key of the one row of its table of numbers.
const FORMAT: i64 = 1;

impl<S: Trees> Store<S> {
    // rule: new-numbers
    /// Takes `count` replica numbers that no call took before, the next free ones, and answers the first of them once
    /// that is committed. Refused by `NumbersUsed` where fewer are left up to 65,535, and by `LaterFormat` where the table
    /// of numbers has a row of another format.
    pub fn take_numbers(&mut self, count: u16) -> Result<u16, StoreRefusal>
        ensures ok { IfOk result (λ first. IsClean (S.Store.view self.new.trees)
            → Takes (S.Store.view self.old.trees).committed (S.Store.view self.new.trees).committed first count) }
        ensures taken { IfOk result (λ first. IsClean (S.Store.view self.new.trees)
            → AreTaken S.Store.recovers self.new.trees (first + count)) }
        ensures above { IfOk result (λ first. IsClean (S.Store.view self.new.trees)
            → (next : ℕ) → AreTaken S.Store.recovers self.old.trees next → next ≤ first) }
        ensures kept { (next : ℕ) → AreTaken S.Store.recovers self.old.trees next → AreTaken S.Store.recovers self.new.trees next }
        ensures clean { doubt (S.Store.view self.old.trees).is_clean ≤ doubt (S.Store.view self.new.trees).is_clean }
        ensures crash { Survives S.Store.recovers self.old.trees self.new.trees
            (λ db. (first : ℕ) × Takes (S.Store.view self.old.trees).committed db first count) }
        ensures err { OnErr result (IsTrue (S.Store.view self.new.trees).is_open
            → (S.Store.view self.new.trees).committed ≡ (S.Store.view self.old.trees).committed) }
    {
        begin(&mut self.trees)?;
        match self.take_next(count) {
            Ok(first) => {
                commit(&mut self.trees)?;
                Ok(first)
            }
            Err(refusal) => {
                end(&mut self.trees);
                Err(refusal)
            }
        }
    }

    // rule: new-numbers
    /// Takes the `count` numbers from `first` on, once that is committed, and with them the free ones below. Refused by
    /// `NumberTaken` where `first` is below the next free one, by `NumbersUsed` where the last is above 65,535, and by
    /// `LaterFormat` as `take_numbers`.
    pub fn take_numbers_from(&mut self, first: u16, count: u16) -> Result<(), StoreRefusal>
        ensures ok { OnOk result (IsClean (S.Store.view self.new.trees)
            → Takes (S.Store.view self.old.trees).committed (S.Store.view self.new.trees).committed first count) }
        ensures taken { OnOk result (IsClean (S.Store.view self.new.trees)
            → AreTaken S.Store.recovers self.new.trees (first + count)) }
        ensures above { OnOk result (IsClean (S.Store.view self.new.trees)
            → (next : ℕ) → AreTaken S.Store.recovers self.old.trees next → next ≤ first) }
        ensures kept { (next : ℕ) → AreTaken S.Store.recovers self.old.trees next → AreTaken S.Store.recovers self.new.trees next }
        ensures clean { doubt (S.Store.view self.old.trees).is_clean ≤ doubt (S.Store.view self.new.trees).is_clean }
        ensures crash { Survives S.Store.recovers self.old.trees self.new.trees
            (λ db. Takes (S.Store.view self.old.trees).committed db first count) }
        ensures err { OnErr result (IsTrue (S.Store.view self.new.trees).is_open
            → (S.Store.view self.new.trees).committed ≡ (S.Store.view self.old.trees).committed) }
    {
        begin(&mut self.trees)?;
        match self.take_from(first, count) {
            Ok(()) => commit(&mut self.trees),
            Err(refusal) => {
                end(&mut self.trees);
                Err(refusal)
            }
        }
    }

    fn take_next(&mut self, count: u16) -> Result<u16, StoreRefusal>
        requires tables { HasTables (S.Store.view self.old.trees) }
        ensures pending { IsPending S.Store.view S.Store.recovers self.old.trees self.new.trees }
        ensures ok { IfOk result (λ first. IsClean (S.Store.view self.new.trees)
            → Takes (S.Store.view self.old.trees).trees (S.Store.view self.new.trees).trees first count) }
    {
        let first = self.next()?;
        let Ok(given) = u16::try_from(first) else {
            return Err(StoreRefusal::NumbersUsed);
        };
        self.take(first, count)?;
        Ok(given)
    }

    fn take_from(&mut self, first: u16, count: u16) -> Result<(), StoreRefusal>
        requires tables { HasTables (S.Store.view self.old.trees) }
        ensures pending { IsPending S.Store.view S.Store.recovers self.old.trees self.new.trees }
        ensures ok { OnOk result (IsClean (S.Store.view self.new.trees)
            → Takes (S.Store.view self.old.trees).trees (S.Store.view self.new.trees).trees first count) }
    {
        if u32::from(first) < self.next()? {
            return Err(StoreRefusal::NumberTaken);
        }
        self.take(u32::from(first), count)
    }

    // The next free number.
    fn next(&mut self) -> Result<u32, StoreRefusal>
        requires tables { HasTables (S.Store.view self.old.trees) }
        ensures pending { IsPending S.Store.view S.Store.recovers self.old.trees self.new.trees }
        ensures tables { HasTables (S.Store.view self.new.trees) }
        ensures range { IfOk result (λ next. next ≤ 65536) }
        ensures ok { IfOk result (λ next. IsClean (S.Store.view self.new.trees)
            → (next ≡ next_number (S.Store.view self.old.trees).trees)
            × ((S.Store.view self.new.trees).trees ≡ (S.Store.view self.old.trees).trees)) }
    {
        if !get_number(&mut self.trees, FORMAT, &mut self.row)? {
            self.refuse_later()?;
            return Ok(1);
        }
        match self.row.get(2) {
            ValueRef::Int(next) if 1 <= next && next <= 65_536 => Ok(next as u32),
            _ => Err(StoreRefusal::Damaged),
        }
    }

    // Refuses a table of numbers that has a row, of another format.
    fn refuse_later(&mut self) -> Result<(), StoreRefusal>
        requires tables { HasTables (S.Store.view self.old.trees) }
        ensures pending { IsPending S.Store.view S.Store.recovers self.old.trees self.new.trees }
        ensures tables { HasTables (S.Store.view self.new.trees) }
        ensures same { OnOk result (IsClean (S.Store.view self.new.trees)
            → (S.Store.view self.new.trees).trees ≡ (S.Store.view self.old.trees).trees) }
    {
        self.key.clear();
        seek_number(&mut self.trees, &self.key)?;
        if next_row(&mut self.trees, &mut self.row)? {
            return Err(StoreRefusal::LaterFormat);
        }
        Ok(())
    }

    // Notes that the numbers are taken.
    fn take(&mut self, first: u32, count: u16) -> Result<(), StoreRefusal>
        requires tables { HasTables (S.Store.view self.old.trees) }
        requires small { first ≤ 65536 }
        ensures pending { IsPending S.Store.view S.Store.recovers self.old.trees self.new.trees }
        ensures fits { OnOk result (first + count ≤ 65536) }
        ensures ok { OnOk result (IsClean (S.Store.view self.new.trees)
            → Notes (S.Store.view self.old.trees).trees (S.Store.view self.new.trees).trees (first + count)) }
    {
        let next = first + u32::from(count);
        if next > NUMBERS_END {
            return Err(StoreRefusal::NumbersUsed);
        }
        fill_number(&mut self.row, next)?;
        put_number(&mut self.trees, &self.row)
    }
}

// Makes the row the one of the table of numbers.
fn fill_number(row: &mut Row, next: u32) -> Result<(), StoreRefusal>
    ensures ok { OnOk result (row.new ≡ Int (pos 1) ∷ Null ∷ Int (pos next) ∷ []) }
{
    row.clear();
    row.push(ValueRef::Int(FORMAT))?;
    row.push(ValueRef::Null)?;
    row.push(ValueRef::Int(i64::from(next)))?;
    Ok(())
}
