// How writes are joined to the tables of a catalogue: one, or a batch of which all or none are taken.
ghost use Rattle.std.specs.Prelude.{◌≡◌, ◌<◌, ◌≤◌, ◌^◌, ℕ, length, ◌∷◌, [], ◌++◌, true, nat_lt, IsOk, IfOk, IfErr, OnOk, OnErr};
ghost use Rattle.std.specs.FinMap as finmap;
ghost use Rattle.xds_resource.specs.Best.{best};
ghost use Rattle.xds_resource.specs.Refusals.{Gives};
ghost use Rattle.xds_resource.specs.Stamps.{max_counter};
ghost use Rattle.xds_catalogue.specs.Holdings.{IsCatalogue};
ghost use Rattle.xds_catalogue.specs.Changes.{surpasses, is_news as news_after};
ghost use Rattle.xds_catalogue.specs.Joins.{changes_by, joined, joining};
ghost use Rattle.xds_catalogue.specs.Pending.{tables_before};
ghost use Rattle.xds_catalogue.specs.Tables.{IsSound, IsSoundBut, held_by, former_numbers, all_taken_back, with_counts};

use crate::tables::{Displaced, Tables};
use std::alloc::Global;
use std::cmp::Ordering;
use xds_resource::stamp::MAX_COUNTER;
use xds_resource::{Refusal, ResourceType, Write};

// rule: greatest-write
// Joins a write, and answers how many entries it added or replaced.
pub(crate) fn join<T: ResourceType>(tables: &mut Tables<T>, write: Write<T>) -> Result<u64, Refusal>
    requires { IsSound tables.old }
    ensures sound { IsSound tables.new }
    ensures joins { Gives (λ grown. (grown, held_by tables.new)) result (joining (held_by tables.old) (write ∷ [])) }
    ensures memory { IfErr result (λ e. e ≡ Refusal.OutOfMemory → IsOk (joining (held_by tables.old) (write ∷ []))) }
    ensures err { OnErr result (tables.new ≡ tables.old) }
{
    let Some(former) = tables.former(&write) else {
        return Ok(0);
    };
    if tables.changes() == MAX_COUNTER {
        return Err(Refusal::CounterSpent);
    }
    tables.put(write)?;
    if let Some(number) = former {
        tables.remove_number(number);
    }
    Ok(1)
}

// rule: greatest-write, rule: refused-event
// Joins writes, all or none, and answers how many entries they added or replaced.
pub(crate) fn join_all<T: ResourceType>(
    tables: &mut Tables<T>,
    alloc: Global,
    writes: Vec<Write<T>>,
) -> Result<u64, Refusal>
    requires { IsSound tables.old }
    ensures sound { IsSound tables.new }
    ensures joins { Gives (λ grown. (grown, held_by tables.new)) result (joining (held_by tables.old) writes.items) }
    ensures memory { IfErr result (λ e. e ≡ Refusal.OutOfMemory → IsOk (joining (held_by tables.old) writes.items)) }
    ensures err { OnErr result (tables.new ≡ tables.old) }
{
    if is_spent_by(tables, &writes) {
        return Err(Refusal::CounterSpent);
    }
    let changes = tables.changes();
    let displaced = put_all(tables, alloc, writes)?;
    drop_former(tables, displaced);
    Ok(tables.changes() - changes)
}

// rule: greatest-write, rule: refused-event
// Puts the writes that are news, all or none, and answers what they put aside. The numbers that entries had before stay.
pub(crate) fn put_all<T: ResourceType>(
    tables: &mut Tables<T>,
    alloc: Global,
    writes: Vec<Write<T>>,
) -> Result<Vec<Displaced<T>>, Refusal>
    requires sound { IsSound tables.old }
    requires room { (joined (held_by tables.old) writes.items).changes ≤ max_counter }
    ensures sound { IfOk result (λ aside. IsSoundBut (former_numbers aside.items) tables.new) }
    ensures joins { OnOk result (held_by tables.new ≡ joined (held_by tables.old) writes.items) }
    ensures back { IfOk result (λ aside. tables_before tables.new aside.items tables.old.changes tables.old.greatest ≡ tables.old) }
    ensures more { tables.old.changes ≤ tables.new.changes }
    ensures err { OnErr result (tables.new ≡ tables.old) }
    ensures refused { IfErr result (λ e. e ≡ Refusal.OutOfMemory) }
{
    let changes = tables.changes();
    let greatest = tables.greatest();
    let mut displaced = Vec::new(alloc);
    for write in writes {
        if let Err(refusal) = put_news(tables, &mut displaced, write) {
            take_all_back(tables, displaced);
            tables.set_counts(changes, greatest);
            return Err(refusal);
        }
    }
    Ok(displaced)
}

// rule: greatest-write
// Puts a write, if it is news, and keeps what it puts aside.
fn put_news<T: ResourceType>(
    tables: &mut Tables<T>,
    displaced: &mut Vec<Displaced<T>>,
    write: Write<T>,
) -> Result<(), Refusal>
    requires sound { IsSoundBut (former_numbers displaced.old.items) tables.old }
    requires room { surpasses write (finmap.get tables.old.named.entries write.name) ≡ true
        → tables.old.changes < max_counter }
    ensures sound { OnOk result (IsSoundBut (former_numbers displaced.new.items) tables.new) }
    ensures joins { OnOk result (held_by tables.new ≡ joined (held_by tables.old) (write ∷ [])) }
    ensures back { (changes greatest : ℕ)
        → with_counts (all_taken_back tables.new displaced.new.items) changes greatest
        ≡ with_counts (all_taken_back tables.old displaced.old.items) changes greatest }
    ensures refused { IfErr result (λ e. e ≡ Refusal.OutOfMemory) }
{
    if !tables.is_news(&write) {
        return Ok(());
    }
    let aside = tables.aside(&write)?;
    displaced.push(aside)?;
    tables.put(write)?;
    Ok(())
}

// rule: refused-event
// Takes changes back, the last one first.
pub(crate) fn take_all_back<T: ResourceType>(tables: &mut Tables<T>, displaced: Vec<Displaced<T>>)
    ensures { tables.new ≡ all_taken_back tables.old displaced.items }
{
    let mut left = displaced;
    while let Some(last) = left.pop() {
        tables.take_back(last);
    }
}

// Takes out the numbers that entries had before they changed.
pub(crate) fn drop_former<T: ResourceType>(tables: &mut Tables<T>, displaced: Vec<Displaced<T>>)
    requires { IsSoundBut (former_numbers displaced.items) tables.old }
    ensures sound { IsSound tables.new }
    ensures held { held_by tables.new ≡ held_by tables.old }
{
    for change in displaced {
        if let Some(number) = change.former_number() {
            tables.remove_number(number);
        }
    }
}

// Whether the writes would make more changes than can be counted. It takes no memory.
pub(crate) fn is_spent_by<T: ResourceType>(tables: &Tables<T>, writes: &[Write<T>]) -> bool
    requires sound { IsSound tables.now }
    requires few { length writes.now < 2 ^ 64 }
    ensures { result ≡ nat_lt max_counter (joined (held_by tables.now) writes.now).changes }
{
    let room = MAX_COUNTER - tables.changes();
    writes.len() as u64 > room && count_changes(tables, writes) > room
}

// How many entries the writes add or replace.
fn count_changes<T: ResourceType>(tables: &Tables<T>, writes: &[Write<T>]) -> u64
    requires named { IsCatalogue tables.now.named.entries }
    requires few { length writes.now < 2 ^ 64 }
    ensures { result ≡ changes_by (held_by tables.now) writes.now }
{
    let mut count = 0;
    for place in 0..writes.len() {
        if is_news_after(tables, &writes[..place], &writes[place]) {
            count += 1;
        }
    }
    count
}

// rule: greatest-write
// Whether a write adds or replaces an entry, after the writes before it.
fn is_news_after<T: ResourceType>(tables: &Tables<T>, before: &[Write<T>], write: &Write<T>) -> bool
    requires { IsCatalogue tables.now.named.entries }
    ensures { result ≡ news_after (finmap.values tables.now.named.entries ++ before.now) write.now }
{
    tables.is_news(write) && surpasses_all(write, before)
}

// rule: greatest-write
// Whether a write is greater than each of the others that has its name.
fn surpasses_all<T: ResourceType>(write: &Write<T>, others: &[Write<T>]) -> bool
    ensures { result ≡ surpasses write.now (best others.now write.now.name) }
{
    for other in others {
        if other.name() == write.name() && write.cmp(other) != Ordering::Greater {
            return false;
        }
    }
    true
}
