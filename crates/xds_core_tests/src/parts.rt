// Values with many parts. Of a type parameter, a drop is one step to the proof, and of an event or
// a replica it is many. So where such values are dropped, it is here.
use std::alloc::Global;
use std::mem;
use xds_core::{Core, Event, Record};
use xds_resource::Refusal;

/// What can be copied.
pub trait Copied: Drop + Sized {
    fn copied(&self, alloc: Global) -> Result<Self, Refusal>;
}

impl Copied for Core {
    fn copied(&self, alloc: Global) -> Result<Core, Refusal> {
        self.try_copy(alloc)
    }
}

impl Copied for Event {
    fn copied(&self, alloc: Global) -> Result<Event, Refusal> {
        self.try_copy(alloc)
    }
}

impl Copied for Record {
    fn copied(&self, alloc: Global) -> Result<Record, Refusal> {
        self.try_copy(alloc)
    }
}

/// A value and its copy.
pub(crate) fn doubled<V: Copied>(alloc: Global, value: V) -> Result<(V, V), Refusal> {
    let copy = value.copied(alloc)?;
    Ok((value, copy))
}

/// The copy alone.
pub(crate) fn copy_of<V: Copied>(alloc: Global, value: V) -> Result<V, Refusal> {
    value.copied(alloc)
}

/// Puts a value's copy in its place.
pub(crate) fn renew<V: Copied>(alloc: Global, place: &mut V) -> Result<(), Refusal> {
    let copy = place.copied(alloc)?;
    drop(mem::replace(place, copy));
    Ok(())
}

/// What has a text.
pub trait Told: Drop {
    fn text(&self, alloc: Global) -> Result<String, Refusal>;
}

/// The text of a value that isn't needed any more.
pub(crate) fn text_of<V: Told>(alloc: Global, value: V) -> Result<String, Refusal> {
    value.text(alloc)
}

/// The texts of two values, with `and` between them, or that of the refusal. That no memory was
/// found is no answer.
pub(crate) fn texts_of<V: Told>(
    alloc: Global,
    both: Result<(V, V), Refusal>,
) -> Result<String, Refusal> {
    match both {
        Ok((first, second)) => joined(alloc, first.text(alloc)?, second.text(alloc)?),
        Err(Refusal::OutOfMemory) => Err(Refusal::OutOfMemory),
        Err(refusal) => Ok(refusal.to_string(alloc)?),
    }
}

fn joined(alloc: Global, first: String, second: String) -> Result<String, Refusal> {
    Ok(format!(in alloc; "{first} and {second}")?)
}

/// Whether no memory was found. Another refusal is passed on.
pub(crate) fn is_short<V: Drop>(answer: Result<V, Refusal>) -> Result<bool, Refusal> {
    match answer {
        Ok(_) => Ok(false),
        Err(Refusal::OutOfMemory) => Ok(true),
        Err(refusal) => Err(refusal),
    }
}
