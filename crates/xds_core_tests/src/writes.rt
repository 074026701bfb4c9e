// Batches as texts: their writes, apart by spaces.
use crate::parts::{Told, text_of};
use serde_json::Value;
use std::alloc::Global;
use xds_message::{Batch, read_write, write_object};
use xds_resource::{AnyWrite, Cluster, Endpoint, Listener, Refusal, Route, Secret, Write};

/// The batch of the writes in a text.
pub(crate) fn batch_of(alloc: Global, text: &str) -> Result<Batch, Refusal> {
    let mut batch = Batch::new(alloc);
    let read = read_onto(alloc, &mut batch, text);
    after(read, batch)
}

// The value, if what went before was not refused.
fn after<V: Drop>(done: Result<(), Refusal>, value: V) -> Result<V, Refusal> {
    done?;
    Ok(value)
}

fn read_onto(alloc: Global, batch: &mut Batch, text: &str) -> Result<(), Refusal> {
    for part in text.split_whitespace() {
        batch.push(read_write(alloc, part.as_bytes())?)?;
    }
    Ok(())
}

impl Told for Write<Cluster> {
    fn text(&self, alloc: Global) -> Result<String, Refusal> {
        let write = self.try_copy(alloc)?;
        text_of(alloc, AnyWrite::Cluster(write))
    }
}

impl Told for Write<Endpoint> {
    fn text(&self, alloc: Global) -> Result<String, Refusal> {
        let write = self.try_copy(alloc)?;
        text_of(alloc, AnyWrite::Endpoint(write))
    }
}

impl Told for Write<Listener> {
    fn text(&self, alloc: Global) -> Result<String, Refusal> {
        let write = self.try_copy(alloc)?;
        text_of(alloc, AnyWrite::Listener(write))
    }
}

impl Told for Write<Route> {
    fn text(&self, alloc: Global) -> Result<String, Refusal> {
        let write = self.try_copy(alloc)?;
        text_of(alloc, AnyWrite::Route(write))
    }
}

impl Told for Write<Secret> {
    fn text(&self, alloc: Global) -> Result<String, Refusal> {
        let write = self.try_copy(alloc)?;
        text_of(alloc, AnyWrite::Secret(write))
    }
}

/// The writes of a batch, or `none` where it has none.
impl Told for Batch {
    fn text(&self, alloc: Global) -> Result<String, Refusal> {
        let mut all = String::new(alloc);
        add_all(alloc, &mut all, &self.cluster)?;
        add_all(alloc, &mut all, &self.endpoint)?;
        add_all(alloc, &mut all, &self.listener)?;
        add_all(alloc, &mut all, &self.route)?;
        add_all(alloc, &mut all, &self.secret)?;
        if all.is_empty() {
            all.push_str("none")?;
        }
        Ok(all)
    }
}

fn add_all<V: Told>(alloc: Global, all: &mut String, values: &Vec<V>) -> Result<(), Refusal> {
    for value in values {
        add(alloc, all, value)?;
    }
    Ok(())
}

fn add<V: Told>(alloc: Global, all: &mut String, value: &V) -> Result<(), Refusal> {
    if !all.is_empty() {
        all.push(' ')?;
    }
    let text = value.text(alloc)?;
    Ok(all.push_str(text.as_str())?)
}

impl Told for AnyWrite {
    fn text(&self, alloc: Global) -> Result<String, Refusal> {
        let object = write_object(alloc, self)?;
        text_of(alloc, object)
    }
}

impl Told for Value {
    fn text(&self, alloc: Global) -> Result<String, Refusal> {
        Ok(self.to_string(alloc)?)
    }
}
