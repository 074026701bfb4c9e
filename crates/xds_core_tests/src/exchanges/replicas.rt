// Replicas, as type parameters: of those a drop is one step to the proof.
use std::alloc::Global;
use xds_core::{Core, Event, Reply};
use xds_exchange::{PeerMarks, Round, round};
use xds_resource::{AnyResource, Groups, Refusal, TypeName};

/// A replica that writes and tells others.
pub trait Site: Drop + Sized {
    fn first(alloc: Global) -> Self;

    fn second(alloc: Global) -> Self;

    fn third(alloc: Global) -> Self;

    /// Puts a resource of this number, in a group where the number is odd.
    fn put(&mut self, alloc: Global, kind: TypeName, number: u64) -> Result<(), Refusal>;

    /// Deletes the resource of this number, if there is one.
    fn delete(&mut self, alloc: Global, kind: TypeName, number: u64) -> Result<(), Refusal>;

    /// Tells another what changed.
    fn tell(&self, alloc: Global, other: &mut Self, peer: &mut PeerMarks) -> Result<Round, Refusal>;

    /// All entries.
    fn text(&mut self, alloc: Global) -> Result<String, Refusal>;
}

impl Site for Core {
    fn first(alloc: Global) -> Core {
        Core::new(alloc, 1)
    }

    fn second(alloc: Global) -> Core {
        Core::new(alloc, 2)
    }

    fn third(alloc: Global) -> Core {
        Core::new(alloc, 3)
    }

    fn put(&mut self, alloc: Global, kind: TypeName, number: u64) -> Result<(), Refusal> {
        let groups = groups_of(alloc, number)?;
        let resource = resource_of(alloc, kind, number)?;
        done(self.step(Event::Put(resource, groups)))
    }

    fn delete(&mut self, alloc: Global, kind: TypeName, number: u64) -> Result<(), Refusal> {
        let name = format!(in alloc; "n{number}")?;
        match done(self.step(Event::Delete(kind, name))) {
            Err(Refusal::NotFound) => Ok(()),
            answer => answer,
        }
    }

    fn tell(
        &self,
        alloc: Global,
        other: &mut Core,
        peer: &mut PeerMarks,
    ) -> Result<Round, Refusal> {
        round(alloc, self, other, peer)
    }

    fn text(&mut self, alloc: Global) -> Result<String, Refusal> {
        let reply = self.step(Event::Snapshot)?;
        let text = entries(alloc, &reply);
        drop(reply);
        text
    }
}

fn done<V: Drop>(answer: Result<V, Refusal>) -> Result<(), Refusal> {
    drop(answer?);
    Ok(())
}

fn entries(alloc: Global, reply: &Reply) -> Result<String, Refusal> {
    match reply {
        Reply::Entries(batch) => batch.write(alloc),
        _ => Err(Refusal::BadScript),
    }
}

fn resource_of(alloc: Global, kind: TypeName, number: u64) -> Result<AnyResource, Refusal> {
    let url = kind.url();
    let field = kind.name_field();
    let text = format!(in alloc; "{{\"@type\":\"{url}\",\"{field}\":\"n{number}\"}}")?;
    AnyResource::parse(alloc, text.as_str())
}

fn groups_of(alloc: Global, number: u64) -> Result<Groups, Refusal> {
    if number % 2 == 0 {
        return Ok(Groups::none());
    }
    let mut texts = Vec::new(alloc);
    texts.push(String::from_str(alloc, "g")?)?;
    Groups::new(alloc, &texts)
}
