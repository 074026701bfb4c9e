// The changes of a file that are made before anybody is answered.
ghost use Rattle.std.specs.Prelude.{◌≡◌, ◌≤◌, None, IfErr, IfOk, OnErr};
ghost use Rattle.xds_resource.specs.Any.{resource_type, named_body};
ghost use Rattle.xds_resource.specs.Refusals.{Gives};
ghost use Rattle.xds_events.specs.Seen.{event_of};
ghost use Rattle.xds_events.specs.Stores.{all_entries, deleting_at, if_done, putting_at};
ghost use Rattle.xds_changes.specs.Loads.{HasLoaded, end_by, loading, made_by, number_at};

use crate::change::Change;
use crate::input::{Hands, take_lines};
use std::alloc::Global;
use std::io::Read;
use std::sync::Wait;
use xds_events::{Catalogues, Event};
use xds_message::Batch;
use xds_notes::End;
use xds_resource::{AnyResource, Groups, Refusal, TypeName};

// rule: new-numbers
/// The number of the replica at this place among those of a server, from 1, where the first has this one. None is greater than 65,535.
pub fn number_at(first: u16, place: u16) -> u16
    ensures { result ≡ number_at first place }
{
    first.saturating_add(place.saturating_sub(1)).max(1)
}

/// What the changes of a file come to, so far: each is made by its replica over all that was made before, by whichever replica. So the
/// replicas of a server begin with all of them, and each has a stamp of its own.
pub struct Loader {
    held: Catalogues,
    /// The number of the first replica.
    first: u16,
    /// How many replicas there are.
    replicas: u16,
    /// The line of the first change that was refused, and why.
    refused: Option<(u64, Refusal)>,
}

// Written out: docs/PROVING.md, "Drops".
impl Drop for Loader {
    fn drop(self) {
        let Loader {
            held: _,
            first: _,
            replicas: _,
            refused: _,
        } = self;
    }
}

impl Hands for Loader {
    ghost use Rattle.xds_changes.specs.Loads.{Takes};

    ghost hands = { Takes };

    // rule: loaded-first
    fn hand<R: Wait>(&mut self, _rt: &R, change: Change) {
        if self.refused.is_some() {
            drop(change);
            return;
        }
        let Change {
            line,
            replica,
            event,
        } = change;
        if let Err(refusal) = self.make(replica, event) {
            self.refused = Some((line, refusal));
        }
    }
}

impl Loader {
    /// Nothing is made yet over this. The first of so many replicas has this number.
    pub fn new(held: Catalogues, first: u16, replicas: u16) -> Loader
        ensures first { result.first ≡ first }
        ensures replicas { result.replicas ≡ replicas }
        ensures held { result.held ≡ held }
        ensures none { result.refused ≡ None }
    {
        Loader {
            held,
            first,
            replicas,
            refused: None,
        }
    }

    // rule: new-numbers, rule: loaded-first
    // Makes a change at the replica of this place. What is refused changes nothing.
    fn make(&mut self, replica: u16, event: Event) -> Result<(), Refusal>
        ensures made { Gives (λ _. self.new.held) result (loading self.old.first self.old.replicas self.old.held (replica, event_of event)) }
        ensures same { (self.new.first ≡ self.old.first) × (self.new.replicas ≡ self.old.replicas) × (self.new.refused ≡ self.old.refused) }
        ensures err { OnErr result (self.new.held ≡ self.old.held) }
    {
        if replica == 0 || replica > self.replicas {
            drop(event);
            return Err(Refusal::BadScript);
        }
        made_by(&mut self.held, number_at(self.first, replica), event)
    }
}

// rule: loaded-first
// Makes a change by the replica of this number.
fn made_by(held: &mut Catalogues, writer: u16, event: Event) -> Result<(), Refusal>
    requires { 1 ≤ writer }
    ensures made { Gives (λ _. held.new) result (made_by writer held.old (event_of event)) }
    ensures err { OnErr result (held.new ≡ held.old) }
{
    match event {
        Event::Put(resource, groups) => put_by(held, writer, resource, groups),
        Event::Delete(kind, name) => deleted_by(held, writer, kind, name.as_str()),
        _ => Err(Refusal::BadScript),
    }
}

fn put_by(
    held: &mut Catalogues,
    writer: u16,
    resource: AnyResource,
    groups: Groups,
) -> Result<(), Refusal>
    requires { 1 ≤ writer }
    ensures made { Gives (λ _. held.new) result (if_done (λ p. p.1) (putting_at held.old (resource_type resource) (named_body resource) groups writer)) }
    ensures err { OnErr result (held.new ≡ held.old) }
{
    match held.put(resource, groups, writer) {
        Ok(_) => Ok(()),
        Err(refusal) => Err(refusal),
    }
}

fn deleted_by(held: &mut Catalogues, writer: u16, kind: TypeName, name: &str) -> Result<(), Refusal>
    requires { 1 ≤ writer }
    ensures made { Gives (λ _. held.new) result (if_done (λ p. p.1) (deleting_at held.old kind name.now writer)) }
    ensures err { OnErr result (held.new ≡ held.old) }
{
    match held.delete(kind, name, writer) {
        Ok(_) => Ok(()),
        Err(refusal) => Err(refusal),
    }
}

// rule: loaded-first
/// All that is held once the lines of an input are made, the last of which needs no line feed, over what is held before: each is a
/// change, made by its replica, of which the first of so many has this number, over all that the lines before it made.
///
/// Refused are, each with the number of its line: a line that is no change (`BadScript`), or is too long (`TooLong`); a replica that
/// isn't there (`BadScript`); and a change that is refused there, as the deletion of what isn't there (`NotFound`). Refused are without a
/// line what can't be read (`Device`), and what all changes come to where there is no memory for it (`OutOfMemory`). A line and a change
/// for which there is no memory are refused with the number of the line. A line that is no change is told before a change of a line
/// before it that is refused: a refused change is told once all lines were taken, and the changes behind it aren't made.
pub fn load<I: Read, R: Wait>(
    rt: &R,
    alloc: Global,
    input: &mut I,
    held: Catalogues,
    first: u16,
    replicas: u16,
) -> Result<Batch, End>
    ensures { HasLoaded first replicas held (I.remaining input.old) (I.remaining input.new) result }
{
    let mut loader = Loader::new(held, first, replicas);
    match take_lines(rt, alloc, input, &mut loader) {
        Ok(()) => loaded(alloc, loader),
        Err(end) => {
            drop(loader);
            Err(end)
        }
    }
}

// All that was loaded, unless a change was refused.
fn loaded(alloc: Global, loader: Loader) -> Result<Batch, End>
    ensures ok { IfOk result (λ b. (loader.refused ≡ None) × (b ≡ all_entries loader.held)) }
    ensures refused { IfErr result (λ e. e ≡ end_by loader.refused) }
{
    if let Some((line, refusal)) = loader.refused {
        drop(loader);
        return Err(End::Line(line, refusal));
    }
    let batch = loader.held.entries(alloc);
    drop(loader);
    match batch {
        Ok(batch) => Ok(batch),
        Err(refusal) => Err(End::Refused(refusal)),
    }
}
