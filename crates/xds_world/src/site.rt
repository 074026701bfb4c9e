// A replica with its journal.
ghost use Rattle.std.specs.Prelude.{◌≡◌, ◌≤◌, ◌++◌, [], ◌∷◌, map, Ok, IfOk, IfErr, OnOk};
ghost use Rattle.xds_resource.specs.declared.refusal.Refusal.TheVariants.{OutOfMemory};
ghost use Rattle.xds_core.specs.Seen.{event_of, reply_of};
ghost use Rattle.xds_world.specs.Claims.{owes_nothing};
ghost use Rattle.xds_world.specs.Calls.{Gave};
ghost use Rattle.xds_world.specs.Parts.{fresh_site, answered};
ghost use Rattle.xds_core.specs.Seen.{record_of};

use std::alloc::Global;
use std::marker::Model;
use xds_core::{Core, Event, Record, Reply};
use xds_resource::{Refusal, TypeName};

/// A replica, and what happened at it, with the answers.
pub(crate) struct Site {
    core: Core,
    journal: Vec<Record>,
}

// Written out: docs/PROVING.md, "Drops".
impl Drop for Site {
    fn drop(self) {
        let Site {
            core: _,
            journal: _,
        } = self;
    }
}

impl Model for Site {
    ghost use Rattle.std.specs.Prelude.{map};
    ghost use Rattle.xds_world.specs.Worlds as worlds;
    ghost use Rattle.xds_world.specs.Codes.{site_code};
    ghost use Rattle.xds_core.specs.Seen.{record_of};

    ghost Value = { worlds.Site };

    ghost coded = { site_code };

    ghost view = { λ s. record { core = s.core; journal = map record_of s.journal.items } };
}

// What is left where there is no memory is dropped by calls of `drop`, or as a value of a type parameter: an event or a reply has many
// parts, and to the proof the drop of each is a step wherever one is dropped as such.

// The record of an event that was answered.
fn answered_record(alloc: Global, event: Event, reply: &Reply) -> Result<Record, Refusal>
    ensures ok { IfOk result (λ r. record_of r ≡ record { event = event_of event; answer = Ok (reply_of reply.now) }) }
    ensures refused { IfErr result (λ e. e ≡ OutOfMemory) }
{
    match reply.try_copy(alloc) {
        Ok(copy) => Ok(Record {
            event,
            answer: Ok(copy),
        }),
        Err(refusal) => {
            drop(event);
            Err(refusal)
        }
    }
}

// Puts an item at the end of a list, and gives back what is told then.
fn push_and_tell<T: Drop, V: Drop>(items: &mut Vec<T>, item: T, told: V) -> Result<V, Refusal>
    ensures told { IfOk result (λ v. v ≡ told) }
    ensures items { OnOk result (items.new.items ≡ items.old.items ++ item ∷ []) }
    ensures refused { IfErr result (λ e. e ≡ OutOfMemory) }
{
    items.push(item)?;
    Ok(told)
}

impl Site {
    /// A replica at which nothing happened. `replica` is its number, from 1.
    pub(crate) fn new(alloc: Global, replica: u16) -> Site
        requires { 1 ≤ replica }
        ensures { result ≡ fresh_site replica }
    {
        Site {
            core: Core::new(alloc, replica),
            journal: Vec::new(alloc),
        }
    }

    // rule: refused-event
    /// What an event is answered; nothing where it is refused, and then nothing happened. Refused only by `OutOfMemory`, and then
    /// the replica and its journal may not fit.
    pub(crate) fn take(&mut self, alloc: Global, event: Event) -> Result<Option<Reply>, Refusal>
        ensures ok { IfOk result (λ o. Gave reply_of self.old o self.new (answered self.old (event_of event))) }
        ensures refused { IfErr result (λ e. e ≡ OutOfMemory) }
    {
        let copy = match event.try_copy(alloc) {
            Ok(copy) => copy,
            Err(refusal) => {
                drop(event);
                return Err(refusal);
            }
        };
        match self.core.step(event) {
            Ok(reply) => match answered_record(alloc, copy, &reply) {
                Ok(record) => push_and_tell(&mut self.journal, record, Some(reply)),
                Err(refusal) => {
                    drop(reply);
                    Err(refusal)
                }
            },
            Err(Refusal::OutOfMemory) => {
                drop(copy);
                Err(Refusal::OutOfMemory)
            }
            Err(_) => {
                drop(copy);
                Ok(None)
            }
        }
    }

    pub(crate) fn core(&self) -> &Core
        ensures { result.now ≡ self.now.core }
    {
        &self.core
    }

    pub(crate) fn journal(&self) -> &Vec<Record>
        ensures { map record_of result.now.items ≡ self.now.journal }
    {
        &self.journal
    }

    /// Whether the replica owes nothing of a type on a stream; false where the stream isn't open.
    pub(crate) fn owes_nothing(&self, stream: u64, kind: TypeName) -> bool
        ensures { result ≡ owes_nothing kind stream self.now }
    {
        match self.core.owes(stream, Some(kind)) {
            Some(owes) => !owes,
            None => false,
        }
    }
}
