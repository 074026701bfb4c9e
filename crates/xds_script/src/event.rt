// What may happen in a world of replicas and clients.
ghost use Rattle.std.specs.Prelude.{◌≡◌, IfOk, IfErr};
ghost use Rattle.xds_resource.specs.declared.refusal.Refusal.TheVariants.{OutOfMemory};
ghost use Rattle.xds_script.specs.Happenings.{PutsAResource};
ghost use Rattle.xds_script.specs.ModelSeen.{happening_of, wish_of};

use std::alloc::Global;
use xds_message::copy_texts;
use xds_resource::laws::{groups_are_kept, resources_are_canonical};
use xds_resource::{AnyResource, Groups, Refusal, TypeName};

/// How a client asks: on a stream, in one of the protocol's two variants, or by polls, as one of REST does.
#[derive(Clone, Copy, Debug, PartialEq, Eq)]
pub enum ClientKind {
    Sotw,
    Delta,
    Rest,
}

/// What becomes of the answer to a poll on its way to the client.
#[derive(Clone, Copy, Debug, PartialEq, Eq)]
pub enum AnswerFate {
    /// The client gets it.
    Arrives,
    /// The client never learns of it.
    Lost,
}

/// What a client is told to want of a type.
pub enum Wish {
    /// State of the world and REST: all texts that are wanted from now on.
    Names(Vec<String>),
    /// Delta: texts to subscribe, and texts to unsubscribe.
    Edits(Vec<String>, Vec<String>),
}

// Written out: docs/PROVING.md, "Drops".
impl Drop for Wish {
    fn drop(self) {
        match self {
            Wish::Names(_) => {}
            Wish::Edits(_, _) => {}
        }
    }
}

/// What may happen in a world. Replicas and clients go by their numbers, replicas from 1; a batch goes by its place in the
/// pool, from 1. What isn't possible, or is refused, changes nothing.
#[derive(Drop)]
pub enum WorldEvent {
    /// A replica that holds nothing comes.
    AddReplica(u16),
    /// A client that wants nothing and has no stream comes. The text is that of its cluster, empty where it has none.
    AddClient(u32, ClientKind, String),
    /// A resource is put at a replica, for these groups.
    Put(u16, AnyResource, Groups),
    /// The live resource of a name is deleted at a replica.
    Delete(u16, TypeName, String),
    /// All that a replica holds joins the pool, as a batch.
    Snapshot(u16),
    /// A batch of the pool is merged into a replica.
    Merge(u16, u32),
    /// A client that has no stream, and isn't one of REST, opens one to a replica.
    Connect(u32, u16),
    /// A client wants something else of a type.
    Change(u32, TypeName, Wish),
    /// The replica of a client takes the oldest of its requests that are under way.
    Up(u32),
    /// The replica of a client is polled for it: of a type, or of the first in the order of the types that has a response.
    Poll(u32, Option<TypeName>),
    /// A client takes the oldest response that is under way to it.
    Down(u32),
    /// A client loses its stream, with all that is under way.
    Lose(u32),
    /// A client of REST that wants something of a type polls a replica for it, which answers at once.
    RestPoll(u32, u16, TypeName, AnswerFate),
}

impl Wish {
    /// An equal wish, or `OutOfMemory`.
    pub fn try_copy(&self, alloc: Global) -> Result<Wish, Refusal>
        ensures ok { IfOk result (λ w. wish_of w ≡ wish_of self.now) }
        ensures refused { IfErr result (λ e. e ≡ OutOfMemory) }
    {
        match self {
            Wish::Names(names) => Ok(Wish::Names(copy_texts(alloc, names)?)),
            Wish::Edits(subscribe, unsubscribe) => {
                let subscribed = copy_texts(alloc, subscribe)?;
                Ok(Wish::Edits(subscribed, copy_texts(alloc, unsubscribe)?))
            }
        }
    }
}

impl WorldEvent {
    /// An equal event, or `OutOfMemory`. No body and no group is copied.
    pub fn try_copy(&self, alloc: Global) -> Result<WorldEvent, Refusal>
        ensures ok { IfOk result (λ e. happening_of e ≡ happening_of self.now) }
        ensures refused { IfErr result (λ e. e ≡ OutOfMemory) }
    {
        match self {
            WorldEvent::AddReplica(replica) => Ok(WorldEvent::AddReplica(*replica)),
            WorldEvent::AddClient(client, kind, cluster) => Ok(WorldEvent::AddClient(
                *client,
                *kind,
                String::from_str(alloc, cluster.as_str())?,
            )),
            WorldEvent::Put(replica, resource, groups) => {
                let copy = resource.try_copy(alloc)?;
                Ok(WorldEvent::Put(*replica, copy, groups.try_copy(alloc)?))
            }
            WorldEvent::Delete(replica, kind, name) => Ok(WorldEvent::Delete(
                *replica,
                *kind,
                String::from_str(alloc, name.as_str())?,
            )),
            WorldEvent::Snapshot(replica) => Ok(WorldEvent::Snapshot(*replica)),
            WorldEvent::Merge(replica, batch) => Ok(WorldEvent::Merge(*replica, *batch)),
            WorldEvent::Connect(client, replica) => Ok(WorldEvent::Connect(*client, *replica)),
            WorldEvent::Change(client, kind, wish) => {
                Ok(WorldEvent::Change(*client, *kind, wish.try_copy(alloc)?))
            }
            WorldEvent::Up(client) => Ok(WorldEvent::Up(*client)),
            WorldEvent::Poll(client, which) => Ok(WorldEvent::Poll(*client, *which)),
            WorldEvent::Down(client) => Ok(WorldEvent::Down(*client)),
            WorldEvent::Lose(client) => Ok(WorldEvent::Lose(*client)),
            WorldEvent::RestPoll(client, replica, kind, answer) => {
                Ok(WorldEvent::RestPoll(*client, *replica, *kind, *answer))
            }
        }
    }

    /// What an event puts is a resource of its type, as every resource is, for groups that a write may list, as all groups are.
    pub fn puts_a_resource(&self)
        ensures { PutsAResource (happening_of self.now) }
    {
        if let WorldEvent::Put(_, resource, groups) = self {
            resources_are_canonical(resource);
            groups_are_kept(groups);
        }
    }
}
