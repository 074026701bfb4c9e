// A world that runs, with the list of what happened in it.
ghost use Rattle.std.specs.Prelude.{◌≡◌, ◌++◌, [], ◌∷◌, map, false, option_map, IfOk, IfErr};
ghost use Rattle.std.specs.Option.{option_map_or};
ghost use Rattle.std.specs.FinMap as finmap;
ghost use Rattle.xds_resource.specs.declared.refusal.Refusal.TheVariants.{OutOfMemory};
ghost use Rattle.xds_resource.specs.PerType.{at, each, with_at};
ghost use Rattle.xds_cache.specs.Clients.{view as view_of};
ghost use Rattle.xds_world.specs.Claims.{Headline, is_settled_on};
ghost use Rattle.xds_script.specs.ModelSeen.{happening_of};
ghost use Rattle.xds_world.specs.Worlds.{Site as SiteValue, world as world_of};
ghost use Rattle.xds_world.specs.Statuses.{status_of};
ghost use Rattle.xds_core.specs.Seen.{record_of};

use crate::peer::PeerStatus;
use crate::run::Run;
use std::alloc::Global;
use std::marker::Model;
use xds_cache::{Accept, Cache};
use xds_core::Record;
use xds_message::Batch;
use xds_resource::{Refusal, TypeName};
use xds_script::{ClientKind, WorldEvent};

/// A world of replicas and clients, with the list of what happened in it. `A` is the clients' test of what they are sent.
#[derive(Drop)]
pub struct World<A: Accept> {
    pub(crate) run: Run<A>,
}

impl<A: Accept> Model for World<A> {
    ghost use Rattle.std.specs.Prelude.{◌≡◌, List, map};
    ghost use Rattle.xds_script.specs.Happenings.{Happening};
    ghost use Rattle.xds_script.specs.ModelSeen.{happening_of};
    ghost use Rattle.xds_world.specs.Played.{IsWorldOf};

    ghost Value = { List Happening };

    ghost view = { λ w. map happening_of w.run.events.items };

    ghost invariant = { λ w. IsWorldOf A.accepts w.run.state (map happening_of w.run.events.items) };
}

/// The world in which these events happened, from the start. The headline holds of it: what replicas hold are the best writes of
/// what they know, and clients that are settled, or have just polled, show what their replica knows of what they want. Refused only by
/// `OutOfMemory`.
pub fn play<A: Accept>(alloc: Global, events: &[WorldEvent]) -> Result<World<A>, Refusal>
    ensures ok { IfOk result (λ w. w ≡ map happening_of events.now) }
    ensures headline { IfOk result (λ w. Headline A.accepts w) }
    ensures refused { IfErr result (λ e. e ≡ OutOfMemory) }
{
    let run = Run::new(alloc);
    more(alloc, World { run }, events)
}

/// The world in which these events happened, too. The headline holds of it as of that of `play`. Refused only by
/// `OutOfMemory`.
pub fn more<A: Accept>(
    alloc: Global,
    world: World<A>,
    events: &[WorldEvent],
) -> Result<World<A>, Refusal>
    ensures ok { IfOk result (λ w. w ≡ world ++ map happening_of events.now) }
    ensures headline { IfOk result (λ w. Headline A.accepts w) }
    ensures refused { IfErr result (λ e. e ≡ OutOfMemory) }
{
    let World { mut run } = world;
    for event in events {
        run.play(alloc, event)?;
    }
    Ok(World { run })
}

impl<A: Accept> World<A> {
    /// What a client holds of a type; none where there is no such client.
    pub fn view(&self, client: u32, kind: TypeName) -> Option<&Cache>
        ensures { option_map (λ v. v.now) result ≡ option_map (λ p. view_of p.client kind) (finmap.get (world_of A.accepts self.now).peers client) }
    {
        let peer = self.run.state.peer(client)?;
        Some(peer.view(kind))
    }

    /// How a client asks; none where there is no such client.
    pub fn kind(&self, client: u32) -> Option<ClientKind>
        ensures { result ≡ option_map (λ p. p.kind) (finmap.get (world_of A.accepts self.now).peers client) }
    {
        let peer = self.run.state.peer(client)?;
        Some(peer.kind())
    }

    /// Whether a client is up or down, or polls; none where there is no such client.
    pub fn status(&self, client: u32) -> Option<PeerStatus>
        ensures { result ≡ option_map status_of (finmap.get (world_of A.accepts self.now).peers client) }
    {
        let peer = self.run.state.peer(client)?;
        Some(peer.status())
    }

    /// Whether a client is settled of a type: it is up, nothing of the type is under way, and its replica owes it nothing of the
    /// type; none where there is no such client.
    pub fn settled(&self, client: u32, kind: TypeName) -> Option<bool>
        ensures { result ≡ option_map (λ p. option_map_or (is_settled_on (world_of A.accepts self.now) kind) p.link false) (finmap.get (world_of A.accepts self.now).peers client) }
    {
        let peer = self.run.state.peer(client)?;
        match peer.link() {
            Some(link) => Some(self.run.state.is_settled_on(link, kind)),
            None => Some(false),
        }
    }

    /// What happened at a replica, with the answers; none where there is no such replica.
    pub fn journal(&self, replica: u16) -> Option<&Vec<Record>>
        ensures { option_map (λ v. map record_of v.now.items) result ≡ option_map (λ s. s.journal) (finmap.get (world_of A.accepts self.now).sites replica) }
    {
        let site = self.run.state.site(replica)?;
        Some(site.journal())
    }

    /// All that a replica holds of a type, deletions included, in ascending order of names; none where there is no such replica.
    /// Refused only by `OutOfMemory`.
    pub fn entries(
        &self,
        alloc: Global,
        replica: u16,
        kind: TypeName,
    ) -> Result<Option<Batch>, Refusal>
        ensures ok { IfOk result (λ o. o ≡ option_map (λ (s : SiteValue). with_at (each []) kind (finmap.values (at s.core.store kind).entries)) (finmap.get (world_of A.accepts self.now).sites replica)) }
        ensures refused { IfErr result (λ e. e ≡ OutOfMemory) }
    {
        match self.run.state.site(replica) {
            Some(site) => Ok(Some(site.core().entries(alloc, kind)?)),
            None => Ok(None),
        }
    }

    /// What happened, in order.
    pub fn events(&self) -> &Vec<WorldEvent>
        ensures { map happening_of result.now.items ≡ self.now }
    {
        &self.run.events
    }
}
