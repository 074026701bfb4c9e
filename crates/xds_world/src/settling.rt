// Settling a client of a type.
ghost use Rattle.std.specs.Prelude.{◌≡◌, ◌≤◌, true, is_some, map, IfOk, IfErr, OnOk};
ghost use Rattle.xds_resource.specs.declared.refusal.Refusal.TheVariants.{OutOfMemory};
ghost use Rattle.xds_script.specs.ModelSeen.{happening_of};
ghost use Rattle.xds_world.specs.Claims.{Headline};
ghost use Rattle.xds_world.specs.Settling.{HasSettled, IsQuietFor, link_in};
ghost use Rattle.xds_world.specs.Worlds.{world as world_of};
ghost use Rattle.xds_world.specs.Played.{IsWorldOf, HasEnded};
ghost use Rattle.xds_world.specs.Settled.{HasFailed, IsSettledByTaking, IsSettledOrHeldBack};

use crate::run::Run;
use crate::world::World;
use std::alloc::Global;
use xds_cache::Accept;
use xds_resource::{Refusal, TypeName};

/// What settling a client of a type came to.
#[derive(Drop)]
pub struct Settlement<A: Accept> {
    /// The world then.
    pub world: World<A>,
    /// Whether the client is settled. Where it isn't, its replica would send it what it refused.
    pub settled: bool,
    /// How many responses of the type it took.
    pub responses: u64,
}

/// Why a client wasn't settled, with the world as far as there is one.
#[derive(Drop)]
pub enum Unsettled<A: Accept> {
    /// The client has no stream, or there is no such client; the world as it was.
    NoStream(World<A>),
    /// The stream has had all its responses; the world after what happened until then.
    NonceSpent(World<A>),
    OutOfMemory,
}

/// Settles a client of a type: while a request of the client is under way, its replica takes it; else while a response of the type
/// is, the client takes what comes first; else the replica is polled for the type. It ends where the client is settled, or a poll
/// gives no response. Where the client isn't settled then, what the replica would send is what it refused. The client takes two
/// responses of the type at most, and nothing of the type is under way then; where its test takes all that it is to show, it is
/// settled.
pub fn settle<A: Accept>(
    alloc: Global,
    world: World<A>,
    client: u32,
    kind: TypeName,
) -> Result<Settlement<A>, Unsettled<A>>
    ensures linked { IfOk result (λ s. is_some (link_in (world_of A.accepts world) client) ≡ true) }
    ensures settled { IfOk result (λ s. HasSettled A.accepts client kind world s.world s.settled s.responses) }
    ensures few { IfOk result (λ s. s.responses ≤ 2) }
    ensures quiet { IfOk result (λ s. IsQuietFor (world_of A.accepts s.world) client kind) }
    ensures taken { IfOk result (λ s. IsSettledByTaking A.accepts client kind world s.settled) }
    ensures refused { IfOk result (λ s. IsSettledOrHeldBack A.accepts client kind s.world s.settled) }
    ensures headline { IfOk result (λ s. Headline A.accepts s.world) }
    ensures unsettled { IfErr result (λ e. HasFailed A.accepts client kind world e) }
{
    if world.run.state.is_linked(client) {
        settle_linked(alloc, world, client, kind)
    } else {
        Err(Unsettled::NoStream(world))
    }
}

// The same of a client that has a stream.
fn settle_linked<A: Accept>(
    alloc: Global,
    world: World<A>,
    client: u32,
    kind: TypeName,
) -> Result<Settlement<A>, Unsettled<A>>
    requires { is_some (link_in (world_of A.accepts world) client) ≡ true }
    ensures settled { IfOk result (λ s. HasSettled A.accepts client kind world s.world s.settled s.responses) }
    ensures few { IfOk result (λ s. s.responses ≤ 2) }
    ensures quiet { IfOk result (λ s. IsQuietFor (world_of A.accepts s.world) client kind) }
    ensures taken { IfOk result (λ s. IsSettledByTaking A.accepts client kind world s.settled) }
    ensures refused { IfOk result (λ s. IsSettledOrHeldBack A.accepts client kind s.world s.settled) }
    ensures headline { IfOk result (λ s. Headline A.accepts s.world) }
    ensures stopped { IfErr result (λ e. HasFailed A.accepts client kind world e) }
{
    let World { mut run } = world;
    match settle_run(alloc, &mut run, client, kind) {
        Ok(Some((settled, responses))) => Ok(Settlement {
            world: World { run },
            settled,
            responses,
        }),
        Ok(None) => Err(Unsettled::NonceSpent(World { run })),
        Err(_) => Err(Unsettled::OutOfMemory),
    }
}

// Settles a client. Answers whether it is settled and how many responses of the type it took; none where what was to be done next
// wasn't possible.
fn settle_run<A: Accept>(
    alloc: Global,
    run: &mut Run<A>,
    client: u32,
    kind: TypeName,
) -> Result<Option<(bool, u64)>, Refusal>
    requires { IsWorldOf A.accepts run.old.state (map happening_of run.old.events.items) }
    ensures played { OnOk result (IsWorldOf A.accepts run.new.state (map happening_of run.new.events.items)) }
    ensures ended { IfOk result (λ o. HasEnded A.accepts client kind (map happening_of run.old.events.items) (map happening_of run.new.events.items) o) }
    ensures refused { IfErr result (λ e. e ≡ OutOfMemory) }
{
    let mut responses = 0;
    while let Some(step) = run.state.next_to_settle(client, kind) {
        let taken = run.state.taken_in(client, kind, step);
        if !run.step(alloc, client, kind, step)? {
            return Ok(None);
        }
        responses += taken;
        if run.state.gave_nothing(client, kind, step) {
            return Ok(Some((run.state.is_settled(client, kind), responses)));
        }
    }
    Ok(Some((run.state.is_settled(client, kind), responses)))
}
