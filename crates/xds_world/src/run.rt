// What a world is at a time, with all that happened in it until then.
ghost use Rattle.std.specs.Prelude.{◌≡◌, ◌++◌, [], ◌∷◌, map, IfOk, IfErr, OnOk};
ghost use Rattle.xds_resource.specs.declared.refusal.Refusal.TheVariants.{OutOfMemory};
ghost use Rattle.xds_script.specs.ModelSeen.{happening_of};
ghost use Rattle.xds_world.specs.Worlds.{empty_world};
ghost use Rattle.xds_world.specs.Settling.{link_in, gave_nothing, taken_now};
ghost use Rattle.xds_world.specs.Steps.{event_for};
ghost use Rattle.xds_world.specs.Played.{IsWorldOf, HasStepped, HasEnded};

use crate::link::Step;
use crate::state::State;
use std::alloc::Global;
use xds_cache::Accept;
use xds_resource::{Refusal, TypeName};
use xds_script::WorldEvent;

/// What a world is at a time, with all that happened in it until then.
pub(crate) struct Run<A: Accept> {
    pub(crate) state: State<A>,
    pub(crate) events: Vec<WorldEvent>,
}

// Written out: docs/PROVING.md, "Drops".
impl<A: Accept> Drop for Run<A> {
    fn drop(self) {
        let Run {
            state: _,
            events: _,
        } = self;
    }
}

impl<A: Accept> Run<A> {
    /// A world in which nothing happened.
    pub(crate) fn new(alloc: Global) -> Run<A>
        ensures played { IsWorldOf A.accepts result.state (map happening_of result.events.items) }
        ensures empty { map happening_of result.events.items ≡ [] }
    {
        Run {
            state: State::new(alloc),
            events: Vec::new(alloc),
        }
    }

    /// Something happens, or isn't possible. Refused only by `OutOfMemory`, and then the run is of no use any more.
    pub(crate) fn play(&mut self, alloc: Global, event: &WorldEvent) -> Result<(), Refusal>
        requires { IsWorldOf A.accepts self.old.state (map happening_of self.old.events.items) }
        ensures played { OnOk result (IsWorldOf A.accepts self.new.state (map happening_of self.new.events.items)) }
        ensures longer { OnOk result (map happening_of self.new.events.items ≡ map happening_of self.old.events.items ++ happening_of event.now ∷ []) }
        ensures refused { IfErr result (λ e. e ≡ OutOfMemory) }
    {
        event.puts_a_resource();
        self.state.happen(alloc, event)?;
        self.events.push(event.try_copy(alloc)?)?;
        Ok(())
    }

    /// A step of settling a client. Answers whether it was possible; where it wasn't, nothing happened.
    pub(crate) fn step(
        &mut self,
        alloc: Global,
        client: u32,
        kind: TypeName,
        step: Step,
    ) -> Result<bool, Refusal>
        ensures ok { IfOk result (λ b. HasStepped A.accepts self.old.state (map happening_of self.old.events.items) b self.new.state (map happening_of self.new.events.items) (event_for client kind step)) }
        ensures refused { IfErr result (λ e. e ≡ OutOfMemory) }
    {
        let event = step.event(client, kind);
        match self.state.happen(alloc, &event) {
            Ok(true) => {
                self.events.push(event)?;
                Ok(true)
            }
            Ok(false) => {
                drop(event);
                Ok(false)
            }
            Err(refusal) => {
                drop(event);
                Err(refusal)
            }
        }
    }
}
