// A stream, before its first request and after it.
ghost use Rattle.std.specs.Prelude.{◌≡◌, if◌then◌else◌, Some, None, IfSome, IsOk, IfOk, IfErr, OnOk, OnErr};
ghost use Rattle.xds_resource.specs.Refusals.{Gives};
ghost use Rattle.xds_resource.specs.declared.refusal.Refusal.TheVariants.{OutOfMemory};
ghost use Rattle.xds_events.specs.Streams.{IsToRespond, looked_at, opening, owes_some, polled_first, requested};
ghost use Rattle.xds_events.specs.StreamsSeen.{message_of};
ghost use Rattle.xds_core.specs.Talks.{firsts, followed_opening, is_due, StreamFits, StreamStaysFit};
ghost use Rattle.xds_core.specs.States.{followed_of};

use crate::talk::Talk;
use std::alloc::Global;
use std::marker::Model;
use xds_events::catalogues::Catalogues;
use xds_events::parts::put;
use xds_events::request::Request;
use xds_ledger::{Delta, Outcome, StateOfTheWorld};
use xds_message::Draft;
use xds_resource::{Refusal, TypeName};

enum Stage {
    // Before the first request.
    Opening,
    Sotw(Talk<StateOfTheWorld>),
    Delta(Talk<Delta>),
}

// Written out: docs/PROVING.md, "Drops".
impl Drop for Stage {
    fn drop(self) {
        match self {
            Stage::Opening => {}
            Stage::Sotw(_) => {}
            Stage::Delta(_) => {}
        }
    }
}

/// A stream. Contracts see its variant, once the first request decided it, the number of its last response, and a session
/// of each type.
pub struct Stream {
    stage: Stage,
}

// Written out: docs/PROVING.md, "Drops".
impl Drop for Stream {
    fn drop(self) {
        let Stream { stage: _ } = self;
    }
}

impl Model for Stream {
    ghost use Rattle.xds_core.specs.Talks.{Followed, followed_code};
    ghost use Rattle.xds_core.specs.States.{followed_of};

    ghost Value = { Followed };

    ghost coded = { followed_code };

    ghost view = { λ s. followed_of s.stage };
}

impl Stream {
    /// Before the first request. It takes no memory.
    pub fn opening() -> Stream
        ensures { result ≡ followed_opening }
    {
        Stream {
            stage: Stage::Opening,
        }
    }

    // rule: first-variant, rule: groups, rule: refused-event
    /// What becomes of a request. Refused by `WrongVariant` where it isn't of the stream's variant, by `BadMessage`
    /// where it names no type, and by `OutOfMemory`, in this order. The first that isn't refused decides the variant and,
    /// by the cluster of its node, which groups the stars of the stream cover.
    pub fn request(&mut self, alloc: Global, request: &Request) -> Result<Outcome, Refusal>
        ensures answers { Gives (λ o. (o, self.new.stream)) result (requested self.old.stream (message_of request.now)) }
        ensures memory { IfErr result (λ e. e ≡ OutOfMemory → IsOk (requested self.old.stream (message_of request.now))) }
        ensures fits { OnOk result (StreamStaysFit self.old self.new) }
        ensures err { OnErr result (self.new ≡ self.old) }
    {
        match &mut self.stage {
            Stage::Opening => {
                let (outcome, stage) = begin(alloc, request)?;
                put(&mut self.stage, stage);
                Ok(outcome)
            }
            Stage::Sotw(talk) => match request {
                Request::Sotw(request) => talk.request(alloc, request),
                Request::Delta(_) => Err(Refusal::WrongVariant),
            },
            Stage::Delta(talk) => match request {
                Request::Delta(request) => talk.request(alloc, request),
                Request::Sotw(_) => Err(Refusal::WrongVariant),
            },
        }
    }

    // rule: owed
    /// Whether the client is owed something, of a type or at all. It takes no memory.
    pub fn owes(&self, held: &Catalogues, which: Option<TypeName>) -> bool
        requires { StreamFits held.now self.now }
        ensures { result ≡ owes_some held.now self.now.stream (looked_at which) }
    {
        match &self.stage {
            Stage::Opening => false,
            Stage::Sotw(talk) => talk.owes(held, which),
            Stage::Delta(talk) => talk.owes(held, which),
        }
    }

    /// Has what clients share that want everything made, where a next response shares it: as far as there is memory for it. It
    /// changes nothing that is seen.
    pub fn share(&self, alloc: Global, held: &mut Catalogues)
        ensures { held.new ≡ held.old }
    {
        match &self.stage {
            Stage::Opening => {}
            Stage::Sotw(talk) => talk.share(alloc, held),
            Stage::Delta(talk) => talk.share(alloc, held),
        }
    }

    // rule: type-order
    /// The next response, of a type, or of the first in the order of the types that has one, and, where it is asked for twice, an
    /// equal one beside it. Refused only where one is to be sent: by `NonceSpent` where the stream has no number left, and else by
    /// `OutOfMemory`, also where there is no memory for the second; then nothing is sent.
    pub fn poll(
        &mut self,
        alloc: Global,
        replica: u16,
        held: &Catalogues,
        which: Option<TypeName>,
        twice: bool,
    ) -> Result<Option<(Draft, Option<Draft>)>, Refusal>
        requires { StreamFits held.now self.old }
        ensures fits { StreamFits held.now self.new }
        ensures polls { Gives (λ o. (o, self.new.stream)) (firsts result) (polled_first replica held.now self.old.stream (looked_at which)) }
        ensures twin { IfOk result (λ o. IfSome o (λ p. p.1 ≡ (if twice then Some p.0 else None))) }
        ensures memory { IfErr result (λ e. e ≡ OutOfMemory → IsToRespond held.now self.old.stream (looked_at which)) }
        ensures err { OnErr result (self.new.stream ≡ self.old.stream) }
    {
        match &mut self.stage {
            Stage::Opening => Ok(None),
            Stage::Sotw(talk) => talk.poll(alloc, replica, held, which, twice),
            Stage::Delta(talk) => talk.poll(alloc, replica, held, which, twice),
        }
    }

    // rule: wake-ups
    /// Whether a response is to be sent, of any type. It takes no memory.
    pub fn sends(&self, held: &Catalogues) -> bool
        requires { StreamFits held.now self.now }
        ensures { result ≡ is_due held.now self.now.stream }
    {
        match &self.stage {
            Stage::Opening => false,
            Stage::Sotw(talk) => talk.sends(held),
            Stage::Delta(talk) => talk.sends(held),
        }
    }

    /// An equal stream, with memory of its own. Refused only by `OutOfMemory`.
    pub fn try_copy(&self, alloc: Global) -> Result<Stream, Refusal>
        ensures ok { IfOk result (λ s. s ≡ self.now) }
        ensures refused { IfErr result (λ e. e ≡ OutOfMemory) }
    {
        let stage = match &self.stage {
            Stage::Opening => Stage::Opening,
            Stage::Sotw(talk) => Stage::Sotw(talk.try_copy(alloc)?),
            Stage::Delta(talk) => Stage::Delta(talk.try_copy(alloc)?),
        };
        Ok(Stream { stage })
    }
}

// rule: first-variant
// What becomes of the first request, and the stage that it begins.
fn begin(alloc: Global, request: &Request) -> Result<(Outcome, Stage), Refusal>
    ensures answers { Gives (λ p. (p.0, (followed_of p.1).stream)) result (requested opening (message_of request.now)) }
    ensures memory { IfErr result (λ e. e ≡ OutOfMemory → IsOk (requested opening (message_of request.now))) }
    ensures fits { IfOk result (λ p. StreamStaysFit followed_opening (followed_of p.1)) }
{
    match request {
        Request::Sotw(request) => {
            let (outcome, talk) = Talk::begin(alloc, request)?;
            Ok((outcome, Stage::Sotw(talk)))
        }
        Request::Delta(request) => {
            let (outcome, talk) = Talk::begin(alloc, request)?;
            Ok((outcome, Stage::Delta(talk)))
        }
    }
}
