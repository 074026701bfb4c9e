// What the lines of a trace say of one stream, of one type.
ghost use Rattle.std.specs.Prelude.{◌≡◌, bytes_eq, false, None, if◌then◌else◌, map, string_bytes, IfOk, IfErr, OnOk};
ghost use Rattle.std.specs.Option.{option_map_or};
ghost use Rattle.xds_resource.specs.declared.refusal.Refusal.TheVariants.{OutOfMemory};
ghost use Rattle.xds_interest.specs.Asked.{delta_asked};
ghost use Rattle.xds_interest.specs.Delta.{mention_of};
ghost use Rattle.xds_check.specs.Answers.{is_of as is_of_type};
ghost use Rattle.xds_check.specs.Kept as kept;
ghost use Rattle.xds_check.specs.Kept.{unheard, wanted, listed_marks, mentioned_marks, introduced, is_stale, waiting_after, with_asked, with_taken, is_answer, answered, begun_now, requested, responded, with_nonce};

use crate::answer::Answer;
use crate::asking::Asking;
use crate::by_type::is_same;
use crate::marks::{listed, mention, unmark, unmark_stated};
use crate::offering::offer_of;
use std::alloc::Global;
use std::marker::Model;
use std::mem;
use xds_catalogue::Catalogue;
use xds_interest::{ClusterText, DeltaNames, Interest, SotwNames};
use xds_ledger::Due;
use xds_message::DeltaDiscoveryRequest;
use xds_resource::{NameMap, Refusal, ResourceType, TypeName};

/// What is kept of a stream, of the type `T`: what its client wants, its last response, the offers that count, the names that
/// wait for an answer, and the nonces that were used. Contracts see the record of these.
pub(crate) struct StreamTalk<T: ResourceType> {
    known: bool,
    pub(crate) begun: bool,
    sotw: SotwNames<T>,
    delta: DeltaNames<T>,
    last: Option<String>,
    pub(crate) unanswered: Option<NameMap<Due>>,
    pub(crate) refused: Option<NameMap<Due>>,
    pub(crate) waiting: NameMap<bool>,
    pub(crate) used: NameMap<bool>,
}

// Written out: docs/PROVING.md, "Drops".
impl<T: ResourceType> Drop for StreamTalk<T> {
    fn drop(self) {
        let StreamTalk {
            known: _,
            begun: _,
            sotw: _,
            delta: _,
            last: _,
            unanswered: _,
            refused: _,
            waiting: _,
            used: _,
        } = self;
    }
}

impl<T: ResourceType> Model for StreamTalk<T> {
    ghost use Rattle.std.specs.Prelude.{option_map, string_bytes};
    ghost use Rattle.xds_check.specs.Kept as kept;
    ghost use Rattle.xds_check.specs.Kept.{talk_code};

    ghost Value = { kept.StreamTalk };

    ghost coded = { talk_code };

    ghost view = { λ k. record {
      known = k.known;
      begun = k.begun;
      sotw = k.sotw;
      delta = k.delta;
      last = option_map string_bytes k.last;
      unanswered = k.unanswered;
      refused = k.refused;
      waiting = k.waiting;
      used = k.used;
    } };
}

// Puts a value in the place of another.
fn put<V: Drop>(place: &mut V, value: V)
    ensures { place.new ≡ value }
{
    *place = value;
}

// A value, if it is wanted.
fn only_if<V: Drop>(wanted: bool, value: Option<V>) -> Option<V>
    ensures { result ≡ (if wanted then value else None) }
{
    if wanted { value } else { None }
}

// Whether a request is of a type.
fn is_of(kind: TypeName, asking: &Asking) -> bool
    ensures { result ≡ is_of_type kind asking.now }
{
    match TypeName::from_url(asking.type_url()) {
        Some(named) => is_same(named, kind),
        None => false,
    }
}

// rule: delta-names
// Takes a delta request. The names that it doesn't mention aren't looked at.
fn take_mention<T: ResourceType>(
    alloc: Global,
    names: &mut DeltaNames<T>,
    subscribe: &[String],
    unsubscribe: &[String],
) -> Result<(), Refusal>
    ensures ok { OnOk result (names.new ≡ delta_asked T.TYPE names.old (mention_of subscribe.now unsubscribe.now)) }
    ensures refused { IfErr result (λ e. e ≡ OutOfMemory) }
{
    let wanted = names.wanted_by(alloc, subscribe, unsubscribe)?;
    drop(names.widen(alloc, &wanted)?);
    names.narrow(&wanted, unsubscribe);
    Ok(())
}

impl<T: ResourceType> StreamTalk<T> {
    /// What is kept of a stream of which no line spoke.
    pub(crate) fn new(alloc: Global) -> StreamTalk<T>
        ensures { result ≡ unheard }
    {
        StreamTalk {
            known: false,
            begun: false,
            sotw: SotwNames::new(alloc, ClusterText::none()),
            delta: DeltaNames::new(alloc, ClusterText::none()),
            last: None,
            unanswered: None,
            refused: None,
            waiting: NameMap::new(alloc),
            used: NameMap::new(alloc),
        }
    }

    // rule: delta-names
    /// What the client wants.
    pub(crate) fn wanted(&self) -> &Interest<T>
        ensures { result.now ≡ wanted self.now }
    {
        if self.delta.has_begun() {
            self.delta.interest()
        } else {
            self.sotw.interest()
        }
    }

    /// Whether the client speaks delta.
    pub(crate) fn speaks_delta(&self) -> bool
        ensures { result ≡ self.now.delta.begun }
    {
        self.delta.has_begun()
    }

    // Whether a nonce is that of the last response.
    fn is_last(&self, nonce: &str) -> bool
        ensures { result ≡ option_map_or (bytes_eq nonce.now) self.now.last false }
    {
        match &self.last {
            Some(last) => nonce == last.as_str(),
            None => false,
        }
    }

    // rule: groups
    // Notes the client's cluster, where it makes itself known.
    fn introduce(&mut self, alloc: Global, cluster: &str) -> Result<(), Refusal>
        ensures ok { OnOk result (self.new ≡ introduced cluster.now self.old) }
        ensures refused { IfErr result (λ e. e ≡ OutOfMemory) }
    {
        if self.known {
            return Ok(());
        }
        let sotw = ClusterText::new(alloc, cluster)?;
        let delta = sotw.try_copy()?;
        put(&mut self.sotw, SotwNames::new(alloc, sotw));
        put(&mut self.delta, DeltaNames::new(alloc, delta));
        self.known = true;
        Ok(())
    }

    // rule: stale-nonce
    // Whether a request is one that is ignored.
    fn is_stale(&self, asking: &Asking) -> bool
        ensures { result ≡ is_stale self.now asking.now }
    {
        self.begun
            && !self.unanswered.is_some()
            && !asking.nonce().is_empty()
            && !self.is_last(asking.nonce())
    }

    // The names that wait once a request of the state of the world is taken that lists these.
    fn listed_next(&self, alloc: Global, names: &[String]) -> Result<NameMap<bool>, Refusal>
        ensures ok { IfOk result (λ m. m ≡ listed_marks T.TYPE (wanted self.now) self.now.waiting (map string_bytes names.now)) }
        ensures refused { IfErr result (λ e. e ≡ OutOfMemory) }
    {
        listed(alloc, self.wanted(), &self.waiting, names)
    }

    // rule: awaited-names
    fn await_listed(&mut self, alloc: Global, names: &[String]) -> Result<(), Refusal>
        ensures ok { OnOk result (self.new
            ≡ record self.old { waiting = listed_marks T.TYPE (wanted self.old) self.old.waiting (map string_bytes names.now) }) }
        ensures refused { IfErr result (λ e. e ≡ OutOfMemory) }
    {
        let next = self.listed_next(alloc, names)?;
        put(&mut self.waiting, next);
        Ok(())
    }

    // rule: awaited-names
    fn await_mentioned(
        &mut self,
        alloc: Global,
        request: &DeltaDiscoveryRequest,
    ) -> Result<(), Refusal>
        ensures ok { OnOk result (self.new
            ≡ record self.old { waiting = mentioned_marks T.TYPE self.old.begun request.now self.old.waiting }) }
        ensures refused { IfErr result (λ e. e ≡ OutOfMemory) }
    {
        let begun = self.begun;
        mention(alloc, T::TYPE, begun, &mut self.waiting, request)
    }

    // rule: awaited-names
    // Notes which names wait once a request is taken.
    fn await_names(&mut self, alloc: Global, asking: &Asking) -> Result<(), Refusal>
        ensures ok { OnOk result (self.new ≡ record self.old { waiting = waiting_after T.TYPE self.old asking.now }) }
        ensures refused { IfErr result (λ e. e ≡ OutOfMemory) }
    {
        match asking {
            Asking::Sotw(request) => self.await_listed(alloc, &request.resource_names),
            Asking::Delta(request) => self.await_mentioned(alloc, request),
        }
    }

    // rule: listed-names, rule: delta-names
    // Notes what a request asks for.
    fn ask(&mut self, alloc: Global, asking: &Asking) -> Result<(), Refusal>
        ensures ok { OnOk result (self.new ≡ with_asked T.TYPE self.old asking.now) }
        ensures refused { IfErr result (λ e. e ≡ OutOfMemory) }
    {
        match asking {
            Asking::Sotw(request) => {
                drop(self.sotw.take(alloc, &request.resource_names)?);
                Ok(())
            }
            Asking::Delta(request) => {
                let subscribe = &request.resource_names_subscribe;
                let unsubscribe = &request.resource_names_unsubscribe;
                take_mention(alloc, &mut self.delta, subscribe, unsubscribe)
            }
        }
    }

    // Takes a request.
    fn take(&mut self, alloc: Global, asking: &Asking) -> Result<(), Refusal>
        ensures ok { OnOk result (self.new ≡ with_taken T.TYPE asking.now self.old) }
        ensures refused { IfErr result (λ e. e ≡ OutOfMemory) }
    {
        self.await_names(alloc, asking)?;
        self.ask(alloc, asking)
    }

    // rule: accept-reject
    // Whether a request answers the response that is unanswered.
    fn is_answer(&self, asking: &Asking) -> bool
        ensures { result ≡ is_answer self.now asking.now }
    {
        self.begun && self.unanswered.is_some() && self.is_last(asking.nonce())
    }

    // rule: accept-reject, rule: refused-offer
    // Notes that the response is answered, if the request does that.
    fn settle(&mut self, asking: &Asking)
        ensures { self.new ≡ answered asking.now self.old }
    {
        if self.is_answer(asking) {
            let offer = mem::replace(&mut self.unanswered, None);
            put(&mut self.refused, only_if(asking.rejects(), offer));
        }
    }

    // rule: stale-nonce
    // Takes or ignores a request of the type.
    fn hear_own(&mut self, alloc: Global, asking: &Asking) -> Result<(), Refusal>
        ensures ok { OnOk result (self.new ≡ requested T.TYPE asking.now self.old) }
        ensures refused { IfErr result (λ e. e ≡ OutOfMemory) }
    {
        if !self.is_stale(asking) {
            self.take(alloc, asking)?;
        }
        self.settle(asking);
        self.begun = true;
        Ok(())
    }

    /// A request on the stream, of whatever type. Refused only by `OutOfMemory`.
    pub(crate) fn hear_request(&mut self, alloc: Global, asking: &Asking) -> Result<(), Refusal>
        ensures ok { OnOk result (self.new ≡ kept.asked T.TYPE asking.now self.old) }
        ensures refused { IfErr result (λ e. e ≡ OutOfMemory) }
    {
        self.introduce(alloc, asking.cluster())?;
        if is_of(T::TYPE, asking) {
            self.hear_own(alloc, asking)?;
        }
        Ok(())
    }

    // rule: new-nonce
    // Notes that a nonce was used.
    fn use_nonce(&mut self, alloc: Global, nonce: &str) -> Result<(), Refusal>
        ensures ok { OnOk result (self.new ≡ with_nonce nonce.now self.old) }
        ensures refused { IfErr result (λ e. e ≡ OutOfMemory) }
    {
        self.used.put(alloc, nonce, Some(true))
    }

    // rule: awaited-names, rule: one-unanswered
    // A response of the type.
    fn hear_own_answer(
        &mut self,
        alloc: Global,
        catalogue: &Catalogue<T>,
        answer: &Answer,
    ) -> Result<(), Refusal>
        ensures ok { OnOk result (self.new ≡ responded catalogue.now.entries answer.now self.old) }
        ensures refused { IfErr result (λ e. e ≡ OutOfMemory) }
    {
        let last = String::from_str(alloc, answer.nonce())?;
        let offer = offer_of(alloc, catalogue, answer)?;
        unmark_stated(&mut self.waiting, answer.statements());
        unmark(&mut self.waiting, answer.removed());
        put(&mut self.last, Some(last));
        put(&mut self.unanswered, Some(offer));
        Ok(())
    }

    // rule: new-nonce
    /// A response on the stream, of whatever type. Refused only by `OutOfMemory`.
    pub(crate) fn hear_answer(
        &mut self,
        alloc: Global,
        catalogue: &Catalogue<T>,
        answer: &Answer,
    ) -> Result<(), Refusal>
        ensures ok { OnOk result (self.new ≡ kept.told T.TYPE catalogue.now.entries answer.now self.old) }
        ensures refused { IfErr result (λ e. e ≡ OutOfMemory) }
    {
        self.use_nonce(alloc, answer.nonce())?;
        if is_same(answer.kind(), T::TYPE) {
            self.hear_own_answer(alloc, catalogue, answer)?;
        }
        Ok(())
    }
}
