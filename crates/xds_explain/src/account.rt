// What a client asked for of one type, and what became of the responses to it, by the lines of a trace.
use crate::looks::{is_star, nonce_at};
use std::alloc::Global;
use xds_catalogue::Catalogue;
use xds_check::{Answer, Asking, ByType, Line};
use xds_interest::{ClusterText, DeltaNames, Interest, SotwNames};
use xds_message::{DeltaDiscoveryRequest, DiscoveryRequest};
use xds_resource::{AnyWrite, NameMap, Refusal, ResourceType, TypeName};

/// What some lines of a trace say of a stream, of the type `T`. Lines go by their places, from 0.
pub(crate) struct StreamAccount<T: ResourceType> {
    known: bool,
    begun: bool,
    sotw: SotwNames<T>,
    delta: DeltaNames<T>,
    // All writes of the type that came.
    pub(crate) catalogue: Catalogue<T>,
    // The names that wait for an answer, each with the request that asked for it.
    pub(crate) waiting: NameMap<usize>,
    // The last response.
    last: Option<usize>,
    // The response that no request answered.
    pub(crate) unanswered: Option<usize>,
    // The response that was rejected last, none having been accepted since, and its rejection.
    pub(crate) refused: Option<(usize, usize)>,
}

// Written out: docs/PROVING.md, "Drops".
impl<T: ResourceType> Drop for StreamAccount<T> {
    fn drop(self) {
        let StreamAccount {
            known: _,
            begun: _,
            sotw: _,
            delta: _,
            catalogue: _,
            waiting: _,
            last: _,
            unanswered: _,
            refused: _,
        } = self;
    }
}

// Puts a value in the place of another.
fn put<V: Drop>(place: &mut V, value: V) {
    *place = value;
}

impl<T: ByType> StreamAccount<T> {
    // Before the first line.
    fn new(alloc: Global) -> StreamAccount<T> {
        StreamAccount {
            known: false,
            begun: false,
            sotw: SotwNames::new(alloc, ClusterText::none()),
            delta: DeltaNames::new(alloc, ClusterText::none()),
            catalogue: Catalogue::new(alloc),
            waiting: NameMap::new(alloc),
            last: None,
            unanswered: None,
            refused: None,
        }
    }

    /// What these lines say of a stream. Refused only by `OutOfMemory`.
    pub(crate) fn of_lines(
        alloc: Global,
        lines: &[Line],
        stream: u64,
    ) -> Result<StreamAccount<T>, Refusal> {
        let mut account = StreamAccount::new(alloc);
        for (at, line) in lines.iter().enumerate() {
            account.hear(alloc, lines, stream, at, line)?;
        }
        Ok(account)
    }

    // Takes one line more.
    fn hear(
        &mut self,
        alloc: Global,
        lines: &[Line],
        stream: u64,
        at: usize,
        line: &Line,
    ) -> Result<(), Refusal> {
        match line {
            Line::Write(write) => self.write(write),
            Line::Request(on, asking) => self.request(alloc, lines, *on == stream, at, asking),
            Line::Response(on, answer) => {
                self.response(*on == stream, at, answer);
                Ok(())
            }
            Line::Open(_) | Line::Close(_) | Line::Idle(_, _) => Ok(()),
        }
    }

    // Takes a write, if it is one of the type.
    fn write(&mut self, write: &AnyWrite) -> Result<(), Refusal> {
        if let Some(write) = T::write_of(write) {
            self.catalogue.join_write(write.clone()?)?;
        }
        Ok(())
    }

    // Takes a response, if it is one of the type on the stream.
    fn response(&mut self, is_mine: bool, at: usize, answer: &Answer) {
        if !is_mine || answer.kind() != T::TYPE {
            return;
        }
        for statement in answer.statements() {
            drop(self.waiting.remove(statement.name()));
        }
        for name in answer.removed() {
            drop(self.waiting.remove(name.as_str()));
        }
        self.last = Some(at);
        self.unanswered = Some(at);
    }

    // Takes a request, if it came on the stream.
    fn request(
        &mut self,
        alloc: Global,
        lines: &[Line],
        is_mine: bool,
        at: usize,
        asking: &Asking,
    ) -> Result<(), Refusal> {
        if !is_mine {
            return Ok(());
        }
        self.introduce(alloc, asking.cluster())?;
        if TypeName::from_url(asking.type_url()) != Some(T::TYPE) {
            return Ok(());
        }
        if !self.is_stale(lines, asking) {
            self.take(alloc, at, asking)?;
        }
        self.settle(lines, at, asking);
        self.begun = true;
        Ok(())
    }

    // Notes the client's cluster, where it makes itself known.
    fn introduce(&mut self, alloc: Global, cluster: &str) -> Result<(), Refusal> {
        if self.known {
            return Ok(());
        }
        let sotw = ClusterText::new(alloc, cluster)?;
        let delta = sotw.try_copy()?;
        put(&mut self.sotw, SotwNames::new(alloc, sotw));
        put(&mut self.delta, DeltaNames::new(alloc, delta));
        self.known = true;
        Ok(())
    }

    // Whether a response has the nonce of a request.
    fn has_nonce(lines: &[Line], at: Option<usize>, nonce: &str) -> bool {
        match at {
            Some(at) => nonce_at(lines, at) == nonce,
            None => false,
        }
    }

    // rule: stale-nonce
    // Whether a request is one that is ignored.
    fn is_stale(&self, lines: &[Line], asking: &Asking) -> bool {
        let nonce = asking.nonce();
        self.begun
            && self.unanswered.is_none()
            && !nonce.is_empty()
            && !StreamAccount::<T>::has_nonce(lines, self.last, nonce)
    }

    // rule: accept-reject
    // Notes what becomes of the response that is unanswered, if the request answers it.
    fn settle(&mut self, lines: &[Line], at: usize, asking: &Asking) {
        let Some(sent) = self.unanswered else {
            return;
        };
        if self.begun && nonce_at(lines, sent) == asking.nonce() {
            self.unanswered = None;
            self.refused = if asking.rejects() {
                Some((sent, at))
            } else {
                None
            };
        }
    }

    // Takes what a request asks for.
    fn take(&mut self, alloc: Global, at: usize, asking: &Asking) -> Result<(), Refusal> {
        match asking {
            Asking::Sotw(request) => self.list(alloc, at, request),
            Asking::Delta(request) => self.mention(alloc, at, request),
        }
    }

    // rule: listed-names, rule: awaited-names
    // Takes a list. A name waits that waited before, or that the list before lacked.
    fn list(
        &mut self,
        alloc: Global,
        at: usize,
        request: &DiscoveryRequest,
    ) -> Result<(), Refusal> {
        let mut waiting = NameMap::new(alloc);
        let explicit = explicit_names(alloc, self.interest())?;
        for name in &request.resource_names {
            let name = name.as_str();
            if !is_star(T::TYPE, name) {
                waiting.put(alloc, name, self.waits_since(&explicit, at, name))?;
            }
        }
        drop(self.sotw.take(alloc, &request.resource_names)?);
        put(&mut self.waiting, waiting);
        Ok(())
    }

    // Since which request a name waits that this one lists.
    fn waits_since(&self, explicit: &NameMap<bool>, at: usize, name: &str) -> Option<usize> {
        if let Some(since) = self.waiting.get(name) {
            return Some(*since);
        }
        if explicit.contains(name) {
            return None;
        }
        Some(at)
    }

    // rule: delta-names, rule: awaited-names
    // Takes the two lists of a delta request. A name waits that is subscribed, but for one of which the first request says that the
    // client has it.
    fn mention(
        &mut self,
        alloc: Global,
        at: usize,
        request: &DeltaDiscoveryRequest,
    ) -> Result<(), Refusal> {
        for name in &request.resource_names_unsubscribe {
            drop(self.waiting.remove(name.as_str()));
        }
        for name in &request.resource_names_subscribe {
            let name = name.as_str();
            let is_had = !self.begun && request.initial_resource_versions.get(name).is_some();
            if !is_had && !is_star(T::TYPE, name) {
                self.waiting.put(alloc, name, Some(at))?;
            }
        }
        let subscribe = &request.resource_names_subscribe;
        let unsubscribe = &request.resource_names_unsubscribe;
        drop(self.delta.take(alloc, subscribe, unsubscribe)?);
        Ok(())
    }

    /// What the client asks for.
    pub(crate) fn interest(&self) -> &Interest<T> {
        if self.delta.has_begun() {
            self.delta.interest()
        } else {
            self.sotw.interest()
        }
    }

    /// Whether the client speaks delta.
    pub(crate) fn speaks_delta(&self) -> bool {
        self.delta.has_begun()
    }
}

// The explicit names of an interest.
fn explicit_names<T: ResourceType>(
    alloc: Global,
    interest: &Interest<T>,
) -> Result<NameMap<bool>, Refusal> {
    let mut names = NameMap::new(alloc);
    for name in interest.names() {
        names.put(alloc, name.as_str(), Some(true))?;
    }
    Ok(names)
}
