// A stream whose variant is decided.
ghost use Rattle.std.specs.Prelude.{◌≡◌, if◌then◌else◌, Some, None, is_some, IfSome, IsOk, IfOk, IfErr, OnOk, OnErr};
ghost use Rattle.xds_resource.specs.PerType.{at, each, with_at};
ghost use Rattle.xds_resource.specs.Refusals.{Gives};
ghost use Rattle.xds_resource.specs.Types.{types};
ghost use Rattle.xds_resource.specs.declared.refusal.Refusal.TheVariants.{OutOfMemory};
ghost use Rattle.xds_ledger.specs.Sessions.{outcome, unopened};
ghost use Rattle.xds_events.specs.Streams.{IsToRespond, answered, cluster_of, looked_at, nonce_of, session_after, owes_of, owes_some, to_send, polled_first};
ghost use Rattle.xds_core.specs.Talks.{IsPolled, StreamFits, StreamStaysFit, begun, firsts, followed, followed_opening, is_due, stream_in};

use crate::variants::{Tongue, poll_one};
use std::alloc::Global;
use std::marker::Model;
use xds_events::catalogues::Catalogues;
use xds_events::parts::five;
use xds_interest::ClusterText;
use xds_ledger::{Nonces, Outcome};
use xds_message::Draft;
use xds_resource::{Cluster, Endpoint, Listener, Refusal, Route, Secret, TypeName, for_type};
use xds_sessions::Session;

/// The numbers of the responses, and a session of each type, in one variant.
pub(crate) struct Talk<V: Tongue> {
    nonces: Nonces,
    cluster: Session<Cluster, V>,
    endpoint: Session<Endpoint, V>,
    listener: Session<Listener, V>,
    route: Session<Route, V>,
    secret: Session<Secret, V>,
}

// Written out: docs/PROVING.md, "Drops".
impl<V: Tongue> Drop for Talk<V> {
    fn drop(self) {
        let Talk {
            nonces: _,
            cluster: _,
            endpoint: _,
            listener: _,
            route: _,
            secret: _,
        } = self;
    }
}

impl<V: Tongue> Model for Talk<V> {
    ghost use Rattle.xds_core.specs.Talks.{Talk, talk_code};

    ghost Value = { Talk };

    ghost coded = { talk_code };

    ghost view = { λ t. record { count = t.nonces; sessions = record { cluster = t.cluster.session; endpoint = t.endpoint.session; listener = t.listener.session; route = t.route.session; secret = t.secret.session }; lists = record { cluster = t.cluster.listed; endpoint = t.endpoint.listed; listener = t.listener.listed; route = t.route.listed; secret = t.secret.listed } } };
}

impl<V: Tongue> Talk<V> {
    // Before the first request, of a client with this cluster text. Refused only by `OutOfMemory`.
    fn new(alloc: Global, text: &ClusterText) -> Result<Talk<V>, Refusal>
        ensures ok { IfOk result (λ t. t ≡ begun text.now) }
        ensures refused { IfErr result (λ e. e ≡ OutOfMemory) }
    {
        let (cluster, endpoint, listener, route, secret) = five(
            text.try_copy(),
            text.try_copy(),
            text.try_copy(),
            text.try_copy(),
            text.try_copy(),
        )?;
        Ok(Talk {
            nonces: Nonces::new(),
            cluster: Session::new(alloc, cluster),
            endpoint: Session::new(alloc, endpoint),
            listener: Session::new(alloc, listener),
            route: Session::new(alloc, route),
            secret: Session::new(alloc, secret),
        })
    }

    // rule: groups, rule: first-variant
    /// What becomes of the first request, and what it begins. Refused as a later one.
    pub(crate) fn begin(alloc: Global, request: &V::Request) -> Result<(Outcome, Talk<V>), Refusal>
        ensures answers { Gives (λ p. (p.0, p.1.sessions)) result (answered (each (unopened (cluster_of (V.message request.now)))) (V.message request.now)) }
        ensures count { IfOk result (λ p. p.1.count ≡ 0) }
        ensures memory { IfErr result (λ e. e ≡ OutOfMemory → IsOk (answered (each (unopened (cluster_of (V.message request.now)))) (V.message request.now))) }
        ensures fits { IfOk result (λ p. StreamStaysFit followed_opening (followed V.NAME p.1)) }
    {
        if V::type_url(request).is_empty() {
            return Err(Refusal::BadMessage);
        }
        let cluster = ClusterText::new(alloc, V::cluster(request))?;
        let mut talk = Talk::new(alloc, &cluster)?;
        match talk.request(alloc, request) {
            Ok(outcome) => Ok((outcome, talk)),
            Err(refusal) => {
                drop(talk);
                Err(refusal)
            }
        }
    }

    /// What becomes of a request. Refused by `BadMessage` where it names no type, else by `OutOfMemory`; then nothing is taken.
    pub(crate) fn request(
        &mut self,
        alloc: Global,
        request: &V::Request,
    ) -> Result<Outcome, Refusal>
        ensures answers { Gives (λ o. (o, self.new.sessions)) result (answered self.old.sessions (V.message request.now)) }
        ensures count { self.new.count ≡ self.old.count }
        ensures memory { IfErr result (λ e. e ≡ OutOfMemory → IsOk (answered self.old.sessions (V.message request.now))) }
        ensures fits { OnOk result (StreamStaysFit (followed V.NAME self.old) (followed V.NAME self.new)) }
        ensures err { OnErr result (self.new ≡ self.old) }
    {
        let url = V::type_url(request);
        if url.is_empty() {
            return Err(Refusal::BadMessage);
        }
        match TypeName::from_url(url) {
            Some(kind) => self.take(alloc, kind, request),
            None => Ok(Outcome::Ignored),
        }
    }

    // Takes a request of a type.
    fn take(
        &mut self,
        alloc: Global,
        kind: TypeName,
        request: &V::Request,
    ) -> Result<Outcome, Refusal>
        ensures ok { OnOk result (self.new.sessions ≡ with_at self.old.sessions kind (session_after kind (at self.old.sessions kind) (V.message request.now))) }
        ensures count { self.new.count ≡ self.old.count }
        ensures taken { IfOk result (λ o. o ≡ outcome (at self.old.sessions kind) (nonce_of (V.message request.now))) }
        ensures fits { OnOk result (StreamStaysFit (followed V.NAME self.old) (followed V.NAME self.new)) }
        ensures err { OnErr result (self.new ≡ self.old) }
        ensures refused { IfErr result (λ e. e ≡ OutOfMemory) }
    {
        for_type!(kind, session in &mut self => V::take(session, alloc, request))
    }

    // rule: owed
    /// Whether the client is owed something, of a type or at all. It takes no memory.
    pub(crate) fn owes(&self, held: &Catalogues, which: Option<TypeName>) -> bool
        requires { StreamFits held.now (followed V.NAME self.now) }
        ensures { result ≡ owes_some held.now (stream_in V.NAME self.now) (looked_at which) }
    {
        match which {
            Some(kind) => self.owes_type(held, kind),
            None => {
                self.owes_type(held, TypeName::Cluster)
                    || self.owes_type(held, TypeName::Endpoint)
                    || self.owes_type(held, TypeName::Listener)
                    || self.owes_type(held, TypeName::Route)
                    || self.owes_type(held, TypeName::Secret)
            }
        }
    }

    // rule: owed
    fn owes_type(&self, held: &Catalogues, kind: TypeName) -> bool
        requires { StreamFits held.now (followed V.NAME self.now) }
        ensures { result ≡ owes_of held.now (stream_in V.NAME self.now) kind }
    {
        for_type!(kind, session in &self, catalogue in &held => session.owes(catalogue))
    }

    /// Has what clients share that want everything made, where a next response shares it: as far as there is memory for it. It
    /// changes nothing that is seen. Only complete types can be wanted so.
    pub(crate) fn share(&self, alloc: Global, held: &mut Catalogues)
        ensures { held.new ≡ held.old }
    {
        self.cluster.share(alloc, &mut held.cluster);
        self.listener.share(alloc, &mut held.listener);
    }

    // rule: type-order
    /// The next response, of a type, or of the first in the order of the types that has one, and, where it is asked for twice, an
    /// equal one beside it. Refused only where one is to be sent: by `NonceSpent` where the stream has no number left, and else by
    /// `OutOfMemory`, also where there is no memory for the second; then nothing is sent.
    pub(crate) fn poll(
        &mut self,
        alloc: Global,
        replica: u16,
        held: &Catalogues,
        which: Option<TypeName>,
        twice: bool,
    ) -> Result<Option<(Draft, Option<Draft>)>, Refusal>
        requires { StreamFits held.now (followed V.NAME self.old) }
        ensures fits { StreamFits held.now (followed V.NAME self.new) }
        ensures polls { Gives (λ o. (o, stream_in V.NAME self.new)) (firsts result) (polled_first replica held.now (stream_in V.NAME self.old) (looked_at which)) }
        ensures twin { IfOk result (λ o. IfSome o (λ p. p.1 ≡ (if twice then Some p.0 else None))) }
        ensures memory { IfErr result (λ e. e ≡ OutOfMemory → IsToRespond held.now (stream_in V.NAME self.old) (looked_at which)) }
        ensures err { OnErr result (stream_in V.NAME self.new ≡ stream_in V.NAME self.old) }
    {
        match which {
            Some(kind) => self.poll_type(alloc, replica, held, kind, twice),
            None => self.poll_any(alloc, replica, held, twice),
        }
    }

    // rule: type-order
    // The next response of the first type that has one: each type is asked in turn.
    fn poll_any(
        &mut self,
        alloc: Global,
        replica: u16,
        held: &Catalogues,
        twice: bool,
    ) -> Result<Option<(Draft, Option<Draft>)>, Refusal>
        requires { StreamFits held.now (followed V.NAME self.old) }
        ensures fits { StreamFits held.now (followed V.NAME self.new) }
        ensures polls { Gives (λ o. (o, stream_in V.NAME self.new)) (firsts result) (polled_first replica held.now (stream_in V.NAME self.old) types) }
        ensures twin { IfOk result (λ o. IfSome o (λ p. p.1 ≡ (if twice then Some p.0 else None))) }
        ensures memory { IfErr result (λ e. e ≡ OutOfMemory → IsToRespond held.now (stream_in V.NAME self.old) types) }
        ensures err { OnErr result (stream_in V.NAME self.new ≡ stream_in V.NAME self.old) }
    {
        for kind in TypeName::ALL {
            if let Some(drafts) = self.poll_type(alloc, replica, held, kind, twice)? {
                return Ok(Some(drafts));
            }
        }
        Ok(None)
    }

    fn poll_type(
        &mut self,
        alloc: Global,
        replica: u16,
        held: &Catalogues,
        kind: TypeName,
        twice: bool,
    ) -> Result<Option<(Draft, Option<Draft>)>, Refusal>
        requires { StreamFits held.now (followed V.NAME self.old) }
        ensures polls { IsPolled replica held.now (followed V.NAME self.old) kind result (followed V.NAME self.new) }
        ensures twin { IfOk result (λ o. IfSome o (λ p. p.1 ≡ (if twice then Some p.0 else None))) }
    {
        for_type!(kind, session in &mut self, catalogue in &held => poll_one(
            alloc,
            replica,
            session,
            catalogue,
            &mut self.nonces,
            twice
        ))
    }

    // rule: wake-ups
    /// Whether a response is to be sent, of any type. It takes no memory.
    pub(crate) fn sends(&self, held: &Catalogues) -> bool
        requires { StreamFits held.now (followed V.NAME self.now) }
        ensures { result ≡ is_due held.now (stream_in V.NAME self.now) }
    {
        self.sends_type(held, TypeName::Cluster)
            || self.sends_type(held, TypeName::Endpoint)
            || self.sends_type(held, TypeName::Listener)
            || self.sends_type(held, TypeName::Route)
            || self.sends_type(held, TypeName::Secret)
    }

    fn sends_type(&self, held: &Catalogues, kind: TypeName) -> bool
        requires { StreamFits held.now (followed V.NAME self.now) }
        ensures { result ≡ is_some (to_send held.now (stream_in V.NAME self.now) kind) }
    {
        for_type!(kind, session in &self, catalogue in &held => session.sends(catalogue))
    }

    /// An equal talk, with memory of its own. Refused only by `OutOfMemory`.
    pub(crate) fn try_copy(&self, alloc: Global) -> Result<Talk<V>, Refusal>
        ensures ok { IfOk result (λ t. t ≡ self.now) }
        ensures refused { IfErr result (λ e. e ≡ OutOfMemory) }
    {
        let (cluster, endpoint, listener, route, secret) = five(
            self.cluster.try_copy(alloc),
            self.endpoint.try_copy(alloc),
            self.listener.try_copy(alloc),
            self.route.try_copy(alloc),
            self.secret.try_copy(alloc),
        )?;
        Ok(Talk {
            nonces: self.nonces,
            cluster,
            endpoint,
            listener,
            route,
            secret,
        })
    }
}
