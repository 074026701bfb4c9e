// What the two variants of a stream differ in, beside what those of a session do.
ghost use Rattle.std.specs.Prelude.{◌≡◌, ◌<◌, ◌≤◌, ◌⊎◌, ℕ, if◌then◌else◌, Some, None, option_map, IsSome, IfSome, IfOk, IfErr, OnOk, OnErr};
ghost use Rattle.xds_catalogue.specs.Holdings.{Holdings};
ghost use Rattle.xds_interest.specs.Interests.{Selection};
ghost use Rattle.xds_ledger.specs.Lists.{SessionFits, StaysFit};
ghost use Rattle.xds_ledger.specs.Offers.{Offer};
ghost use Rattle.xds_ledger.specs.Sessions as sessions;
ghost use Rattle.xds_ledger.specs.Sessions.{HasPolled, outcome};
ghost use Rattle.xds_message.specs.declared.draft.Draft.TheVariants as drafts;
ghost use Rattle.xds_resource.specs.Stamps.{max_counter};
ghost use Rattle.xds_resource.specs.declared.refusal.Refusal.TheVariants.{OutOfMemory, NonceSpent};
ghost use Rattle.xds_resource.specs.declared.types.TypeName.{TypeName};
ghost use Rattle.xds_events.specs.Streams as streams;
ghost use Rattle.xds_events.specs.Streams.{nonce_of, url_of, cluster_of, session_after};
ghost use Rattle.xds_core.specs.Talks.{drafted};

use std::alloc::Global;
use xds_events::request::cluster_in;
use xds_ledger::{Delta, Nonces, Outcome, StateOfTheWorld, Variant};
use xds_message::{DeltaDiscoveryRequest, DeltaDraft, DiscoveryRequest, Draft, SotwDraft};
use xds_resource::{Cluster, Endpoint, Listener, Refusal, ResourceType, Route, Secret};
use xds_sessions::{Published, Session, Speaks};

/// A variant, by its requests.
pub(crate) trait Hears: Variant {
    ghost use Rattle.xds_events.specs.Streams.{Message};

    type Request: Drop;

    // A request as a message of either variant.
    ghost message: { Self.Request → Message };

    fn type_url(request: &Self::Request) -> &str
        ensures { result.now ≡ url_of (message request.now) };

    /// The cluster text of the node in the request, empty where there is none.
    fn cluster(request: &Self::Request) -> &str
        ensures { result.now ≡ cluster_of (message request.now) };
}

impl Hears for StateOfTheWorld {
    type Request = DiscoveryRequest;

    ghost message = { streams.Sotw };

    fn type_url(request: &DiscoveryRequest) -> &str {
        request.type_url.as_str()
    }

    fn cluster(request: &DiscoveryRequest) -> &str {
        cluster_in(&request.node)
    }
}

impl Hears for Delta {
    type Request = DeltaDiscoveryRequest;

    ghost message = { streams.Delta };

    fn type_url(request: &DeltaDiscoveryRequest) -> &str {
        request.type_url.as_str()
    }

    fn cluster(request: &DeltaDiscoveryRequest) -> &str {
        cluster_in(&request.node)
    }
}

/// What a variant decides of a session of one type: what a request does to it, and which kind of response is sent.
pub(crate) trait Converses<T: ResourceType>: Speaks<T> + Hears {
    /// Takes a request of this type. Refused only by `OutOfMemory`, and then nothing is taken.
    fn take(
        session: &mut Session<T, Self>,
        alloc: Global,
        request: &Self::Request,
    ) -> Result<Outcome, Refusal>
        ensures ok { OnOk result (session.new.session ≡ session_after T.TYPE session.old.session (Self.message request.now)) }
        ensures taken { IfOk result (λ o. o ≡ outcome session.old.session (nonce_of (Self.message request.now))) }
        ensures fits { OnOk result (StaysFit Self.NAME T.TYPE session.old session.new) }
        ensures err { OnErr result (session.new ≡ session.old) }
        ensures refused { IfErr result (λ e. e ≡ OutOfMemory) };

    /// A response, as one of either variant.
    fn draft(draft: Self::Draft) -> Draft
        ensures { (replica : ℕ) (h : Holdings) (s : Selection) (o : Offer) (n : ℕ) → draft ≡ Self.response replica T.TYPE h s o n → result ≡ drafted replica T.TYPE h s Self.NAME o n };
}

impl<T: ResourceType> Converses<T> for StateOfTheWorld {
    fn take(
        session: &mut Session<T, StateOfTheWorld>,
        alloc: Global,
        request: &DiscoveryRequest,
    ) -> Result<Outcome, Refusal> {
        session.take(alloc, request)
    }

    fn draft(draft: SotwDraft) -> Draft {
        Draft::Sotw(draft)
    }
}

impl<T: ResourceType> Converses<T> for Delta {
    fn take(
        session: &mut Session<T, Delta>,
        alloc: Global,
        request: &DeltaDiscoveryRequest,
    ) -> Result<Outcome, Refusal> {
        session.take(alloc, request)
    }

    fn draft(draft: DeltaDraft) -> Draft {
        Draft::Delta(draft)
    }
}

/// A variant, with what it decides of sessions of all types.
pub(crate) trait Tongue: Converses<Cluster>
    + Converses<Endpoint>
    + Converses<Listener>
    + Converses<Route>
    + Converses<Secret> {}

impl Tongue for StateOfTheWorld {}

impl Tongue for Delta {}

// rule: new-nonce, rule: one-unanswered, rule: nonce-numbers, rule: refused-event
/// The next response of a session, if one is to be sent, and, where it is asked for twice, an equal one beside it. Refused
/// only where one is to be sent: by `NonceSpent` where the stream has no number left, and else by `OutOfMemory`, also where
/// there is no memory for the second; then nothing is sent.
pub(crate) fn poll_one<T: ResourceType, V: Converses<T>>(
    alloc: Global,
    replica: u16,
    session: &mut Session<T, V>,
    catalogue: &Published<T>,
    nonces: &mut Nonces,
    twice: bool,
) -> Result<Option<(Draft, Option<Draft>)>, Refusal>
    requires { SessionFits V.NAME T.TYPE catalogue.now session.old }
    ensures ok { IfOk result (λ o. HasPolled V.NAME T.TYPE catalogue.now.entries (drafted replica T.TYPE catalogue.now session.old.session.asked.interest V.NAME) session.old.session nonces.old (option_map (λ p. p.0) o) session.new.session nonces.new) }
    ensures bound { IfOk result (λ o. IfSome o (λ _. nonces.new ≤ max_counter)) }
    ensures twin { IfOk result (λ o. IfSome o (λ p. p.1 ≡ (if twice then Some p.0 else None))) }
    ensures fits { SessionFits V.NAME T.TYPE catalogue.now session.new }
    ensures err { OnErr result ((session.new.session ≡ session.old.session) × (nonces.new ≡ nonces.old)) }
    ensures refused { IfErr result (λ e. IsSome (sessions.sending V.NAME T.TYPE session.old.session catalogue.now.entries) × (((e ≡ NonceSpent) × (nonces.old ≡ max_counter)) ⊎ ((e ≡ OutOfMemory) × (nonces.old < max_counter)))) }
{
    let Some((offer, draft, drawn)) = session.next(alloc, replica, catalogue, *nonces)? else {
        return Ok(None);
    };
    let draft = V::draft(draft);
    let twin = twin_of(alloc, &draft, twice)?;
    *nonces = drawn;
    session.send(alloc, offer, drawn.last());
    Ok(Some((draft, twin)))
}

// A copy of a response, where it is asked for twice.
fn twin_of(alloc: Global, draft: &Draft, twice: bool) -> Result<Option<Draft>, Refusal>
    ensures ok { IfOk result (λ o. o ≡ (if twice then Some draft.now else None)) }
    ensures refused { IfErr result (λ e. e ≡ OutOfMemory) }
{
    if !twice {
        return Ok(None);
    }
    Ok(Some(draft.try_copy(alloc)?))
}
