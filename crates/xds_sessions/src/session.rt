// One type on one stream: what the client asked for, and what it was told.
ghost use Rattle.std.specs.Prelude.{◌≡◌, ◌<◌, ◌≤◌, ◌⊎◌, ℕ, List, true, if◌then◌else◌, map, string_bytes, is_some, IsSome, IfSome, IfOk, IfErr, OnOk, OnErr};
ghost use Rattle.std.specs.FinMap as finmap;
ghost use Rattle.xds_resource.specs.Stamps.{max_counter};
ghost use Rattle.xds_resource.specs.declared.refusal.Refusal.TheVariants.{OutOfMemory, NonceSpent};
ghost use Rattle.xds_ledger.specs.Owed.{is_owed};
ghost use Rattle.xds_ledger.specs.Offers.{offer};
ghost use Rattle.xds_ledger.specs.Variants.{is_delta};
ghost use Rattle.xds_ledger.specs.Sessions as sessions;
ghost use Rattle.xds_ledger.specs.Sessions.{IsNext, HasPolled, is_stale, sending};
ghost use Rattle.xds_ledger.specs.Lists.{SessionFits, new_kept, sent_kept};
ghost use Rattle.xds_catalogue.specs.Holdings.{Holdings};
ghost use Rattle.xds_ledger.specs.Listed.{changed_since};
ghost use Rattle.xds_sessions.specs.Wildcards.{IsFirst, IsShared};

use crate::published::Published;
use crate::speaks::Speaks;
use crate::wildcards::{Wildcard, shared_names, wants_all};
use std::alloc::Global;
use std::marker::Model;
use xds_interest::ClusterText;
use xds_ledger::{Due, Ledger, Nonces, SharedMap};
use xds_resource::{Refusal, ResourceType};

/// One type on one stream, in one of the two variants.
pub struct Session<T: ResourceType, V: Speaks<T>> {
    pub(crate) names: V::Names,
    pub(crate) ledger: Ledger<T, V>,
}

// Written out: docs/PROVING.md, "Drops".
impl<T: ResourceType, V: Speaks<T>> Drop for Session<T, V> {
    fn drop(self) {
        let Session {
            names: _,
            ledger: _,
        } = self;
    }
}

impl<T: ResourceType, V: Speaks<T>> Model for Session<T, V> {
    ghost use Rattle.xds_ledger.specs.Lists.{Kept, kept_code};

    ghost Value = { Kept };

    ghost coded = { kept_code };

    ghost view = { λ s. record { session = record { asked = V.asked s.names; account = s.ledger.account }; listed = s.ledger.listed } };
}

impl<T: ResourceType, V: Speaks<T>> Session<T, V> {
    /// Before the first request, of a client with this cluster text. It is owed nothing.
    pub fn new(alloc: Global, cluster: ClusterText) -> Session<T, V>
        ensures new { result ≡ new_kept cluster }
        ensures fits { (h : Holdings) → SessionFits V.NAME T.TYPE h result }
    {
        Session {
            names: V::unasked(alloc, cluster),
            ledger: Ledger::new(alloc),
        }
    }

    // rule: stale-nonce
    // Whether a request with this nonce is stale, so that it is ignored.
    pub(crate) fn is_stale(&self, nonce: &str) -> bool
        ensures { result ≡ is_stale self.now.session nonce.now }
    {
        V::has_begun(&self.names) && self.ledger.is_stale(nonce)
    }

    // rule: owed
    /// Whether the client is owed something: a response of the type is unanswered or due. It takes no memory.
    pub fn owes(&self, catalogue: &Published<T>) -> bool
        requires { SessionFits V.NAME T.TYPE catalogue.now self.now }
        ensures { result ≡ sessions.owes V.NAME T.TYPE self.now.session catalogue.now.entries }
    {
        V::has_begun(&self.names)
            && self
                .ledger
                .owes(V::interest(&self.names), catalogue.catalogue())
    }

    // rule: owed
    /// Whether `poll` has a response to send, be there a nonce for it or not. It takes no memory.
    pub fn sends(&self, catalogue: &Published<T>) -> bool
        requires { SessionFits V.NAME T.TYPE catalogue.now self.now }
        ensures { result ≡ is_some (sending V.NAME T.TYPE self.now.session catalogue.now.entries) }
    {
        V::has_begun(&self.names)
            && self
                .ledger
                .sends(V::interest(&self.names), catalogue.catalogue())
    }

    /// What a response says now, and that response as the one of this number, be one to be sent or not. Refused only by
    /// `OutOfMemory`.
    pub fn respond(
        &self,
        alloc: Global,
        replica: u16,
        catalogue: &Published<T>,
        number: u64,
    ) -> Result<(SharedMap<Due>, V::Draft), Refusal>
        requires { SessionFits V.NAME T.TYPE catalogue.now self.now }
        ensures offer { IfOk result (λ p. p.0 ≡ offer V.NAME T.TYPE self.now.session.asked.interest catalogue.now.entries self.now.session.account.beliefs) }
        ensures draft { IfOk result (λ p. p.1 ≡ V.response replica T.TYPE catalogue.now self.now.session.asked.interest p.0 number) }
        ensures refused { IfErr result (λ e. e ≡ OutOfMemory) }
    {
        match self.wildcard(catalogue) {
            Some(wildcard) => self.respond_alike(alloc, replica, catalogue, wildcard, number),
            None => self.respond_apart(alloc, replica, catalogue, number),
        }
    }

    // rule: groups, rule: covered-only
    // What is kept for the clients of this session's interest, where its offer is the one of this session.
    fn wildcard<'a>(&self, catalogue: &'a Published<T>) -> Option<&'a Wildcard<V::Said>>
        ensures { IfSome result (λ w. IsShared V.NAME T.TYPE V.IsSaid catalogue.now.entries self.now.session.asked.interest.cluster w.now
            × IsFirst V.NAME T.TYPE self.now.session) }
    {
        if !self.is_first() {
            return None;
        }
        V::wildcard(catalogue, V::interest(&self.names).cluster())
    }

    // Whether the next offer is the one that all clients of the cluster get that want everything and hold nothing.
    fn is_first(&self) -> bool
        ensures { result ≡ true → IsFirst V.NAME T.TYPE self.now.session }
    {
        wants_all(V::interest(&self.names))
            && (V::NAME.is_whole(T::TYPE) || self.ledger.believes_nothing())
    }

    // The response that is made of what others are told, too.
    fn respond_alike(
        &self,
        alloc: Global,
        replica: u16,
        catalogue: &Published<T>,
        shared: &Wildcard<V::Said>,
        number: u64,
    ) -> Result<(SharedMap<Due>, V::Draft), Refusal>
        requires offer { shared.now.offer ≡ offer V.NAME T.TYPE self.now.session.asked.interest catalogue.now.entries self.now.session.account.beliefs }
        requires said { V.IsSaid catalogue.now.entries self.now.session.asked.interest shared.now.offer shared.now.said }
        ensures offer { IfOk result (λ p. p.0 ≡ offer V.NAME T.TYPE self.now.session.asked.interest catalogue.now.entries self.now.session.account.beliefs) }
        ensures draft { IfOk result (λ p. p.1 ≡ V.response replica T.TYPE catalogue.now self.now.session.asked.interest p.0 number) }
        ensures refused { IfErr result (λ e. e ≡ OutOfMemory) }
    {
        let interest = V::interest(&self.names);
        let offer = shared.offer.try_copy()?;
        let draft = V::respond(
            alloc,
            replica,
            catalogue.catalogue(),
            interest,
            &shared.said,
            number,
        )?;
        Ok((offer, draft))
    }

    // The response that is made for this session alone.
    fn respond_apart(
        &self,
        alloc: Global,
        replica: u16,
        catalogue: &Published<T>,
        number: u64,
    ) -> Result<(SharedMap<Due>, V::Draft), Refusal>
        requires { SessionFits V.NAME T.TYPE catalogue.now self.now }
        ensures offer { IfOk result (λ p. p.0 ≡ offer V.NAME T.TYPE self.now.session.asked.interest catalogue.now.entries self.now.session.account.beliefs) }
        ensures draft { IfOk result (λ p. p.1 ≡ V.response replica T.TYPE catalogue.now self.now.session.asked.interest p.0 number) }
        ensures refused { IfErr result (λ e. e ≡ OutOfMemory) }
    {
        let interest = V::interest(&self.names);
        let catalogue = catalogue.catalogue();
        let offer = self.ledger.offer(alloc, interest, catalogue)?;
        let said = V::said(alloc, catalogue, interest, offer.as_map())?;
        let draft = V::respond(alloc, replica, catalogue, interest, &said, number)?;
        Ok((offer, draft))
    }

    /// Has what the clients of this session's interest share made, where its next response shares it or what is believed is to stand
    /// as differences from it, and else what its next response says, where that is short: as far as there is memory for it. It changes
    /// nothing that is seen.
    pub fn share(&self, alloc: Global, catalogue: &mut Published<T>)
        ensures { catalogue.new ≡ catalogue.old }
    {
        if !V::has_begun(&self.names) || !self.ledger.may_send(catalogue.catalogue().changes()) {
            return;
        }
        let interest = V::interest(&self.names);
        if wants_all(interest) && (self.is_first() || self.ledger.differs_much()) {
            drop(V::share(alloc, catalogue, interest));
        }
        if V::NAME.is_delta() && !self.is_first() {
            drop(self.share_told(alloc, catalogue));
        }
    }

    // Keeps what the next response says for others that may be offered the same, where it is short and nothing is kept.
    fn share_told(&self, alloc: Global, catalogue: &mut Published<T>) -> Result<(), Refusal>
        ensures { catalogue.new ≡ catalogue.old }
    {
        let interest = V::interest(&self.names);
        if V::told(catalogue, interest.cluster()).is_some() {
            return Ok(());
        }
        match self
            .ledger
            .short_offer(alloc, interest, catalogue.catalogue())?
        {
            Some(offer) => V::share_told(alloc, catalogue, interest.cluster(), offer),
            None => Ok(()),
        }
    }

    /// Lists the names that changed since the session was refreshed last, and answers how many these are; none before the
    /// first request. Refused only by `OutOfMemory`, and then the session is as it was.
    pub fn refresh(&mut self, alloc: Global, catalogue: &Published<T>) -> Result<u64, Refusal>
        requires { SessionFits V.NAME T.TYPE catalogue.now self.old }
        ensures same { self.new.session ≡ self.old.session }
        ensures fits { SessionFits V.NAME T.TYPE catalogue.now self.new }
        ensures count { IfOk result (λ n. n ≡ (if self.old.session.asked.begun then finmap.len (changed_since catalogue.now self.old.listed.mark) else 0)) }
        ensures mark { OnOk result (self.old.session.asked.begun ≡ true → self.new.listed.mark ≡ catalogue.now.changes) }
        ensures err { OnErr result (self.new ≡ self.old) }
        ensures refused { IfErr result (λ e. e ≡ OutOfMemory) }
    {
        if !V::has_begun(&self.names) {
            return Ok(0);
        }
        self.ledger.refresh(alloc, catalogue.catalogue())
    }

    /// Looks at what changed since, and lets the names go that are owed nothing, as far as there is memory for it.
    pub fn tidy(&mut self, alloc: Global, catalogue: &Published<T>)
        requires { SessionFits V.NAME T.TYPE catalogue.now self.old }
        ensures same { self.new.session ≡ self.old.session }
        ensures fits { SessionFits V.NAME T.TYPE catalogue.now self.new }
    {
        if !V::has_begun(&self.names) {
            return;
        }
        if !self.list_first(alloc, catalogue) {
            self.tidy_list(alloc, catalogue);
        }
    }

    // The same of the list, name by name.
    fn tidy_list(&mut self, alloc: Global, catalogue: &Published<T>)
        requires fits { SessionFits V.NAME T.TYPE catalogue.now self.old }
        requires begun { self.old.session.asked.begun ≡ true }
        ensures same { self.new.session ≡ self.old.session }
        ensures fits { SessionFits V.NAME T.TYPE catalogue.now self.new }
    {
        self.ledger
            .tidy(alloc, V::interest(&self.names), catalogue.catalogue());
    }

    // rule: owed
    // Lists what is owed to a client that wants everything and holds nothing, as its list shares the names with others, if they are
    // there. Answers whether it does.
    fn list_first(&mut self, alloc: Global, catalogue: &Published<T>) -> bool
        requires fits { SessionFits V.NAME T.TYPE catalogue.now self.old }
        requires begun { self.old.session.asked.begun ≡ true }
        ensures same { self.new.session ≡ self.old.session }
        ensures fits { SessionFits V.NAME T.TYPE catalogue.now self.new }
    {
        match self.first_names(catalogue) {
            Some(names) => {
                self.relist(alloc, catalogue, names);
                true
            }
            None => false,
        }
    }

    // rule: owed
    // The names that are shared for such clients, if this is one.
    fn first_names(&self, catalogue: &Published<T>) -> Option<SharedMap<u64>>
        ensures { IfSome result (λ m. (name : List ℕ)
            → is_owed V.NAME T.TYPE self.now.session.asked.interest catalogue.now.entries self.now.session.account.beliefs name ≡ true
            → is_some (finmap.get m name) ≡ true) }
    {
        if !self.ledger.believes_nothing() {
            return None;
        }
        match self.wildcard(catalogue) {
            Some(wildcard) => shared_names(wildcard),
            None => None,
        }
    }

    // rule: nonce-numbers
    /// The next response, if one is to be sent: nothing of the type is unanswered, something is due, and it isn't
    /// what the client refused. `replica` is the number of this replica. Refused only where a response is to be sent: by
    /// `NonceSpent` where the stream has no nonce left, and else by `OutOfMemory`; then nothing is sent, and no nonce is
    /// drawn.
    pub fn poll(
        &mut self,
        alloc: Global,
        replica: u16,
        catalogue: &Published<T>,
        nonces: &mut Nonces,
    ) -> Result<Option<V::Draft>, Refusal>
        requires { SessionFits V.NAME T.TYPE catalogue.now self.old }
        ensures ok { IfOk result (λ answer. HasPolled V.NAME T.TYPE catalogue.now.entries (V.response replica T.TYPE catalogue.now self.old.session.asked.interest) self.old.session nonces.old answer self.new.session nonces.new) }
        ensures bound { IfOk result (λ answer. IfSome answer (λ _. nonces.new ≤ max_counter)) }
        ensures fits { SessionFits V.NAME T.TYPE catalogue.now self.new }
        ensures err { OnErr result ((self.new.session ≡ self.old.session) × (nonces.new ≡ nonces.old)) }
        ensures refused { IfErr result (λ e. IsSome (sending V.NAME T.TYPE self.old.session catalogue.now.entries) × (((e ≡ NonceSpent) × (nonces.old ≡ max_counter)) ⊎ ((e ≡ OutOfMemory) × (nonces.old < max_counter)))) }
    {
        let Some((offer, draft, drawn)) = self.next(alloc, replica, catalogue, *nonces)? else {
            return Ok(None);
        };
        *nonces = drawn;
        self.send(alloc, offer, drawn.last());
        Ok(Some(draft))
    }

    // rule: one-unanswered, rule: nonce-numbers
    /// What `poll` has to send, if there is a response to send: its offer, the response, and the numbers of the stream once its
    /// own is drawn. It isn't sent before `send`. Refused as `poll` is.
    pub fn next(
        &mut self,
        alloc: Global,
        replica: u16,
        catalogue: &Published<T>,
        nonces: Nonces,
    ) -> Result<Option<(SharedMap<Due>, V::Draft, Nonces)>, Refusal>
        requires { SessionFits V.NAME T.TYPE catalogue.now self.old }
        ensures ok { IfOk result (λ next. IsNext V.NAME T.TYPE catalogue.now.entries (V.response replica T.TYPE catalogue.now self.old.session.asked.interest) self.old.session nonces next) }
        ensures bound { IfOk result (λ next. IfSome next (λ p. p.2 ≤ max_counter)) }
        ensures same { self.new.session ≡ self.old.session }
        ensures fits { SessionFits V.NAME T.TYPE catalogue.now self.new }
        ensures refused { IfErr result (λ e. IsSome (sending V.NAME T.TYPE self.old.session catalogue.now.entries) × (((e ≡ NonceSpent) × (nonces ≡ max_counter)) ⊎ ((e ≡ OutOfMemory) × (nonces < max_counter)))) }
    {
        if self.ledger.awaits_answer() {
            return Ok(None);
        }
        match self.told(catalogue) {
            Some(told) => self.next_alike(alloc, replica, catalogue, nonces, told),
            None => self.next_apart(alloc, replica, catalogue, nonces),
        }
    }

    // rule: one-unanswered, rule: nonce-numbers
    // The next response, which is made for this session alone, or shared by those that hold nothing.
    fn next_apart(
        &mut self,
        alloc: Global,
        replica: u16,
        catalogue: &Published<T>,
        nonces: Nonces,
    ) -> Result<Option<(SharedMap<Due>, V::Draft, Nonces)>, Refusal>
        requires { SessionFits V.NAME T.TYPE catalogue.now self.old }
        ensures ok { IfOk result (λ next. IsNext V.NAME T.TYPE catalogue.now.entries (V.response replica T.TYPE catalogue.now self.old.session.asked.interest) self.old.session nonces next) }
        ensures bound { IfOk result (λ next. IfSome next (λ p. p.2 ≤ max_counter)) }
        ensures same { self.new.session ≡ self.old.session }
        ensures fits { SessionFits V.NAME T.TYPE catalogue.now self.new }
        ensures refused { IfErr result (λ e. IsSome (sending V.NAME T.TYPE self.old.session catalogue.now.entries) × (((e ≡ NonceSpent) × (nonces ≡ max_counter)) ⊎ ((e ≡ OutOfMemory) × (nonces < max_counter)))) }
    {
        self.tidy(alloc, catalogue);
        self.rebase(alloc, catalogue);
        self.next_tidied(alloc, replica, catalogue, nonces)
    }

    // What others were told since the last change, where the next response would say the same.
    fn told<'a>(&self, catalogue: &'a Published<T>) -> Option<&'a Wildcard<V::Said>>
        requires { SessionFits V.NAME T.TYPE catalogue.now self.now }
        ensures said { IfSome result (λ w. V.IsSaid catalogue.now.entries self.now.session.asked.interest w.now.offer w.now.said) }
        ensures names { IfSome result (λ w. (name : List ℕ) → is_some (finmap.get w.now.names name) ≡ is_some (finmap.get w.now.offer name)) }
        ensures offer { IfSome result (λ w. w.now.offer ≡ offer V.NAME T.TYPE self.now.session.asked.interest catalogue.now.entries self.now.session.account.beliefs) }
        ensures delta { IfSome result (λ w. is_delta V.NAME ≡ true) }
        ensures begun { IfSome result (λ w. self.now.session.asked.begun ≡ true) }
    {
        if !V::NAME.is_delta() || !V::has_begun(&self.names) {
            return None;
        }
        let interest = V::interest(&self.names);
        let told = V::told(catalogue, interest.cluster())?;
        let offer = told.offer.as_map();
        if self
            .ledger
            .would_say(interest, catalogue.catalogue(), offer)
        {
            Some(told)
        } else {
            None
        }
    }

    // rule: one-unanswered, rule: nonce-numbers
    // The next response, where it says what others were told, too.
    fn next_alike(
        &mut self,
        alloc: Global,
        replica: u16,
        catalogue: &Published<T>,
        nonces: Nonces,
        told: &Wildcard<V::Said>,
    ) -> Result<Option<(SharedMap<Due>, V::Draft, Nonces)>, Refusal>
        requires fits { SessionFits V.NAME T.TYPE catalogue.now self.old }
        requires said { V.IsSaid catalogue.now.entries self.old.session.asked.interest told.now.offer told.now.said }
        requires names { (name : List ℕ) → is_some (finmap.get told.now.names name) ≡ is_some (finmap.get told.now.offer name) }
        requires offer { told.now.offer ≡ offer V.NAME T.TYPE self.old.session.asked.interest catalogue.now.entries self.old.session.account.beliefs }
        requires delta { is_delta V.NAME ≡ true }
        requires begun { self.old.session.asked.begun ≡ true }
        ensures ok { IfOk result (λ next. IsNext V.NAME T.TYPE catalogue.now.entries (V.response replica T.TYPE catalogue.now self.old.session.asked.interest) self.old.session nonces next) }
        ensures bound { IfOk result (λ next. IfSome next (λ p. p.2 ≤ max_counter)) }
        ensures same { self.new.session ≡ self.old.session }
        ensures fits { SessionFits V.NAME T.TYPE catalogue.now self.new }
        ensures refused { IfErr result (λ e. IsSome (sending V.NAME T.TYPE self.old.session catalogue.now.entries) × (((e ≡ NonceSpent) × (nonces ≡ max_counter)) ⊎ ((e ≡ OutOfMemory) × (nonces < max_counter)))) }
    {
        self.list_told(alloc, catalogue, told);
        self.rebase(alloc, catalogue);
        self.next_told(alloc, replica, catalogue, nonces, told)
    }

    // Lists the names of the offer alone, if their owners can be counted.
    fn list_told(&mut self, alloc: Global, catalogue: &Published<T>, told: &Wildcard<V::Said>)
        requires fits { SessionFits V.NAME T.TYPE catalogue.now self.old }
        requires names { (name : List ℕ) → is_some (finmap.get told.now.names name) ≡ is_some (finmap.get told.now.offer name) }
        requires offer { told.now.offer ≡ offer V.NAME T.TYPE self.old.session.asked.interest catalogue.now.entries self.old.session.account.beliefs }
        requires delta { is_delta V.NAME ≡ true }
        requires begun { self.old.session.asked.begun ≡ true }
        ensures same { self.new.session ≡ self.old.session }
        ensures fits { SessionFits V.NAME T.TYPE catalogue.now self.new }
    {
        if let Some(names) = shared_names(told) {
            self.relist(alloc, catalogue, names);
        }
    }

    // Lists these names alone.
    fn relist(&mut self, alloc: Global, catalogue: &Published<T>, names: SharedMap<u64>)
        requires fits { SessionFits V.NAME T.TYPE catalogue.now self.old }
        requires begun { self.old.session.asked.begun ≡ true }
        requires owed { (name : List ℕ) → is_owed V.NAME T.TYPE self.old.session.asked.interest catalogue.now.entries self.old.session.account.beliefs name ≡ true
            → is_some (finmap.get names name) ≡ true }
        ensures same { self.new.session ≡ self.old.session }
        ensures fits { SessionFits V.NAME T.TYPE catalogue.now self.new }
    {
        let changes = catalogue.catalogue().changes();
        self.ledger.relist(alloc, names, changes);
    }

    // Has what is believed stand as differences from what clients of this session's interest are offered first, where it differs much
    // from what it stands on. It changes nothing that is seen.
    fn rebase(&mut self, alloc: Global, catalogue: &Published<T>)
        requires { SessionFits V.NAME T.TYPE catalogue.now self.old }
        ensures { self.new ≡ self.old }
    {
        let interest = V::interest(&self.names);
        if !wants_all(interest) || !self.ledger.differs_much() {
            return;
        }
        let Some(wildcard) = V::wildcard(catalogue, interest.cluster()) else {
            return;
        };
        let Ok(offer) = wildcard.offer.try_copy() else {
            return;
        };
        self.ledger
            .rebase(alloc, interest, catalogue.catalogue(), offer);
    }

    // rule: owed
    // What `sends` answers, where the next response says what others were told.
    fn sends_told(&self, catalogue: &Published<T>, told: &Wildcard<V::Said>) -> bool
        requires fits { SessionFits V.NAME T.TYPE catalogue.now self.now }
        requires offer { told.now.offer ≡ offer V.NAME T.TYPE self.now.session.asked.interest catalogue.now.entries self.now.session.account.beliefs }
        requires delta { is_delta V.NAME ≡ true }
        requires begun { self.now.session.asked.begun ≡ true }
        ensures { result ≡ is_some (sending V.NAME T.TYPE self.now.session catalogue.now.entries) }
    {
        let interest = V::interest(&self.names);
        self.ledger
            .sends_offer(interest, catalogue.catalogue(), told.offer.as_map())
    }

    // rule: one-unanswered, rule: nonce-numbers
    // The response itself, if one is to be sent.
    fn next_told(
        &self,
        alloc: Global,
        replica: u16,
        catalogue: &Published<T>,
        nonces: Nonces,
        told: &Wildcard<V::Said>,
    ) -> Result<Option<(SharedMap<Due>, V::Draft, Nonces)>, Refusal>
        requires fits { SessionFits V.NAME T.TYPE catalogue.now self.now }
        requires said { V.IsSaid catalogue.now.entries self.now.session.asked.interest told.now.offer told.now.said }
        requires offer { told.now.offer ≡ offer V.NAME T.TYPE self.now.session.asked.interest catalogue.now.entries self.now.session.account.beliefs }
        requires delta { is_delta V.NAME ≡ true }
        requires begun { self.now.session.asked.begun ≡ true }
        ensures ok { IfOk result (λ next. IsNext V.NAME T.TYPE catalogue.now.entries (V.response replica T.TYPE catalogue.now self.now.session.asked.interest) self.now.session nonces next) }
        ensures bound { IfOk result (λ next. IfSome next (λ p. p.2 ≤ max_counter)) }
        ensures refused { IfErr result (λ e. IsSome (sending V.NAME T.TYPE self.now.session catalogue.now.entries) × (((e ≡ NonceSpent) × (nonces ≡ max_counter)) ⊎ ((e ≡ OutOfMemory) × (nonces < max_counter)))) }
    {
        if !self.sends_told(catalogue, told) {
            return Ok(None);
        }
        let mut drawn = nonces;
        let number = drawn.next()?;
        let (offer, draft) = self.respond_alike(alloc, replica, catalogue, told, number)?;
        Ok(Some((offer, draft, drawn)))
    }

    // rule: one-unanswered, rule: nonce-numbers
    // The same from the list as it is.
    fn next_tidied(
        &self,
        alloc: Global,
        replica: u16,
        catalogue: &Published<T>,
        nonces: Nonces,
    ) -> Result<Option<(SharedMap<Due>, V::Draft, Nonces)>, Refusal>
        requires { SessionFits V.NAME T.TYPE catalogue.now self.now }
        ensures ok { IfOk result (λ next. IsNext V.NAME T.TYPE catalogue.now.entries (V.response replica T.TYPE catalogue.now self.now.session.asked.interest) self.now.session nonces next) }
        ensures bound { IfOk result (λ next. IfSome next (λ p. p.2 ≤ max_counter)) }
        ensures refused { IfErr result (λ e. IsSome (sending V.NAME T.TYPE self.now.session catalogue.now.entries) × (((e ≡ NonceSpent) × (nonces ≡ max_counter)) ⊎ ((e ≡ OutOfMemory) × (nonces < max_counter)))) }
    {
        if !self.sends(catalogue) {
            return Ok(None);
        }
        let mut drawn = nonces;
        let number = drawn.next()?;
        let (offer, draft) = self.respond(alloc, replica, catalogue, number)?;
        Ok(Some((offer, draft, drawn)))
    }

    // rule: one-unanswered, rule: nonce-numbers
    /// Notes that a response with this offer was sent, as the one of this number. It takes no memory. Where the offer is that
    /// of a catalogue, the session still fits it (`xds_ledger::laws::books_suffice`).
    pub fn send(&mut self, alloc: Global, offer: SharedMap<Due>, number: u64)
        ensures { self.new ≡ sent_kept self.old offer number }
    {
        self.ledger.send(alloc, offer, number);
    }

    /// An equal session, with memory of its own. Refused only by `OutOfMemory`.
    pub fn try_copy(&self, alloc: Global) -> Result<Session<T, V>, Refusal>
        ensures ok { IfOk result (λ s. s ≡ self.now) }
        ensures err { IfErr result (λ e. e ≡ OutOfMemory) }
    {
        Ok(Session {
            names: V::copied(alloc, &self.names)?,
            ledger: self.ledger.try_copy(alloc)?,
        })
    }
}
