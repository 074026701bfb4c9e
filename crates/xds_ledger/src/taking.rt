// How an account takes a request. An offer that was accepted is believed by holding it, where it is the whole or speaks
// of at least half as many names as were believed held. Else what is believed changes in place, name by name of those
// that the request and the response that it answers speak of. It is made anew where a request touches every name.
ghost use Rattle.std.specs.Prelude.{◌≡◌, ◌&&◌, not, false, IfOk, IfErr, IfSome, OnOk, OnErr};
ghost use Rattle.xds_resource.specs.declared.refusal.Refusal.TheVariants.{OutOfMemory};
ghost use Rattle.xds_ledger.specs.Changes.{Lead, changes_answered};
ghost use Rattle.xds_ledger.specs.Ledgers.{answered, beliefs_accepted, beliefs_after, noted, forgotten, settled, taken};
ghost use Rattle.xds_ledger.specs.Owed as owed;
ghost use Rattle.xds_ledger.specs.Variants.{is_whole};

use crate::accepting::accepted_as_offered;
use crate::account::Account;
use crate::beliefs::{accepted, beliefs_after};
use crate::believed::Beliefs;
use crate::changes::{changes_after, changes_told};
use crate::entry::Entry;
use crate::names::Names;
use crate::sent::Sent;
use crate::variant::Variant;
use std::alloc::Global;
use xds_interest::Touched;
use xds_resource::{NameMap, Refusal, ResourceType};

// Changes what is believed in place, by a request that doesn't touch every name; `start` has what its answer changes.
fn change_beliefs<T: ResourceType>(
    alloc: Global,
    names: Names<'_, T>,
    beliefs: &mut Beliefs,
    start: NameMap<Option<Entry>>,
) -> Result<(), Refusal>
    requires some { names.touched.all ≡ false }
    ensures ok { (before : owed.Beliefs) → Lead start beliefs.old before
        → OnOk result (beliefs.new ≡ beliefs_after names.entry before) }
    ensures err { OnErr result (beliefs.new ≡ beliefs.old) }
    ensures refused { IfErr result (λ e. e ≡ OutOfMemory) }
{
    let changes = changes_after(alloc, names, beliefs, start)?;
    beliefs.change(alloc, changes)
}

impl<T: ResourceType, V: Variant> Account<T, V> {
    // rule: accept-reject
    /// Takes a request: it settles the response that it answers, and then its names are taken. Refused only by
    /// `OutOfMemory`, and then nothing is taken. Where it accepts a response that is the whole, or before which
    /// nothing was believed held, it looks at the names alone that it mentions or that were touched since the
    /// response was sent, and else at those of the response, too. It looks at all that are believed held only where
    /// these are at most twice as many as the names of the response that it accepts, where every name is touched, or
    /// where every name was touched since a whole response was sent that it accepts.
    pub fn take(
        &mut self,
        alloc: Global,
        nonce: &str,
        rejects: bool,
        names: Names<'_, T>,
    ) -> Result<(), Refusal>
        ensures ok { OnOk result (self.new ≡ taken (settled V.NAME T.TYPE self.old nonce.now rejects) names.entry) }
        ensures err { OnErr result (self.new ≡ self.old) }
        ensures refused { IfErr result (λ e. e ≡ OutOfMemory) }
    {
        if self.answers(nonce) {
            self.take_answer(alloc, rejects, names)
        } else {
            self.take_names(alloc, names)
        }
    }

    // rule: accept-reject
    // Takes a request that answers the unanswered response.
    fn take_answer(
        &mut self,
        alloc: Global,
        rejects: bool,
        names: Names<'_, T>,
    ) -> Result<(), Refusal>
        ensures ok { OnOk result (IfSome self.old.sent (λ sent.
            self.new ≡ taken (answered V.NAME T.TYPE self.old sent rejects) names.entry)) }
        ensures err { OnErr result (self.new ≡ self.old) }
        ensures refused { IfErr result (λ e. e ≡ OutOfMemory) }
    {
        if rejects || names.touched().all() {
            return self.take_answer_by_name(alloc, rejects, names);
        }
        match self.accepted_as_offered(alloc)? {
            Some(next) => self.take_as_offered(alloc, names, next),
            None => self.take_answer_by_name(alloc, rejects, names),
        }
    }

    // rule: accept-reject
    // What is believed once the unanswered response is accepted, where that is what it offers, but for the names that
    // requests touched since.
    fn accepted_as_offered(&self, alloc: Global) -> Result<Option<Beliefs>, Refusal>
        ensures ok { IfOk result (λ o. IfSome o (λ b. IfSome self.now.sent (λ sent.
            b ≡ beliefs_accepted (is_whole V.NAME T.TYPE) sent self.now.beliefs))) }
        ensures err { IfErr result (λ e. e ≡ OutOfMemory) }
    {
        let whole = V::NAME.is_whole(T::TYPE);
        let Some(sent) = &self.sent else {
            return Ok(None);
        };
        if sent.touches_all() || !(whole || self.is_told_most(sent)) {
            return Ok(None);
        }
        let next = accepted_as_offered(alloc, whole, sent, &self.beliefs)?;
        Ok(Some(next))
    }

    // Whether the offer of a response speaks of half as many names as are believed held, or more.
    fn is_told_most(&self, sent: &Sent) -> bool {
        let told = sent.offer.as_map().iter().len() as u64;
        self.beliefs.how_many() <= told.saturating_mul(2)
    }

    // Takes a request that accepts the unanswered response, once it is known what is believed then.
    fn take_as_offered(
        &mut self,
        alloc: Global,
        names: Names<'_, T>,
        next: Beliefs,
    ) -> Result<(), Refusal>
        requires some { names.touched.all ≡ false }
        requires told { IfSome self.old.sent (λ sent.
            next ≡ beliefs_accepted (is_whole V.NAME T.TYPE) sent self.old.beliefs) }
        ensures ok { OnOk result (IfSome self.old.sent (λ sent.
            self.new ≡ taken (answered V.NAME T.TYPE self.old sent false) names.entry)) }
        ensures err { OnErr result (self.new ≡ self.old) }
        ensures refused { IfErr result (λ e. e ≡ OutOfMemory) }
    {
        let mut beliefs = next;
        let start = NameMap::new(alloc);
        change_beliefs(alloc, names, &mut beliefs, start)?;
        self.settle(false);
        self.beliefs = beliefs;
        Ok(())
    }

    // rule: accept-reject, rule: whole-response
    // Takes such a request where an offer isn't believed by holding it.
    fn take_answer_by_name(
        &mut self,
        alloc: Global,
        rejects: bool,
        names: Names<'_, T>,
    ) -> Result<(), Refusal>
        ensures ok { OnOk result (IfSome self.old.sent (λ sent.
            self.new ≡ taken (answered V.NAME T.TYPE self.old sent rejects) names.entry)) }
        ensures err { OnErr result (self.new ≡ self.old) }
        ensures refused { IfErr result (λ e. e ≡ OutOfMemory) }
    {
        let whole = V::NAME.is_whole(T::TYPE);
        if names.touched().all() || (!rejects && whole) {
            self.take_answer_anew(alloc, rejects, names)
        } else {
            self.take_answer_in_place(alloc, rejects, names)
        }
    }

    // rule: accept-reject
    fn take_answer_anew(
        &mut self,
        alloc: Global,
        rejects: bool,
        names: Names<'_, T>,
    ) -> Result<(), Refusal>
        ensures ok { OnOk result (IfSome self.old.sent (λ sent.
            self.new ≡ taken (answered V.NAME T.TYPE self.old sent rejects) names.entry)) }
        ensures err { OnErr result (self.new ≡ self.old) }
        ensures refused { IfErr result (λ e. e ≡ OutOfMemory) }
    {
        let beliefs = if rejects {
            beliefs_after(alloc, names, &self.beliefs)?
        } else {
            let told = self.beliefs_accepted(alloc)?;
            beliefs_after(alloc, names, &told)?
        };
        self.settle(rejects);
        self.beliefs = beliefs;
        Ok(())
    }

    // rule: accept-reject
    fn take_answer_in_place(
        &mut self,
        alloc: Global,
        rejects: bool,
        names: Names<'_, T>,
    ) -> Result<(), Refusal>
        requires some { names.touched.all ≡ false }
        requires partial { (not rejects && is_whole V.NAME T.TYPE) ≡ false }
        ensures ok { OnOk result (IfSome self.old.sent (λ sent.
            self.new ≡ taken (answered V.NAME T.TYPE self.old sent rejects) names.entry)) }
        ensures err { OnErr result (self.new ≡ self.old) }
        ensures refused { IfErr result (λ e. e ≡ OutOfMemory) }
    {
        let start = self.changes_answered(alloc, rejects)?;
        change_beliefs(alloc, names, &mut self.beliefs, start)?;
        self.settle(rejects);
        Ok(())
    }

    // rule: accept-reject
    // What an answer changes, where the response isn't the whole or is rejected.
    fn changes_answered(
        &self,
        alloc: Global,
        rejects: bool,
    ) -> Result<NameMap<Option<Entry>>, Refusal>
        ensures ok { IfOk result (λ c. IfSome self.now.sent (λ sent. c ≡ changes_answered sent rejects)) }
        ensures err { IfErr result (λ e. e ≡ OutOfMemory) }
    {
        match &self.sent {
            Some(sent) if !rejects => changes_told(alloc, sent),
            _ => Ok(NameMap::new(alloc)),
        }
    }

    // rule: accept-reject, rule: whole-response
    // What is believed once the unanswered response is accepted.
    fn beliefs_accepted(&self, alloc: Global) -> Result<Beliefs, Refusal>
        ensures ok { IfOk result (λ m. IfSome self.now.sent (λ sent.
            m ≡ beliefs_accepted (is_whole V.NAME T.TYPE) sent self.now.beliefs)) }
        ensures err { IfErr result (λ e. e ≡ OutOfMemory) }
    {
        match &self.sent {
            Some(sent) => accepted(alloc, V::NAME.is_whole(T::TYPE), sent, &self.beliefs),
            None => Ok(Beliefs::new(alloc)),
        }
    }

    // rule: accept-reject, rule: refused-offer
    // Settles the unanswered response, but for what is believed.
    fn settle(&mut self, rejects: bool)
        ensures { IfSome self.old.sent (λ sent.
            self.new ≡ record (answered V.NAME T.TYPE self.old sent rejects) { beliefs = self.old.beliefs }) }
    {
        let sent = self.sent.take();
        if rejects {
            self.refused = sent.map(Sent::into_offer);
        } else {
            self.accepted = true;
            self.refused = None;
        }
    }

    // Takes the names of a request that answers nothing.
    fn take_names(&mut self, alloc: Global, names: Names<'_, T>) -> Result<(), Refusal>
        ensures ok { OnOk result (self.new ≡ taken self.old names.entry) }
        ensures err { OnErr result (self.new ≡ self.old) }
        ensures refused { IfErr result (λ e. e ≡ OutOfMemory) }
    {
        if names.touched().all() {
            self.take_names_anew(alloc, names)
        } else {
            self.take_names_in_place(alloc, names)
        }
    }

    fn take_names_anew(&mut self, alloc: Global, names: Names<'_, T>) -> Result<(), Refusal>
        ensures ok { OnOk result (self.new ≡ taken self.old names.entry) }
        ensures err { OnErr result (self.new ≡ self.old) }
        ensures refused { IfErr result (λ e. e ≡ OutOfMemory) }
    {
        let touched = names.touched();
        let beliefs = beliefs_after(alloc, names, &self.beliefs)?;
        self.note(alloc, touched)?;
        self.beliefs = beliefs;
        Ok(())
    }

    fn take_names_in_place(&mut self, alloc: Global, names: Names<'_, T>) -> Result<(), Refusal>
        requires some { names.touched.all ≡ false }
        ensures ok { OnOk result (self.new ≡ taken self.old names.entry) }
        ensures err { OnErr result (self.new ≡ self.old) }
        ensures refused { IfErr result (λ e. e ≡ OutOfMemory) }
    {
        let touched = names.touched();
        let start = NameMap::new(alloc);
        let changes = changes_after(alloc, names, &self.beliefs, start)?;
        self.note(alloc, touched)?;
        if let Err(refusal) = self.beliefs.change(alloc, changes) {
            self.forget();
            return Err(refusal);
        }
        Ok(())
    }

    // Notes what a request touched with the unanswered response, if there is one.
    fn note(&mut self, alloc: Global, touched: &Touched) -> Result<(), Refusal>
        ensures ok { OnOk result (self.new ≡ noted self.old touched.now) }
        ensures err { OnErr result (self.new ≡ self.old) }
        ensures refused { IfErr result (λ e. e ≡ OutOfMemory) }
    {
        if let Some(sent) = &mut self.sent {
            sent.note(touched.try_copy(alloc)?)?;
        }
        Ok(())
    }

    // Takes back what was noted last. It takes no memory.
    fn forget(&mut self)
        ensures { self.new ≡ forgotten self.old }
    {
        if let Some(sent) = &mut self.sent {
            sent.forget();
        }
    }
}
