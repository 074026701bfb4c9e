// What an incremental (delta) client asked for of one type, and what it was told.
ghost use Rattle.std.specs.Prelude.{◌≡◌, true, false, IfOk, IfErr, OnOk, OnErr};
ghost use Rattle.xds_resource.specs.declared.refusal.Refusal.TheVariants.{OutOfMemory};
ghost use Rattle.xds_interest.specs.Touches.{delta_touch};
ghost use Rattle.xds_ledger.specs.declared.variant.VariantName.TheVariants as variants;
ghost use Rattle.xds_ledger.specs.Sessions.{outcome};
ghost use Rattle.xds_ledger.specs.Lists.{FitsNext, StaysFit};
ghost use Rattle.xds_sessions.specs.DeltaParts.{account_taken, session_taken};
ghost use Rattle.xds_sessions.specs.DeltaPolls as polls;
ghost use Rattle.xds_sessions.specs.DeltaPolls.{mention};

use crate::session;
use std::alloc::Global;
use xds_interest::{DeltaNames, Interest, Touched};
use xds_ledger::{Delta, Ledger, Names, Outcome};
use xds_message::DeltaDiscoveryRequest;
use xds_resource::{Refusal, ResourceType};

/// One type on one stream, in the incremental variant.
pub type Session<T> = session::Session<T, Delta>;

// Takes the first request's names: those that it subscribes are mentioned, and it says which versions the client holds.
fn take_first<T: ResourceType>(
    alloc: Global,
    ledger: &mut Ledger<T, Delta>,
    request: &DeltaDiscoveryRequest,
    interest: &Interest<T>,
    touched: &Touched,
) -> Result<(), Refusal>
    ensures ok { OnOk result (
        ledger.new.account ≡ account_taken T.TYPE false ledger.old.account request.now interest.now touched.now) }
    ensures fits { OnOk result (FitsNext variants.Delta T.TYPE touched.now ledger.old ledger.new) }
    ensures err { OnErr result (ledger.new ≡ ledger.old) }
    ensures refused { IfErr result (λ e. e ≡ OutOfMemory) }
{
    let nonce = request.response_nonce.as_str();
    let rejects = request.error_detail.is_some();
    let held = request.initial_resource_versions.pairs(alloc)?;
    let names = Names::new(interest, touched, interest.names()).resuming(&held);
    ledger.take(alloc, nonce, rejects, names)
}

// Takes a later request's names: all that it touches by name are mentioned.
fn take_later<T: ResourceType>(
    alloc: Global,
    ledger: &mut Ledger<T, Delta>,
    request: &DeltaDiscoveryRequest,
    interest: &Interest<T>,
    touched: &Touched,
) -> Result<(), Refusal>
    ensures ok { OnOk result (
        ledger.new.account ≡ account_taken T.TYPE true ledger.old.account request.now interest.now touched.now) }
    ensures fits { OnOk result (FitsNext variants.Delta T.TYPE touched.now ledger.old ledger.new) }
    ensures err { OnErr result (ledger.new ≡ ledger.old) }
    ensures refused { IfErr result (λ e. e ≡ OutOfMemory) }
{
    let nonce = request.response_nonce.as_str();
    let rejects = request.error_detail.is_some();
    let names = Names::new(interest, touched, touched.names());
    ledger.take(alloc, nonce, rejects, names)
}

// Takes the names of a request, the first or a later one.
fn take_names<T: ResourceType>(
    alloc: Global,
    begun: bool,
    ledger: &mut Ledger<T, Delta>,
    request: &DeltaDiscoveryRequest,
    interest: &Interest<T>,
    touched: &Touched,
) -> Result<(), Refusal>
    ensures ok { OnOk result (
        ledger.new.account ≡ account_taken T.TYPE begun ledger.old.account request.now interest.now touched.now) }
    ensures fits { OnOk result (FitsNext variants.Delta T.TYPE touched.now ledger.old ledger.new) }
    ensures err { OnErr result (ledger.new ≡ ledger.old) }
    ensures refused { IfErr result (λ e. e ≡ OutOfMemory) }
{
    if begun {
        take_later(alloc, ledger, request, interest, touched)
    } else {
        take_first(alloc, ledger, request, interest, touched)
    }
}

impl<T: ResourceType> session::Session<T, Delta> {
    // rule: stale-nonce, rule: accept-reject
    /// Takes a request of this type: it settles the response that it answers, and its names are taken. One whose
    /// nonce is out of date is ignored; the first is taken in any case, and it alone says which versions the client
    /// holds. Refused only by `OutOfMemory`, and then nothing is taken.
    pub fn take(
        &mut self,
        alloc: Global,
        request: &DeltaDiscoveryRequest,
    ) -> Result<Outcome, Refusal>
        ensures ok { OnOk result (self.new.session ≡ polls.take T.TYPE self.old.session request.now) }
        ensures taken { IfOk result (λ r. r ≡ outcome self.old.session request.now.response_nonce) }
        ensures fits { OnOk result (StaysFit variants.Delta T.TYPE self.old self.new) }
        ensures err { OnErr result (self.new ≡ self.old) }
        ensures refused { IfErr result (λ e. e ≡ OutOfMemory) }
    {
        if self.is_stale(request.response_nonce.as_str()) {
            return Ok(Outcome::Ignored);
        }
        let subscribe = &request.resource_names_subscribe;
        let unsubscribe = &request.resource_names_unsubscribe;
        let touched = DeltaNames::<T>::touched_by(alloc, subscribe, unsubscribe)?;
        if self.names.has_begun() && !touched.all() {
            self.take_in_place(alloc, request, touched)?;
        } else {
            self.take_anew(alloc, request, touched)?;
        }
        Ok(Outcome::Taken)
    }

    // rule: delta-names
    // Takes a request, with its explicit names made anew.
    fn take_anew(
        &mut self,
        alloc: Global,
        request: &DeltaDiscoveryRequest,
        touched: Touched,
    ) -> Result<(), Refusal>
        requires { touched ≡ delta_touch T.TYPE (mention request.now) }
        ensures ok { OnOk result (self.new.session ≡ session_taken T.TYPE self.old.session request.now) }
        ensures fits { OnOk result (StaysFit variants.Delta T.TYPE self.old self.new) }
        ensures err { OnErr result (self.new ≡ self.old) }
        ensures refused { IfErr result (λ e. e ≡ OutOfMemory) }
    {
        let subscribe = &request.resource_names_subscribe;
        let unsubscribe = &request.resource_names_unsubscribe;
        let names = self.names.after(alloc, subscribe, unsubscribe)?;
        let begun = self.names.has_begun();
        let interest = names.interest();
        take_names(alloc, begun, &mut self.ledger, request, interest, &touched)?;
        self.names = names;
        Ok(())
    }

    // rule: delta-names, rule: refused-event
    // Takes a later request that doesn't touch every name: it looks at the names that it mentions, and at no others.
    fn take_in_place(
        &mut self,
        alloc: Global,
        request: &DeltaDiscoveryRequest,
        touched: Touched,
    ) -> Result<(), Refusal>
        requires later { self.old.session.asked.begun ≡ true }
        requires touches { touched ≡ delta_touch T.TYPE (mention request.now) }
        requires some { touched.all ≡ false }
        ensures ok { OnOk result (self.new.session ≡ session_taken T.TYPE self.old.session request.now) }
        ensures fits { OnOk result (StaysFit variants.Delta T.TYPE self.old self.new) }
        ensures err { OnErr result (self.new ≡ self.old) }
        ensures refused { IfErr result (λ e. e ≡ OutOfMemory) }
    {
        let subscribe = &request.resource_names_subscribe;
        let unsubscribe = &request.resource_names_unsubscribe;
        let wanted = self.names.wanted_by(alloc, subscribe, unsubscribe)?;
        let added = self.names.widen(alloc, &wanted)?;
        if let Err(refusal) = take_later(alloc, &mut self.ledger, request, &wanted, &touched) {
            self.names.take_back(&added);
            return Err(refusal);
        }
        self.names.narrow(&wanted, unsubscribe);
        Ok(())
    }
}
