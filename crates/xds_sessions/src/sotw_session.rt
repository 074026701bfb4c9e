// What a state-of-the-world client asked for of one type, and what it was told.
ghost use Rattle.std.specs.Prelude.{◌≡◌, false, map, string_bytes, IfOk, IfErr, OnOk, OnErr};
ghost use Rattle.xds_resource.specs.declared.refusal.Refusal.TheVariants.{OutOfMemory};
ghost use Rattle.xds_interest.specs.Asked.{sotw_asked};
ghost use Rattle.xds_ledger.specs.declared.variant.VariantName.TheVariants as variants;
ghost use Rattle.xds_ledger.specs.Sessions.{outcome, is_stale};
ghost use Rattle.xds_ledger.specs.Lists.{StaysFit};
ghost use Rattle.xds_sessions.specs.SotwPolls as polls;

use crate::session;
use std::alloc::Global;
use xds_interest::Touched;
use xds_ledger::{Names, Outcome, StateOfTheWorld};
use xds_message::DiscoveryRequest;
use xds_resource::{Refusal, ResourceType};

/// One type on one stream, in the state-of-the-world variant.
pub type Session<T> = session::Session<T, StateOfTheWorld>;

impl<T: ResourceType> session::Session<T, StateOfTheWorld> {
    // rule: accept-reject
    /// Takes a request of this type: it settles the response that it answers, and its names are taken. One whose
    /// nonce is out of date is ignored; the first is taken in any case. Refused only by `OutOfMemory`, and then
    /// nothing is taken.
    pub fn take(&mut self, alloc: Global, request: &DiscoveryRequest) -> Result<Outcome, Refusal>
        ensures ok { OnOk result (self.new.session ≡ polls.take T.TYPE self.old.session request.now) }
        ensures taken { IfOk result (λ r. r ≡ outcome self.old.session request.now.response_nonce) }
        ensures err { OnErr result (self.new ≡ self.old) }
        ensures fits { OnOk result (StaysFit variants.StateOfTheWorld T.TYPE self.old self.new) }
        ensures refused { IfErr result (λ e. e ≡ OutOfMemory) }
    {
        self.take_list(
            alloc,
            request.response_nonce.as_str(),
            request.error_detail.is_some(),
            &request.resource_names,
        )
    }

    // rule: listed-names, rule: stale-nonce
    // Takes a request with this nonce, with or without an error, and with this list of names.
    fn take_list(
        &mut self,
        alloc: Global,
        nonce: &str,
        rejects: bool,
        list: &[String],
    ) -> Result<Outcome, Refusal>
        ensures ok { OnOk result (
            self.new.session ≡ polls.take_list T.TYPE self.old.session nonce.now rejects (map string_bytes list.now)) }
        ensures taken { IfOk result (λ r. r ≡ outcome self.old.session nonce.now) }
        ensures err { OnErr result (self.new ≡ self.old) }
        ensures fits { OnOk result (StaysFit variants.StateOfTheWorld T.TYPE self.old self.new) }
        ensures refused { IfErr result (λ e. e ≡ OutOfMemory) }
    {
        if self.is_stale(nonce) {
            return Ok(Outcome::Ignored);
        }
        if self.names.says_again(alloc, list) {
            return self.take_again(alloc, nonce, rejects, list);
        }
        self.take_anew(alloc, nonce, rejects, list)
    }

    // rule: listed-names
    // Takes a request that isn't stale, with this list of names.
    fn take_anew(
        &mut self,
        alloc: Global,
        nonce: &str,
        rejects: bool,
        list: &[String],
    ) -> Result<Outcome, Refusal>
        requires fresh { is_stale self.now.session nonce.now ≡ false }
        ensures ok { OnOk result (
            self.new.session ≡ polls.take_list T.TYPE self.old.session nonce.now rejects (map string_bytes list.now)) }
        ensures taken { IfOk result (λ r. r ≡ outcome self.old.session nonce.now) }
        ensures err { OnErr result (self.new ≡ self.old) }
        ensures fits { OnOk result (StaysFit variants.StateOfTheWorld T.TYPE self.old self.new) }
        ensures refused { IfErr result (λ e. e ≡ OutOfMemory) }
    {
        let names = self.names.after(alloc, list)?;
        let interest = names.interest();
        let touched = self.names.interest().touched_until(alloc, interest)?;
        let said = Names::new(interest, &touched, interest.names());
        self.ledger.take(alloc, nonce, rejects, said)?;
        self.names = names;
        Ok(Outcome::Taken)
    }

    // rule: listed-names
    // Takes a request that isn't stale, whose list of names says what is kept already. The names stay as they are, and none is touched.
    fn take_again(
        &mut self,
        alloc: Global,
        nonce: &str,
        rejects: bool,
        list: &[String],
    ) -> Result<Outcome, Refusal>
        requires fresh { is_stale self.now.session nonce.now ≡ false }
        requires again { sotw_asked T.TYPE self.now.session.asked (map string_bytes list.now) ≡ self.now.session.asked }
        ensures ok { OnOk result (
            self.new.session ≡ polls.take_list T.TYPE self.old.session nonce.now rejects (map string_bytes list.now)) }
        ensures taken { IfOk result (λ r. r ≡ outcome self.old.session nonce.now) }
        ensures err { OnErr result (self.new ≡ self.old) }
        ensures fits { OnOk result (StaysFit variants.StateOfTheWorld T.TYPE self.old self.new) }
        ensures refused { IfErr result (λ e. e ≡ OutOfMemory) }
    {
        let interest = self.names.interest();
        let touched = Touched::nothing(alloc);
        let said = Names::new(interest, &touched, interest.names());
        self.ledger.take(alloc, nonce, rejects, said)?;
        Ok(Outcome::Taken)
    }
}
