// A response that was sent and isn't answered.
ghost use Rattle.std.specs.Prelude.{◌≡◌, [], ◌∷◌, ◌++◌, IfOk, IfErr, OnOk, OnErr};
ghost use Rattle.std.specs.List.{list_any};
ghost use Rattle.xds_resource.specs.declared.refusal.Refusal.TheVariants.{OutOfMemory};
ghost use Rattle.xds_ledger.specs.Believing.{was_touched, touched_since, last_touch_forgotten};

use crate::copying::copy_touches;
use crate::entry::Due;
use crate::shared_map::SharedMap;
use std::alloc::Global;
use std::marker::Model;
use xds_interest::Touched;
use xds_resource::Refusal;

/// What an unanswered response offers, and what the requests touched that were taken since.
#[derive(Drop)]
pub struct Sent {
    pub offer: SharedMap<Due>,
    pub(crate) touched: Vec<Touched>,
}

impl Model for Sent {
    ghost use Rattle.xds_ledger.specs.Believing as ledgers;
    ghost use Rattle.xds_ledger.specs.Believing.{sent_code};

    ghost Value = { ledgers.Sent };

    ghost coded = { sent_code };

    ghost view = { λ s. record { offer = s.offer; touched = s.touched.items } };
}

impl Sent {
    pub fn new(alloc: Global, offer: SharedMap<Due>) -> Sent
        ensures { result ≡ record { offer = offer; touched = [] } }
    {
        Sent {
            offer,
            touched: Vec::new(alloc),
        }
    }

    /// What it offers.
    pub fn into_offer(self) -> SharedMap<Due>
        ensures { result ≡ self.offer }
    {
        let Sent { offer, .. } = self;
        offer
    }

    /// Whether a request touched the name since it was sent.
    pub fn was_touched(&self, name: &str) -> bool
        ensures { result ≡ was_touched self.now name.now }
    {
        self.touched.iter().any(|touched| touched.touches(name))
    }

    /// Whether a request touched every name since it was sent.
    pub fn touches_all(&self) -> bool
        ensures { result ≡ list_any (λ t. t.all) self.now.touched }
    {
        self.touched.iter().any(|touched| touched.all())
    }

    /// Notes what a request touched. Refused only by `OutOfMemory`.
    pub fn note(&mut self, touched: Touched) -> Result<(), Refusal>
        ensures ok { OnOk result (self.new ≡ touched_since self.old touched) }
        ensures err { OnErr result (self.new ≡ self.old) }
        ensures refused { IfErr result (λ e. e ≡ OutOfMemory) }
    {
        self.touched.push(touched)?;
        Ok(())
    }

    /// Takes back what was noted last. It takes no memory.
    pub fn forget(&mut self)
        ensures { self.new ≡ last_touch_forgotten self.old }
    {
        self.touched.pop();
    }

    /// An equal value, with the same offer. Refused only by `OutOfMemory`.
    pub fn try_copy(&self, alloc: Global) -> Result<Sent, Refusal>
        ensures ok { IfOk result (λ s. s ≡ self.now) }
        ensures err { IfErr result (λ e. e ≡ OutOfMemory) }
    {
        Ok(Sent {
            offer: self.offer.try_copy()?,
            touched: copy_touches(alloc, &self.touched)?,
        })
    }
}
