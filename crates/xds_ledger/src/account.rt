// What a server keeps of one type on one stream, beside the interest.
ghost use Rattle.std.specs.Prelude.{◌≡◌, bytes_eq, is_some, option_map, IfOk, IfErr};
ghost use Rattle.xds_resource.specs.declared.refusal.Refusal.TheVariants.{OutOfMemory};
ghost use Rattle.xds_ledger.specs.Ledgers as ledgers;
ghost use Rattle.xds_ledger.specs.Ledgers.{untold, nonce_text};

use crate::believed::Beliefs;
use crate::entry::Due;
use crate::sent::Sent;
use crate::shared_map::SharedMap;
use crate::variant::Variant;
use itoa::Buffer;
use std::alloc::Global;
use std::marker::{Model, PhantomData};
use xds_resource::{Refusal, ResourceType};

/// What a client was told of one type on one stream, and what is unanswered.
pub struct Account<T: ResourceType, V: Variant> {
    pub(crate) beliefs: Beliefs,
    // The number of the last response of the type, 0 before the first.
    nonce: u64,
    pub(crate) accepted: bool,
    pub(crate) sent: Option<Sent>,
    pub(crate) refused: Option<SharedMap<Due>>,
    kind: PhantomData<T>,
    variant: PhantomData<V>,
}

// Written out: docs/PROVING.md, "Drops".
impl<T: ResourceType, V: Variant> Drop for Account<T, V> {
    fn drop(self) {
        let Account {
            beliefs: _,
            nonce: _,
            accepted: _,
            sent: _,
            refused: _,
            kind: _,
            variant: _,
        } = self;
    }
}

impl<T: ResourceType, V: Variant> Model for Account<T, V> {
    ghost use Rattle.xds_ledger.specs.Ledgers as ledgers;
    ghost use Rattle.xds_ledger.specs.Ledgers.{account_code};

    ghost Value = { ledgers.Account };

    ghost coded = { account_code };

    ghost view = { λ l. record { beliefs = l.beliefs; nonce = l.nonce; accepted = l.accepted; sent = l.sent; refused = l.refused } };
}

// rule: stale-nonce
// Whether a text is the nonce of the response of a number. It takes no memory.
fn is_nonce(number: u64, text: &str) -> bool
    ensures { result ≡ bytes_eq text.now (nonce_text number) }
{
    if number == 0 {
        return text.is_empty();
    }
    let mut digits = Buffer::new();
    text == digits.format(number)
}

impl<T: ResourceType, V: Variant> Account<T, V> {
    /// Before the first request.
    pub fn new(alloc: Global) -> Account<T, V>
        ensures { result ≡ untold }
    {
        Account {
            beliefs: Beliefs::new(alloc),
            nonce: 0,
            accepted: false,
            sent: None,
            refused: None,
            kind: PhantomData,
            variant: PhantomData,
        }
    }

    /// What the client is believed to hold.
    pub(crate) fn beliefs(&self) -> &Beliefs
        ensures { result.now ≡ self.now.beliefs }
    {
        &self.beliefs
    }

    /// Whether a response was accepted.
    pub(crate) fn has_accepted(&self) -> bool
        ensures { result ≡ self.now.accepted }
    {
        self.accepted
    }

    /// The unanswered response.
    pub(crate) fn sent(&self) -> Option<&Sent>
        ensures { option_map (λ s. s.now) result ≡ self.now.sent }
    {
        self.sent.as_ref()
    }

    // rule: one-unanswered
    /// Whether a response is unanswered.
    pub(crate) fn awaits_answer(&self) -> bool
        ensures { result ≡ is_some self.now.sent }
    {
        self.sent.is_some()
    }

    /// The offer that was refused last.
    pub(crate) fn refused(&self) -> Option<&SharedMap<Due>>
        ensures { option_map (λ o. o.now) result ≡ self.now.refused }
    {
        self.refused.as_ref()
    }

    // rule: accept-reject
    /// Whether a request with this nonce answers the unanswered response.
    pub fn answers(&self, nonce: &str) -> bool
        ensures { result ≡ ledgers.answers self.now nonce.now }
    {
        self.sent.is_some() && is_nonce(self.nonce, nonce)
    }

    // rule: stale-nonce
    /// Whether a request with this nonce is out of date, so that it is ignored.
    pub fn is_stale(&self, nonce: &str) -> bool
        ensures { result ≡ ledgers.is_stale self.now nonce.now }
    {
        self.sent.is_none() && !nonce.is_empty() && !is_nonce(self.nonce, nonce)
    }

    // rule: stale-nonce, rule: accept-reject, rule: one-unanswered
    /// Notes that an offer was sent, as the response of this number.
    pub fn send(&mut self, alloc: Global, offer: SharedMap<Due>, number: u64)
        ensures { self.new ≡ ledgers.send self.old offer number }
    {
        self.nonce = number;
        self.sent = Some(Sent::new(alloc, offer));
    }

    // A copy of the unanswered response, if there is one.
    fn copy_sent(&self, alloc: Global) -> Result<Option<Sent>, Refusal>
        ensures ok { IfOk result (λ s. s ≡ self.now.sent) }
        ensures err { IfErr result (λ e. e ≡ OutOfMemory) }
    {
        match &self.sent {
            Some(sent) => Ok(Some(sent.try_copy(alloc)?)),
            None => Ok(None),
        }
    }

    // The offer that was refused last, if there is one, with one owner more.
    fn copy_refused(&self) -> Result<Option<SharedMap<Due>>, Refusal>
        ensures ok { IfOk result (λ o. o ≡ self.now.refused) }
        ensures err { IfErr result (λ e. e ≡ OutOfMemory) }
    {
        match &self.refused {
            Some(refused) => Ok(Some(refused.try_copy()?)),
            None => Ok(None),
        }
    }

    /// An equal ledger, with memory of its own but for the offers. Refused only by `OutOfMemory`.
    pub fn try_copy(&self, alloc: Global) -> Result<Account<T, V>, Refusal>
        ensures ok { IfOk result (λ l. l ≡ self.now) }
        ensures err { IfErr result (λ e. e ≡ OutOfMemory) }
    {
        Ok(Account {
            beliefs: self.beliefs.try_copy(alloc)?,
            nonce: self.nonce,
            accepted: self.accepted,
            sent: self.copy_sent(alloc)?,
            refused: self.copy_refused()?,
            kind: PhantomData,
            variant: PhantomData,
        })
    }
}
