// What a server keeps of one type on one stream, beside the interest: an account of what it told, and a list of what
// it may owe.
ghost use Rattle.std.specs.Prelude.{◌≡◌, true, is_some, IfSome, IfOk, IfErr, OnOk, OnErr};
ghost use Rattle.std.specs.FinMap as finmap;
ghost use Rattle.xds_resource.specs.declared.refusal.Refusal.TheVariants.{OutOfMemory};
ghost use Rattle.xds_ledger.specs.Listed.{StaysSufficient, changed_since, relisted};
ghost use Rattle.xds_ledger.specs.Offers.{offer as offer_of, same_offer};
ghost use Rattle.xds_ledger.specs.Ledgers as ledgers;
ghost use Rattle.xds_ledger.specs.Ledgers.{settled, taken};
ghost use Rattle.xds_ledger.specs.Lists.{Fits, FitsNext, new_books, refreshed, sent_books};
ghost use Rattle.xds_ledger.specs.Variants.{is_delta};

use crate::account::Account;
use crate::entry::Due;
use crate::listed::{Listed, has_some};
use crate::names::Names;
use crate::offers::{offer, partly};
use crate::owed::something_owed;
use crate::repeats::repeats;
use crate::shared_map::SharedMap;
use crate::variant::Variant;
use std::alloc::Global;
use std::marker::Model;
use xds_catalogue::Catalogue;
use xds_interest::Interest;
use xds_resource::{NameMap, Refusal, ResourceType};

// How many names an offer may have that is made for others, too.
const FEW: usize = 64;

/// What a client was told of one type on one stream, what is unanswered, and which names it may be owed.
pub struct Ledger<T: ResourceType, V: Variant> {
    pub(crate) account: Account<T, V>,
    pub(crate) listed: Listed,
}

// Written out: docs/PROVING.md, "Drops".
impl<T: ResourceType, V: Variant> Drop for Ledger<T, V> {
    fn drop(self) {
        let Ledger {
            account: _,
            listed: _,
        } = self;
    }
}

impl<T: ResourceType, V: Variant> Model for Ledger<T, V> {
    ghost use Rattle.xds_ledger.specs.Lists.{Books, books_code};

    ghost Value = { Books };

    ghost coded = { books_code };

    ghost view = { λ l. record { account = l.account; listed = l.listed } };
}

impl<T: ResourceType, V: Variant> Ledger<T, V> {
    /// Before the first request.
    pub fn new(alloc: Global) -> Ledger<T, V>
        ensures { result ≡ new_books }
    {
        Ledger {
            account: Account::new(alloc),
            listed: Listed::new(alloc),
        }
    }

    /// Whether a request with this nonce answers the unanswered response.
    pub fn answers(&self, nonce: &str) -> bool
        ensures { result ≡ ledgers.answers self.now.account nonce.now }
    {
        self.account.answers(nonce)
    }

    /// Whether a request with this nonce is out of date, so that it is ignored.
    pub fn is_stale(&self, nonce: &str) -> bool
        ensures { result ≡ ledgers.is_stale self.now.account nonce.now }
    {
        self.account.is_stale(nonce)
    }

    // rule: one-unanswered
    /// Whether a response is unanswered.
    pub fn awaits_answer(&self) -> bool
        ensures { result ≡ is_some self.now.account.sent }
    {
        self.account.awaits_answer()
    }

    /// What a response would say now.
    pub fn offer(
        &self,
        alloc: Global,
        interest: &Interest<T>,
        catalogue: &Catalogue<T>,
    ) -> Result<SharedMap<Due>, Refusal>
        requires { Fits V.NAME T.TYPE interest.now catalogue.now self.now }
        ensures ok { IfOk result (λ o. o ≡ offer_of V.NAME T.TYPE interest.now catalogue.now.entries self.now.account.beliefs) }
        ensures err { IfErr result (λ e. e ≡ OutOfMemory) }
    {
        let beliefs = self.account.beliefs();
        offer(alloc, V::NAME, interest, catalogue, beliefs, &self.listed)
    }

    // rule: owed, rule: whole-response
    /// Whether a response is due: something is owed that can be told, or, where a response is the whole, none was
    /// accepted yet. It takes no memory, and looks at the listed names and at the changes above the mark alone.
    pub fn is_due(&self, interest: &Interest<T>, catalogue: &Catalogue<T>) -> bool
        requires { Fits V.NAME T.TYPE interest.now catalogue.now self.now }
        ensures { result ≡ ledgers.is_due V.NAME T.TYPE interest.now catalogue.now.entries self.now.account }
    {
        let beliefs = self.account.beliefs();
        something_owed(V::NAME, interest, catalogue, beliefs, &self.listed)
            || (V::NAME.is_whole(T::TYPE) && !self.account.has_accepted())
    }

    // rule: owed
    /// Whether the client is owed something: its answer is out, or a response is due. It takes no memory.
    pub fn owes(&self, interest: &Interest<T>, catalogue: &Catalogue<T>) -> bool
        requires { Fits V.NAME T.TYPE interest.now catalogue.now self.now }
        ensures { result ≡ ledgers.owes V.NAME T.TYPE interest.now catalogue.now.entries self.now.account }
    {
        self.account.awaits_answer() || self.is_due(interest, catalogue)
    }

    // rule: one-unanswered, rule: refused-offer
    /// Whether a response is to be sent: nothing is unanswered, a response is due, and its offer isn't the one that was
    /// refused last. It takes no memory.
    pub fn sends(&self, interest: &Interest<T>, catalogue: &Catalogue<T>) -> bool
        requires { Fits V.NAME T.TYPE interest.now catalogue.now self.now }
        ensures { result ≡ is_some (ledgers.sending V.NAME T.TYPE interest.now catalogue.now.entries self.now.account) }
    {
        !self.account.awaits_answer()
            && self.is_due(interest, catalogue)
            && !self.repeats(interest, catalogue)
    }

    /// What the next response would say, where it isn't the whole, some names may be owed, and few. Refused only by `OutOfMemory`.
    pub fn short_offer(
        &self,
        alloc: Global,
        interest: &Interest<T>,
        catalogue: &Catalogue<T>,
    ) -> Result<Option<SharedMap<Due>>, Refusal>
        ensures ok { IfOk result (λ o. IfSome o (λ m. Fits V.NAME T.TYPE interest.now catalogue.now self.now
            → m ≡ offer_of V.NAME T.TYPE interest.now catalogue.now.entries self.now.account.beliefs)) }
        ensures err { IfErr result (λ e. e ≡ OutOfMemory) }
    {
        if V::NAME.is_whole(T::TYPE) || !self.has_few(catalogue) {
            return Ok(None);
        }
        let beliefs = self.account.beliefs();
        let said = partly(alloc, V::NAME, interest, catalogue, beliefs, &self.listed)?;
        if !has_some(&said) {
            return Ok(None);
        }
        Ok(Some(SharedMap::new(alloc, said)?))
    }

    // Whether few names are listed, and few changes lie above the list's mark.
    fn has_few(&self, catalogue: &Catalogue<T>) -> bool {
        let (base, added) = self.listed.names();
        let shared = match base {
            Some(names) => names.iter().len(),
            None => 0,
        };
        shared <= FEW
            && added.iter().len() <= FEW
            && catalogue.changes_since(self.listed.mark()) <= FEW as u64
    }

    // rule: refused-offer
    /// Whether the next response would say what an offer says. It takes no memory, and looks at the names of the offer, the listed
    /// ones and the changes above the mark alone, but where a response is the whole.
    pub fn would_say(
        &self,
        interest: &Interest<T>,
        catalogue: &Catalogue<T>,
        offer: &NameMap<Due>,
    ) -> bool
        requires { Fits V.NAME T.TYPE interest.now catalogue.now self.now }
        ensures { result ≡ same_offer (offer_of V.NAME T.TYPE interest.now catalogue.now.entries self.now.account.beliefs) offer.now }
    {
        let beliefs = self.account.beliefs();
        repeats(offer, V::NAME, interest, catalogue, beliefs, &self.listed)
    }

    // rule: one-unanswered, rule: refused-offer
    /// What `sends` answers, from the offer of the next response where the variant is incremental: with no look at a name, but where an
    /// offer was refused. It takes no memory.
    pub fn sends_offer(
        &self,
        interest: &Interest<T>,
        catalogue: &Catalogue<T>,
        offer: &NameMap<Due>,
    ) -> bool
        requires fits { Fits V.NAME T.TYPE interest.now catalogue.now self.now }
        requires delta { is_delta V.NAME ≡ true }
        requires offer { offer.now ≡ offer_of V.NAME T.TYPE interest.now catalogue.now.entries self.now.account.beliefs }
        ensures { result ≡ is_some (ledgers.sending V.NAME T.TYPE interest.now catalogue.now.entries self.now.account) }
    {
        !self.account.awaits_answer()
            && self.is_due_by(interest, catalogue, offer)
            && !self.repeats(interest, catalogue)
    }

    // rule: owed
    // Whether a response is due, from its offer.
    fn is_due_by(
        &self,
        _interest: &Interest<T>,
        _catalogue: &Catalogue<T>,
        offer: &NameMap<Due>,
    ) -> bool
        requires delta { is_delta V.NAME ≡ true }
        requires offer { offer.now ≡ offer_of V.NAME T.TYPE _interest.now _catalogue.now.entries self.now.account.beliefs }
        ensures { result ≡ ledgers.is_due V.NAME T.TYPE _interest.now _catalogue.now.entries self.now.account }
    {
        has_some(offer)
    }

    // rule: refused-offer
    // Whether the offer of the next response is the one that was refused last.
    fn repeats(&self, interest: &Interest<T>, catalogue: &Catalogue<T>) -> bool
        requires { Fits V.NAME T.TYPE interest.now catalogue.now self.now }
        ensures { result ≡ ledgers.is_refused self.now.account (offer_of V.NAME T.TYPE interest.now catalogue.now.entries self.now.account.beliefs) }
    {
        match self.account.refused() {
            Some(refused) => self.would_say(interest, catalogue, refused.as_map()),
            None => false,
        }
    }

    /// Lists the names that changed since the ledger was refreshed last, and answers how many these are. Refused only
    /// by `OutOfMemory`, and then the ledger is as it was.
    pub fn refresh(&mut self, alloc: Global, catalogue: &Catalogue<T>) -> Result<u64, Refusal>
        ensures ok { OnOk result (self.new ≡ refreshed catalogue.now self.old) }
        ensures count { IfOk result (λ n. n ≡ finmap.len (changed_since catalogue.now self.old.listed.mark)) }
        ensures same { self.new.account ≡ self.old.account }
        ensures fits { StaysSufficient catalogue.now self.old.listed self.new.listed }
        ensures err { OnErr result (self.new ≡ self.old) }
        ensures refused { IfErr result (λ e. e ≡ OutOfMemory) }
    {
        self.listed.refresh(alloc, catalogue)
    }

    /// Refreshes the ledger, and lets the names go that are owed nothing, as far as there is memory for it. So what
    /// comes next looks at the names alone that something is owed of, or that changed since.
    pub fn tidy(&mut self, alloc: Global, interest: &Interest<T>, catalogue: &Catalogue<T>)
        requires { Fits V.NAME T.TYPE interest.now catalogue.now self.old }
        ensures same { self.new.account ≡ self.old.account }
        ensures fits { Fits V.NAME T.TYPE interest.now catalogue.now self.new }
    {
        let beliefs = self.account.beliefs();
        self.listed
            .tidy(alloc, V::NAME, interest, catalogue, beliefs);
    }

    /// Lists these names and no others at this count of changes. It takes no memory. Where something is owed of no other name
    /// at a catalogue of that count, the list suffices.
    pub fn relist(&mut self, alloc: Global, names: SharedMap<u64>, changes: u64)
        ensures { self.new ≡ record self.old { listed = relisted changes names self.old.listed } }
    {
        self.listed.relist(alloc, names, changes);
    }

    /// Notes that an offer was sent, as the response of this number. It takes no memory. Where the offer is that of a
    /// catalogue, the list still suffices at it (`laws::books_suffice`).
    pub fn send(&mut self, alloc: Global, offer: SharedMap<Due>, number: u64)
        ensures { self.new ≡ sent_books self.old offer number }
    {
        self.account.send(alloc, offer, number);
        self.listed.note_sending();
    }

    /// Takes a request with this nonce: it settles the response that it answers, and then its names are taken.
    /// Refused only by `OutOfMemory`, and then nothing is taken. Where it accepts a response that is the whole, or
    /// before which nothing was believed held, it looks at the names alone that it mentions or that were touched
    /// since the response was sent, and else at those of the response and the listed ones, too. It looks at all that
    /// are believed held only where these are at most twice as many as the names of the response that it accepts,
    /// where every name is touched, or where every name was since a whole response was sent that it accepts.
    pub fn take(
        &mut self,
        alloc: Global,
        nonce: &str,
        rejects: bool,
        names: Names<'_, T>,
    ) -> Result<(), Refusal>
        ensures ok { OnOk result (
            self.new.account ≡ taken (settled V.NAME T.TYPE self.old.account nonce.now rejects) names.entry) }
        ensures fits { OnOk result (FitsNext V.NAME T.TYPE names.entry.touched self.old self.new) }
        ensures err { OnErr result (self.new ≡ self.old) }
        ensures refused { IfErr result (λ e. e ≡ OutOfMemory) }
    {
        let listed = self.listed_after(alloc, nonce, rejects, &names)?;
        self.account.take(alloc, nonce, rejects, names)?;
        self.listed = listed;
        Ok(())
    }

    /// An equal ledger, with memory of its own. Refused only by `OutOfMemory`.
    pub fn try_copy(&self, alloc: Global) -> Result<Ledger<T, V>, Refusal>
        ensures ok { IfOk result (λ l. l ≡ self.now) }
        ensures err { IfErr result (λ e. e ≡ OutOfMemory) }
    {
        Ok(Ledger {
            account: self.account.try_copy(alloc)?,
            listed: self.listed.try_copy(alloc)?,
        })
    }
}
