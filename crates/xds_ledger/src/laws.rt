//! What sessions are, as statements that the prover checks. The functions do nothing.
ghost use Rattle.xds_ledger.specs.Laws.{NewListFits, WiderListFits, RefreshedListFits, PrunedListFits, OwedIsListed, LaterHoldingsFit, JoinedIsLater, RequestKeepsFitting, OfferSaysIt, AcceptedByName, TakenByName, UntouchedKeepsBelief, TouchedIsNotTold, SendingCommutes, AcceptedOwesNothing, NothingOwed, OffersAreToldApart};
ghost use Rattle.xds_ledger.specs.BookLaws.{SentBooksFit, SentSessionFits, LaterBooksFit, RefreshedBooksFit, PrunedBooksFit, AcceptanceKeepsFitting};

// rule: accept-reject, rule: whole-response
/// What an offer says, and what is believed after an answer and after a request, name by name.
pub fn name_by_name()
    ensures offered { OfferSaysIt }
    ensures accepted { AcceptedByName }
    ensures taken { TakenByName }
    ensures owed { NothingOwed }
{}

/// A request leaves the names alone that it doesn't touch, and no touched name counts as told.
pub fn touched_names()
    ensures untouched { UntouchedKeepsBelief }
    ensures touched { TouchedIsNotTold }
{}

/// To send and then take a request that doesn't answer is to take it and then send.
pub fn sending_commutes()
    ensures { SendingCommutes }
{}

// rule: accept-reject, rule: owed
/// Once an offer is accepted of which no name was touched, nothing is due.
pub fn accepted_offers_settle()
    ensures { AcceptedOwesNothing }
{}

// rule: refused-offer
/// Two offers are equal where each says what the other says.
pub fn offers_are_told_apart()
    ensures { OffersAreToldApart }
{}

// rule: owed
/// A list of what may be owed suffices from the start, and once it was refreshed or pruned, once a request was taken
/// that it has all names of, and at a catalogue to which writes came. Once it was refreshed it has all that is owed.
pub fn lists_suffice()
    ensures new { NewListFits }
    ensures wider { WiderListFits }
    ensures refreshed { RefreshedListFits }
    ensures pruned { PrunedListFits }
    ensures owed { OwedIsListed }
    ensures taken { RequestKeepsFitting }
    ensures later { LaterHoldingsFit }
    ensures joined { JoinedIsLater }
{}

// rule: owed
/// The books of a ledger suffice, and those of a session, once an offer was sent that was made of the catalogue, at a
/// catalogue to which writes came, once the list was refreshed or pruned, and once the response is accepted with the
/// touched names alone listed.
pub fn books_suffice()
    ensures sent { SentBooksFit }
    ensures session { SentSessionFits }
    ensures later { LaterBooksFit }
    ensures refreshed { RefreshedBooksFit }
    ensures pruned { PrunedBooksFit }
    ensures accepted { AcceptanceKeepsFitting }
{}
