// Which rules a response breaks, by what is kept of its stream and of the writes.
ghost use Rattle.std.specs.Prelude.{◌≡◌, map, not, bytes_eq, is_some, true, List, ℕ, string_bytes, IfOk, IfErr};
ghost use Rattle.std.specs.List.{list_any};
ghost use Rattle.std.specs.Option.{option_map, option_map_or};
ghost use Rattle.std.specs.FinMap as finmap;
ghost use Rattle.xds_resource.specs.declared.refusal.Refusal.TheVariants.{OutOfMemory};
ghost use Rattle.xds_resource.specs.Stamps.{version_text};
ghost use Rattle.xds_interest.specs.Interests.{has_name};
ghost use Rattle.xds_catalogue.specs.Content.{live_at};
ghost use Rattle.xds_check.specs.Rules as rules;
ghost use Rattle.xds_check.specs.Kept as kept;
ghost use Rattle.xds_check.specs.LiveNames as living;
ghost use Rattle.xds_check.specs.LiveNames.{AreLive};
ghost use Rattle.xds_check.specs.Kept.{is_best_in, is_covered_in, is_shown_in, least_by_names, least_by_order, least};

use crate::answer::Answer;
use crate::live_names::LiveNames;
use crate::marks::is_marked;
use crate::offering::{is_same, offer_of};
use crate::rule::Rule;
use crate::statement::{Label, Statement};
use crate::talk::StreamTalk;
use std::alloc::Global;
use xds_catalogue::Catalogue;
use xds_interest::Interest;
use xds_resource::{NameMap, Refusal, ResourceType, Stamp, Write};

// rule: best-writes
// Whether a text is the version of a stamp. It takes no memory.
fn is_version(text: &str, stamp: Stamp) -> bool
    ensures { result ≡ bytes_eq text.now (version_text stamp.counter stamp.writer) }
{
    match Stamp::parse_version(text) {
        Ok(named) => named == stamp,
        Err(_) => false,
    }
}

// rule: best-writes
// Whether a label is that of a write.
fn is_label_of<T: ResourceType>(label: &Label, write: &Write<T>) -> bool
    ensures { result ≡ rules.is_label_of write.now label.now }
{
    label.name() == write.name() && is_version(label.version(), write.stamp())
}

// rule: best-writes
// Whether a resource's label is that of a write, or it has none.
fn is_labelled<T: ResourceType>(statement: &Statement, write: &Write<T>) -> bool
    ensures { result ≡ option_map_or (rules.is_label_of write.now) statement.now.label true }
{
    match statement.label() {
        Some(label) => is_label_of(label, write),
        None => true,
    }
}

// rule: best-writes
// Whether a resource is the one that a write puts.
fn is_put_by<T: ResourceType>(statement: &Statement, write: &Write<T>) -> bool
    ensures { result ≡ rules.is_put_by statement.now write.now }
{
    match write.body() {
        Some(body) => statement.body() == body && is_labelled(statement, write),
        None => false,
    }
}

// rule: tombstones, rule: best-writes
// The write that stands under a name, if it is live.
fn live<'a, T: ResourceType>(catalogue: &'a Catalogue<T>, name: &str) -> Option<&'a Write<T>>
    ensures { option_map (λ w. w.now) result ≡ live_at catalogue.now.entries name.now }
{
    let write = catalogue.get(name)?;
    if write.body().is_none() {
        return None;
    }
    Some(write)
}

// rule: best-writes
// Whether a resource is that of the best live write of its name.
fn is_best<T: ResourceType>(catalogue: &Catalogue<T>, statement: &Statement) -> bool
    ensures { result ≡ is_best_in catalogue.now.entries statement.now }
{
    match live(catalogue, statement.name()) {
        Some(write) => is_put_by(statement, write),
        None => false,
    }
}

// rule: best-writes
// Whether a resource isn't that of the best live write of its name.
fn breaks_best_resources<T: ResourceType>(
    catalogue: &Catalogue<T>,
    statements: &[Statement],
) -> bool
    ensures { result ≡ list_any (λ x. not (is_best_in catalogue.now.entries x)) statements.now }
{
    for statement in statements {
        if !is_best(catalogue, statement) {
            return true;
        }
    }
    false
}

// rule: covered-only
// Whether a name that has a best write is covered.
fn is_covered<T: ResourceType>(catalogue: &Catalogue<T>, interest: &Interest<T>, name: &str) -> bool
    ensures { result ≡ is_covered_in catalogue.now.entries interest.now name.now }
{
    match catalogue.get(name) {
        Some(write) => interest.covers(name, write.groups()),
        None => false,
    }
}

// rule: covered-only
// Whether a resource isn't covered.
fn states_uncovered<T: ResourceType>(
    catalogue: &Catalogue<T>,
    interest: &Interest<T>,
    statements: &[Statement],
) -> bool
    ensures { result ≡ list_any (λ name. not (is_covered_in catalogue.now.entries interest.now name)) (map (λ x. x.name) statements.now) }
{
    for statement in statements {
        if !is_covered(catalogue, interest, statement.name()) {
            return true;
        }
    }
    false
}

// The names of resources.
fn names_of(alloc: Global, statements: &[Statement]) -> Result<NameMap<bool>, Refusal>
    ensures ok { IfOk result (λ m. (name : List ℕ) → is_some (finmap.get m name) ≡ has_name (map (λ x. x.name) statements.now) name) }
    ensures refused { IfErr result (λ e. e ≡ OutOfMemory) }
{
    let mut names = NameMap::new(alloc);
    for statement in statements {
        names.put(alloc, statement.name(), Some(true))?;
    }
    Ok(names)
}

// rule: whole-response
// Whether the names of a response have one, where that lives.
fn has_if_live<T: ResourceType>(
    catalogue: &Catalogue<T>,
    stated: &NameMap<bool>,
    name: &str,
) -> bool
    ensures { result ≡ living.has_if_live catalogue.now.entries stated.now name.now }
{
    live(catalogue, name).is_none() || stated.contains(name)
}

// rule: whole-response
// Whether they have all explicit names that live.
fn has_explicit<T: ResourceType>(
    catalogue: &Catalogue<T>,
    interest: &Interest<T>,
    stated: &NameMap<bool>,
) -> bool
    ensures { result ≡ living.has_explicit catalogue.now.entries interest.now stated.now }
{
    for name in interest.names() {
        if !has_if_live(catalogue, stated, name.as_str()) {
            return false;
        }
    }
    true
}

// rule: star-covers, rule: whole-response
// Whether they have all that is live and covered. It looks at explicit names, and, up to the first that is lacking, at names that
// the response has: not at all that stand in the catalogue.
fn has_shown<T: ResourceType>(
    catalogue: &Catalogue<T>,
    live_names: &LiveNames,
    interest: &Interest<T>,
    stated: &NameMap<bool>,
) -> bool
    ensures { result ≡ living.has_shown catalogue.now.entries live_names.now interest.now stated.now }
{
    has_explicit(catalogue, interest, stated)
        && (!interest.has_star() || live_names.are_in(interest.cluster(), stated))
}

// rule: whole-response
// Whether a whole response lacks a name that is live and covered.
fn lacks_a_name<T: ResourceType>(
    alloc: Global,
    catalogue: &Catalogue<T>,
    live_names: &LiveNames,
    interest: &Interest<T>,
    answer: &Answer,
) -> Result<bool, Refusal>
    requires { AreLive catalogue.now.entries live_names.now }
    ensures ok { IfOk result (λ b. b ≡ kept.lacks_a_name T.TYPE catalogue.now.entries interest.now answer.now) }
    ensures refused { IfErr result (λ e. e ≡ OutOfMemory) }
{
    if !answer.variant().is_whole(T::TYPE) {
        return Ok(false);
    }
    let stated = names_of(alloc, answer.statements())?;
    Ok(!has_shown(catalogue, live_names, interest, &stated))
}

// rule: no-live-removal
// Whether a name is live and covered.
fn is_shown<T: ResourceType>(catalogue: &Catalogue<T>, interest: &Interest<T>, name: &str) -> bool
    ensures { result ≡ is_shown_in catalogue.now.entries interest.now name.now }
{
    live(catalogue, name).is_some() && is_covered(catalogue, interest, name)
}

// rule: no-live-removal
// Whether a response removes a name that is live and covered.
fn removes_shown<T: ResourceType>(
    catalogue: &Catalogue<T>,
    interest: &Interest<T>,
    removed: &[String],
) -> bool
    ensures { result ≡ list_any (is_shown_in catalogue.now.entries interest.now) (map string_bytes removed.now) }
{
    for name in removed {
        if is_shown(catalogue, interest, name.as_str()) {
            return true;
        }
    }
    false
}

// rule: new-nonce
// Whether a nonce is empty or was used.
fn is_reused<T: ResourceType>(talk: &StreamTalk<T>, nonce: &str) -> bool
    ensures { result ≡ kept.is_reused talk.now nonce.now }
{
    nonce.is_empty() || talk.used.contains(nonce)
}

// rule: refused-offer
// Whether a response offers what was refused.
fn offers_refused<T: ResourceType>(
    alloc: Global,
    catalogue: &Catalogue<T>,
    talk: &StreamTalk<T>,
    answer: &Answer,
) -> Result<bool, Refusal>
    ensures ok { IfOk result (λ b. b ≡ kept.offers_refused catalogue.now.entries talk.now answer.now) }
    ensures refused { IfErr result (λ e. e ≡ OutOfMemory) }
{
    match &talk.refused {
        Some(refused) => {
            let offer = offer_of(alloc, catalogue, answer)?;
            Ok(is_same(&offer, refused))
        }
        None => Ok(false),
    }
}

// The least rule that a response of the type breaks, of those that look at what it says of names.
fn broken_by_names<T: ResourceType>(
    alloc: Global,
    catalogue: &Catalogue<T>,
    live_names: &LiveNames,
    interest: &Interest<T>,
    answer: &Answer,
) -> Result<Option<Rule>, Refusal>
    requires { AreLive catalogue.now.entries live_names.now }
    ensures ok { IfOk result (λ r. r ≡ least_by_names T.TYPE catalogue.now.entries interest.now answer.now) }
    ensures refused { IfErr result (λ e. e ≡ OutOfMemory) }
{
    if breaks_best_resources(catalogue, answer.statements()) {
        return Ok(Some(Rule::BestResources));
    }
    if states_uncovered(catalogue, interest, answer.statements()) {
        return Ok(Some(Rule::CoveredResources));
    }
    if lacks_a_name(alloc, catalogue, live_names, interest, answer)? {
        return Ok(Some(Rule::WholeResponse));
    }
    if removes_shown(catalogue, interest, answer.removed()) {
        return Ok(Some(Rule::RightRemovals));
    }
    Ok(None)
}

// rule: one-unanswered
// The least rule that it breaks, of those that look at what became of the responses before it.
fn broken_by_order<T: ResourceType>(
    alloc: Global,
    catalogue: &Catalogue<T>,
    talk: &StreamTalk<T>,
    answer: &Answer,
) -> Result<Option<Rule>, Refusal>
    ensures ok { IfOk result (λ r. r ≡ least_by_order catalogue.now.entries talk.now answer.now) }
    ensures refused { IfErr result (λ e. e ≡ OutOfMemory) }
{
    if talk.unanswered.is_some() {
        return Ok(Some(Rule::OneAtATime));
    }
    if offers_refused(alloc, catalogue, talk, answer)? {
        return Ok(Some(Rule::NothingRefusedAgain));
    }
    Ok(None)
}

/// The least rule that a response of the type breaks. Refused only by `OutOfMemory`.
pub(crate) fn broken_by<T: ResourceType>(
    alloc: Global,
    catalogue: &Catalogue<T>,
    live_names: &LiveNames,
    talk: &StreamTalk<T>,
    answer: &Answer,
) -> Result<Option<Rule>, Refusal>
    requires { AreLive catalogue.now.entries live_names.now }
    ensures ok { IfOk result (λ r. r ≡ least T.TYPE catalogue.now.entries talk.now answer.now) }
    ensures refused { IfErr result (λ e. e ≡ OutOfMemory) }
{
    if is_reused(talk, answer.nonce()) {
        return Ok(Some(Rule::FreshNonce));
    }
    if let Some(rule) = broken_by_names(alloc, catalogue, live_names, talk.wanted(), answer)? {
        return Ok(Some(rule));
    }
    broken_by_order(alloc, catalogue, talk, answer)
}

// rule: awaited-names
// Whether a name waits whose answer is missed.
fn is_missed<T: ResourceType>(catalogue: &Catalogue<T>, talk: &StreamTalk<T>, name: &str) -> bool
    ensures { result ≡ kept.is_missed catalogue.now.entries talk.now name.now }
{
    is_marked(&talk.waiting, name) && (talk.speaks_delta() || live(catalogue, name).is_some())
}

// rule: awaited-names
/// Whether no name waits whose answer is missed.
pub(crate) fn none_missed<T: ResourceType>(catalogue: &Catalogue<T>, talk: &StreamTalk<T>) -> bool
    ensures { result ≡ kept.none_missed catalogue.now.entries talk.now }
{
    for (name, _mark) in talk.waiting.iter() {
        if is_missed(catalogue, talk, name.as_str()) {
            return false;
        }
    }
    true
}
