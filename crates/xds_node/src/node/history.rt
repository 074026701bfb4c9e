// What a node leaves at its end.
ghost use Rattle.std.specs.Prelude.{◌≡◌, ◌≢◌, ◌⊎◌, ◌+◌, ◌<◌, ◌≤◌, ◌++◌, true, length, All, Contains, MatchBool, MatchResult, IfSome, IfNone, IsPermutation};
ghost use Rattle.xds_resource.specs.declared.refusal.Refusal.TheVariants.{Gap};
ghost use Rattle.xds_node.specs.Entries.{Counted};
ghost use Rattle.xds_node.specs.Holdings.{with_shares};
ghost use Rattle.xds_node.specs.Pieces.{piece_entries, piece_before, pieces_entries, last_entries, StandsInStory, BeginAsCut, IsWhole};

use crate::node::line::JournalLine;
use crate::node::rule::NodeName;
use crate::node::segment::Segment;
use crate::node::token::{Token, Tokens};
use std::marker::Model;
use xds_core::Core;
use xds_resource::Refusal;

/// What a node leaves at its end: the records since the last cut, and the replica before the first of them. Contracts see also all
/// records that were cut, with their numbers, how many seats were made, whether all of them were handed in, and what those that were
/// had been told.
pub struct History<N: NodeName> {
    pub(crate) base: Core,
    pub(crate) records: Vec<JournalLine>,
    pub(crate) cut: u64,
    pub(crate) complete: bool,
    pub(crate) tokens: Tokens<JournalLine, N>,
    pub(crate) token: Token<JournalLine, N>,
}

// Written out: docs/PROVING.md, "Drops".
impl<N: NodeName> Drop for History<N> {
    fn drop(self) {
        let History {
            base: _,
            records: _,
            cut: _,
            complete: _,
            tokens: _,
            token: _,
        } = self;
    }
}

impl<N: NodeName> Model for History<N> {
    ghost use Rattle.std.specs.Coded.{codes};
    ghost use Rattle.xds_json.specs.Versions.{version_map_code};
    ghost use Rattle.xds_core.specs.Steps.{core_code};
    ghost use Rattle.xds_node.specs.Pieces.{Story, IsStory};

    ghost Value = { Story };

    ghost coded = { Prim.hlevel (codes, version_map_code, core_code) };

    ghost view = { λ h. record { base = h.base; records = h.records.items; before = h.token.cut; made = h.token.made; complete = h.complete; told = h.token.told } };

    ghost invariant = { λ h. IsStory N.replica h.base h.records.items h.cut h.complete h.token };
}

impl<N: NodeName> History<N> {
    /// The replica before the first of the records. It has the node's number.
    pub fn base(&self) -> &Core
        ensures base { result.now ≡ self.now.base }
        ensures own { self.now.base.replica ≡ N.replica }
    {
        &self.base
    }

    /// The records since the last cut. With all that was cut they are one list of steps from a replica at which nothing
    /// happened.
    pub fn records(&self) -> &[JournalLine]
        ensures records { result.now ≡ self.now.records }
        ensures whole { IsWhole self.now }
    {
        self.records.as_slice()
    }

    // rule: cuts
    /// How many records were cut before.
    pub fn cut(&self) -> u64
        ensures { result ≡ length self.now.before }
    {
        self.cut
    }

    // rule: cuts
    /// Whether these segments, in this order, hold just the records from 1 up to the first one that the history has.
    pub fn follows(&self, segments: &[Segment<N>]) -> bool
        ensures { MatchBool result
            (Counted 1 (pieces_entries segments.now) × (length (pieces_entries segments.now) ≡ length self.now.before))
            (Counted 1 (pieces_entries segments.now) → length (pieces_entries segments.now) ≡ length self.now.before → ⊥) }
    {
        are_in_order(segments, self.cut())
    }

    /// Whether every seat of the node was handed in. Either way each record that those were told was cut, or is the history's.
    pub fn is_complete(&self) -> bool
        ensures answer { result ≡ self.now.complete }
        ensures stands { StandsInStory self.now }
        ensures each { self.now.complete ≡ true → IsPermutation self.now.told (self.now.before ++ last_entries self.now) }
    {
        self.complete
    }

    // rule: cuts
    /// The end of the history, by these segments: `Gap` where they, in this order, don't begin with record 1 and join
    /// without a gap up to the first record that the history has. Either way what was cut before each of them is what the node cut
    /// first.
    pub fn audit(self, segments: Vec<Segment<N>>) -> Result<(), Refusal>
        ensures shares { All (Contains self.before) (pieces_entries segments.items) }
        ensures bases { BeginAsCut self segments.items }
        ensures stands { StandsInStory self }
        ensures each { self.complete ≡ true → length (pieces_entries segments.items) ≡ length self.before → IsPermutation self.told (pieces_entries segments.items ++ last_entries self) }
        ensures in_order { MatchResult result (λ _. pieces_entries segments.items ≡ self.before) (λ e. (e ≡ Gap) × (pieces_entries segments.items ≢ self.before)) }
    {
        let History {
            base,
            records,
            cut,
            complete: _,
            tokens,
            mut token,
        } = self;
        drop(base);
        drop(records);
        let whole = are_in_order(segments.as_slice(), cut);
        share(&tokens, &mut token, segments);
        tokens.look(&mut token);
        if whole { Ok(()) } else { Err(Refusal::Gap) }
    }
}

// rule: cuts
// Whether segments hold just the records from 1 up to this number, in order.
fn are_in_order<N: NodeName>(segments: &[Segment<N>], last: u64) -> bool
    ensures { MatchBool result (Counted 1 (pieces_entries segments.now) × (length (pieces_entries segments.now) ≡ last)) (Counted 1 (pieces_entries segments.now) → length (pieces_entries segments.now) ≡ last → ⊥) }
{
    let mut left = last;
    for segment in segments {
        let Some(fewer) = left_after(last, left, segment.first(), segment.records().len() as u64)
        else {
            return false;
        };
        left = fewer;
    }
    left == 0
}

// rule: cuts
// How many records are left to come after a segment of so many, if it has no more of them and begins with the next.
fn left_after(last: u64, left: u64, first: u64, records: u64) -> Option<u64>
    requires { left ≤ last }
    ensures next { IfSome result (λ n. (n + records ≡ left) × ((records ≡ 0) ⊎ (first + left ≡ last + 1))) }
    ensures none { IfNone result ((left < records) ⊎ ((records ≢ 0) × (first + left ≢ last + 1))) }
{
    if records > left || (records != 0 && (first == 0 || first - 1 != last - left)) {
        return None;
    }
    Some(left - records)
}

// Puts the tokens of segments into a token.
fn share<N: NodeName>(
    tokens: &Tokens<JournalLine, N>,
    token: &mut Token<JournalLine, N>,
    segments: Vec<Segment<N>>,
)
    ensures { token.new ≡ with_shares piece_before piece_entries token.old segments.items }
{
    for segment in segments {
        let Segment {
            base,
            first: _,
            records,
            token: lent,
        } = segment;
        drop(base);
        drop(records);
        tokens.give(token, lent);
    }
}
