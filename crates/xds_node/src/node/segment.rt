// A piece of a node's records that was cut.
ghost use Rattle.std.specs.Prelude.{◌≡◌};
ghost use Rattle.xds_core.specs.Legal.{IsLegal};
ghost use Rattle.xds_node.specs.Pieces.{GoesOn};

use crate::node::line::JournalLine;
use crate::node::rule::NodeName;
use crate::node::token::Token;
use std::marker::Model;
use xds_core::Core;

/// Records that a node handed out, and the replica before the first of them. Contracts see also all that the node had handed out
/// before; those records make of a replica at which nothing happened this one.
#[derive(Drop)]
pub struct Segment<N: NodeName> {
    pub(crate) base: Core,
    pub(crate) first: u64,
    pub(crate) records: Vec<JournalLine>,
    pub(crate) token: Token<JournalLine, N>,
}

impl<N: NodeName> Model for Segment<N> {
    ghost use Rattle.std.specs.Coded.{codes};
    ghost use Rattle.xds_json.specs.Versions.{version_map_code};
    ghost use Rattle.xds_core.specs.Steps.{core_code};
    ghost use Rattle.xds_node.specs.Holdings.{past_of};
    ghost use Rattle.xds_node.specs.Pieces.{Piece, IsPiece};

    ghost Value = { Piece };

    ghost coded = { Prim.hlevel (codes, version_map_code, core_code) };

    ghost view = { λ s. record { base = s.base; first = s.first; records = s.records.items; before = past_of s.token } };

    ghost invariant = { λ s. IsPiece N.replica s.base s.first s.records.items (past_of s.token) s.token };
}

impl<N: NodeName> Segment<N> {
    /// The replica before the first record. Each record's answer is what the replica answers there, and it is what all that was
    /// cut before makes of a replica of the node's number at which nothing happened.
    pub fn base(&self) -> &Core
        ensures base { result.now ≡ self.now.base }
        ensures goes_on { GoesOn N.replica self.now.base self.now.first self.now.before }
        ensures legal { IsLegal self.now.base self.now.records }
    {
        &self.base
    }

    // rule: cuts
    /// The number of the first record. The node's first record has the number 1.
    pub fn first(&self) -> u64
        ensures { result ≡ self.now.first }
    {
        self.first
    }

    /// The records, in the order of their numbers.
    pub fn records(&self) -> &[JournalLine]
        ensures { result.now ≡ self.now.records }
    {
        self.records.as_slice()
    }
}
