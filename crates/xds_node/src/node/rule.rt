// The rule over all tokens of a node, and the steps that keep it.
use crate::node::holding::TokenHolding;
use atomic_table::{Join, Play, Split, TableRule};
use std::marker::Brand;

/// Names one node, and says the number of its replica. Each call of a program that makes a node picks both, so that a token of
/// another node doesn't compile, and no other replica goes by the number.
pub trait NodeName {
    ghost use Rattle.std.specs.Prelude.{ℕ};
    ghost use Rattle.xds_node.specs.Names.{NodeId};

    ghost id: { NodeId };

    ghost replica: { ℕ };
}

impl NodeName for Brand {
    ghost use Rattle.xds_node.specs.Names.{no_node, no_replica};

    ghost id = { no_node };

    ghost replica = { no_replica };
}

// The rule of the tokens: together the seats were told each record once, and the segments that were handed out hold each
// record that was cut once.
pub struct Tally;

impl<E> TableRule<E, TokenHolding<E>, ()> for Tally {
    ghost use Rattle.xds_node.specs.Holdings.{keeper};
    ghost use Rattle.xds_node.specs.Tally.{Rule};
    ghost use Rattle.std.specs.Prelude.{[]};

    ghost holds = { λ _. Rule };

    ghost first = { λ _. keeper 0 [] [] };
}

// The step that adds an entry to the journal and to what the seats were told.
pub struct Append;

impl<E> Play<E, TokenHolding<E>> for Append {
    ghost use Rattle.xds_node.specs.Tally.{Appends};

    ghost then = { Appends };
}

// The step that notes a call that left no record.
pub struct MissedCall;

impl<E> Play<E, TokenHolding<E>> for MissedCall {
    ghost use Rattle.xds_node.specs.Tally.{Notes};

    ghost then = { Notes };
}

// The step that makes one more seat.
pub struct Sit;

impl<E> Play<E, TokenHolding<E>> for Sit {
    ghost use Rattle.xds_node.specs.Tally.{Sits};

    ghost then = { Sits };
}

// The step that cuts the journal.
pub struct Cut;

impl<E> Play<E, TokenHolding<E>> for Cut {
    ghost use Rattle.xds_node.specs.Tally.{Cuts};

    ghost then = { Cuts };
}

// The step that looks.
pub struct Look;

impl<E> Play<E, TokenHolding<E>> for Look {
    ghost use Rattle.xds_node.specs.Tally.{Looks};

    ghost then = { Looks };
}

// What is lent is all but what a keeper knows, and what a seat was refused.
pub struct Lend;

impl<E> Split<TokenHolding<E>> for Lend {
    ghost use Rattle.xds_node.specs.Holdings.{kept_part, lent_part};

    ghost left = { kept_part };

    ghost right = { lent_part };
}

// What is given is added.
pub struct Give;

impl<E> Join<TokenHolding<E>> for Give {
    ghost use Rattle.xds_node.specs.Holdings.{both, nothing};

    ghost both = { both };

    ghost spent = { nothing };
}
