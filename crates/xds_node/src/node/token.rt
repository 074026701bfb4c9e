// The tokens of one node.
ghost use Rattle.std.specs.Prelude.{◌≡◌, ◌+◌, ◌<◌, [], ◌∷◌, ◌++◌, All, Contains};
ghost use Rattle.xds_node.specs.Holdings.{keeper, seat_holding, share_holding, kept_part, lent_part, both, with_entry, with_refused, with_seat, after_cut, recorded, IsAlone};
ghost use Rattle.xds_node.specs.Tally.{Known};

use crate::node::holding::TokenHolding;
use crate::node::rule::{Append, Cut, Give, Lend, Look, MissedCall, NodeName, Sit, Tally};
use atomic_table::{Seat, Table};
use std::alloc::{AllocError, Global};
use std::marker::{Model, PhantomData};

/// New tokens, which name no node yet. Contracts see the name that they have.
#[derive(Drop)]
pub struct Opened<E> {
    table: Table<E, TokenHolding<E>, (), Tally, Global>,
    seat: Seat<E, TokenHolding<E>>,
}

impl<E> Model for Opened<E> {
    ghost use Rattle.std.specs.Prelude.{◌≡◌, []};
    ghost use Rattle.xds_node.specs.Names.{NodeId, node_id_code};
    ghost use Rattle.xds_node.specs.Holdings.{keeper};

    ghost Value = { NodeId };

    ghost coded = { node_id_code };

    ghost view = { λ o. o.table.shared.table_id };

    ghost invariant = { λ o. (o.table.shared.table_id.words ≡ 1) × (o.seat.table_id ≡ o.table.shared.table_id) × (o.seat.me ≡ (keeper 0 [] [], [])) };
}

/// The place that all tokens of a node belong to. All threads share it; no call of it allocates or waits.
#[derive(Drop)]
pub struct Tokens<E, N: NodeName> {
    table: Table<E, TokenHolding<E>, (), Tally, Global>,
    of: PhantomData<N>,
    ghost wide: { table.shared.table_id.words ≡ 1 },
    ghost named: { table.shared.table_id ≡ N.id },
}

/// A token of a node. It has no bytes; contracts see it as what it stands for.
#[derive(Drop)]
pub struct Token<E, N: NodeName> {
    seat: Seat<E, TokenHolding<E>>,
    of: PhantomData<N>,
}

impl<E, N: NodeName> Model for Token<E, N> {
    ghost use Rattle.std.specs.Prelude.{◌≡◌, []};
    ghost use Rattle.xds_node.specs.declared.node.holding.TokenHolding.{TokenHolding};

    ghost Value = { TokenHolding E };

    ghost view = { λ t. t.seat.me.0 };

    ghost invariant = { λ t. (t.seat.table_id ≡ N.id) × (t.seat.me.1 ≡ []) };
}

impl<E> Opened<E> {
    /// New tokens. `AllocError` where there is no memory.
    pub fn new(alloc: Global) -> Result<Opened<E>, AllocError> {
        let (table, seat) = Table::<E, TokenHolding<E>, (), Tally, Global>::of_words(
            alloc,
            &[0],
            &(),
        )?;
        Ok(Opened { table, seat })
    }

    /// The tokens under the name that they have, and the keeper, which has seen nothing.
    pub fn named<N: NodeName>(self) -> (Tokens<E, N>, Token<E, N>)
        requires { self ≡ N.id }
        ensures { result.1 ≡ keeper 0 [] [] }
    {
        let Opened { table, seat } = self;
        (
            Tokens {
                table,
                of: PhantomData,
            },
            Token {
                seat,
                of: PhantomData,
            },
        )
    }
}

impl<E, N: NodeName> Tokens<E, N> {
    /// Takes out of a token all but what a keeper knows, and what a seat was refused.
    pub fn lend(&self, token: &mut Token<E, N>) -> Token<E, N>
        ensures left { token.new ≡ kept_part token.old }
        ensures lent { result ≡ lent_part token.old }
    {
        Token {
            seat: self.table.shared.split_seat::<Lend>(&mut token.seat),
            of: PhantomData,
        }
    }

    // rule: one-seat
    /// Puts a token into another. Only the keeper may not be given away.
    pub fn give(&self, token: &mut Token<E, N>, other: Token<E, N>)
        requires { other.keepers ≡ 0 }
        ensures { token.new ≡ both token.old other }
    {
        let Token { seat, of: _ } = other;
        self.table.shared.join_seat::<Give>(&mut token.seat, seat);
    }

    // rule: one-seat
    /// Adds an entry to the journal, and to what the keeper's seats were told, in one step.
    pub fn append(&self, token: &mut Token<E, N>, number: u64, entry: &E)
        requires { (token.old.keepers ≡ 1) × (0 < token.old.seats) }
        ensures { token.new ≡ with_entry number entry.now token.old }
    {
        let _found = self
            .table
            .shared
            .compare_exchange_with::<Append>(&mut token.seat, 0, number, number, entry);
    }

    /// Notes at a token that a call left no record.
    pub fn note(&self, token: &mut Token<E, N>, refused: &E)
        ensures { token.new ≡ with_refused refused.now token.old }
    {
        let _found = self
            .table
            .shared
            .compare_exchange_with::<MissedCall>(&mut token.seat, 0, 0, 0, refused);
    }

    // rule: one-seat
    /// Makes one more seat, which was told nothing. The keeper has it.
    pub fn sit(&self, token: &mut Token<E, N>)
        requires { token.old.keepers ≡ 1 }
        ensures { token.new ≡ with_seat token.old }
    {
        let _found = self.table.shared.load::<Sit>(&mut token.seat, 0);
    }

    // rule: cuts
    /// Cuts the journal. The keeper has the share of it, and what was cut before.
    pub fn cut(&self, token: &mut Token<E, N>)
        requires { token.old.keepers ≡ 1 }
        ensures { token.new ≡ after_cut token.old }
    {
        let _found = self.table.shared.load::<Cut>(&mut token.seat, 0);
    }

    /// Tells what the keeper knows of all tokens of the node.
    pub fn look(&self, token: &mut Token<E, N>)
        requires { token.old.keepers ≡ 1 }
        ensures same { token.new ≡ token.old }
        ensures known { Known token.old }
    {
        let _found = self.table.shared.load::<Look>(&mut token.seat, 0);
    }

    // rule: one-seat
    /// Makes one more seat, which was told nothing, and hands it out.
    pub fn seat(&self, token: &mut Token<E, N>) -> Token<E, N>
        requires { IsAlone token.old }
        ensures kept { token.new ≡ keeper (token.old.made + 1) token.old.cut token.old.journal }
        ensures seat { result ≡ seat_holding [] [] }
    {
        self.sit(token);
        self.lend(token)
    }

    // rule: one-seat
    /// Adds an entry to the keeper's journal, and tells it to a seat, in one step. All that the seat was told before is recorded.
    pub fn tell(&self, token: &mut Token<E, N>, seat: &mut Token<E, N>, number: u64, entry: &E)
        requires kept { IsAlone token.old }
        requires seat { seat.old ≡ seat_holding seat.old.told seat.old.refused }
        ensures kept { token.new ≡ keeper token.old.made token.old.cut (token.old.journal ++ (number, entry.now) ∷ []) }
        ensures told { seat.new ≡ seat_holding (seat.old.told ++ (number, entry.now) ∷ []) seat.old.refused }
        ensures stands { All (Contains (recorded token.old)) seat.old.told }
    {
        let lent = self.lend(seat);
        self.give(token, lent);
        self.look(token);
        self.append(token, number, entry);
        let back = self.lend(token);
        self.give(seat, back);
    }

    // rule: cuts
    /// Cuts the keeper's journal, and hands out the share of it, with what was cut before.
    pub fn share(&self, token: &mut Token<E, N>) -> Token<E, N>
        requires { IsAlone token.old }
        ensures kept { token.new ≡ keeper token.old.made (recorded token.old) [] }
        ensures share { result ≡ share_holding token.old.cut token.old.journal }
    {
        self.cut(token);
        self.lend(token)
    }
}
