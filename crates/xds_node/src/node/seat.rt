// The right to call a node, with what was told for it.
ghost use Rattle.std.specs.Prelude.{◌≡◌, [], ◌∷◌, ◌++◌, All, Contains};
ghost use Rattle.xds_core.specs.Seen.{event_of};
ghost use Rattle.xds_node.specs.Holdings.{keeper, seat_holding, recorded, with_seats, IsAlone};
ghost use Rattle.xds_node.specs.Told.{no_calls, also_told, also_refused};

use crate::node::line::JournalLine;
use crate::node::rule::NodeName;
use crate::node::token::{Token, Tokens};
use std::marker::Model;
use xds_core::Event;
use xds_resource::Refusal;

/// The right to call a node. It has no bytes. Contracts see all its calls: each record that they were told, with its number, and
/// each event that left no record, with its refusal.
#[derive(Drop)]
pub struct Seat<N: NodeName> {
    token: Token<JournalLine, N>,
}

impl<N: NodeName> Model for Seat<N> {
    ghost use Rattle.std.specs.Prelude.{◌≡◌};
    ghost use Rattle.std.specs.Coded.{codes};
    ghost use Rattle.xds_json.specs.Versions.{version_map_code};
    ghost use Rattle.xds_node.specs.Holdings.{seat_holding};
    ghost use Rattle.xds_node.specs.Told.{Calls};

    ghost Value = { Calls };

    ghost coded = { Prim.hlevel (codes, version_map_code) };

    ghost view = { λ s. record { told = s.token.told; refused = s.token.refused } };

    ghost invariant = { λ s. s.token ≡ seat_holding s.token.told s.token.refused };
}

/// An event that left no record: the journal is full (`JournalFull`), or there was no memory (`OutOfMemory`). It can be
/// tried again.
#[derive(Drop)]
pub struct Unrecorded {
    pub refusal: Refusal,
    pub event: Event,
}

impl<N: NodeName> Seat<N> {
    /// A new seat, by its token.
    pub fn of(token: Token<JournalLine, N>) -> Seat<N>
        requires { token ≡ seat_holding [] [] }
        ensures { result ≡ no_calls }
    {
        Seat { token }
    }

    // rule: one-seat
    /// Tells it a record that the keeper adds to its journal. All that it was told before is recorded.
    pub fn tell(
        &mut self,
        tokens: &Tokens<JournalLine, N>,
        token: &mut Token<JournalLine, N>,
        number: u64,
        line: &JournalLine,
    )
        requires { IsAlone token.old }
        ensures kept { token.new ≡ keeper token.old.made token.old.cut (token.old.journal ++ (number, line.now) ∷ []) }
        ensures told { self.new ≡ also_told (number, line.now) self.old }
        ensures stands { All (Contains (recorded token.old)) self.old.told }
    {
        tokens.tell(token, &mut self.token, number, line);
    }

    /// Notes that an event left no record, and gives it back.
    pub fn refuse(
        &mut self,
        tokens: &Tokens<JournalLine, N>,
        refusal: Refusal,
        event: Event,
    ) -> Event
        ensures noted { self.new ≡ also_refused (event_of event) refusal self.old }
        ensures back { result ≡ event }
    {
        JournalLine::note(tokens, &mut self.token, event, refusal)
    }
}

// rule: one-seat
/// Puts seats into a token.
pub fn gather<N: NodeName>(
    tokens: &Tokens<JournalLine, N>,
    token: &mut Token<JournalLine, N>,
    seats: Vec<Seat<N>>,
)
    ensures { token.new ≡ with_seats (λ s. s.told) (λ s. s.refused) token.old seats.items }
{
    for seat in seats {
        let Seat { token: lent } = seat;
        tokens.give(token, lent);
    }
}
