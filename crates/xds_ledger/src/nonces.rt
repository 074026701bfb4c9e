// The nonces of one stream.
ghost use Rattle.std.specs.Prelude.{◌≡◌, ◌≤◌, ◌+◌, ◌↔◌, IsTrue, IfOk, IfErr};
ghost use Rattle.xds_resource.specs.Stamps.{max_counter};
ghost use Rattle.xds_resource.specs.declared.refusal.Refusal.TheVariants.{NonceSpent};

use std::marker::Model;
use xds_resource::Refusal;
use xds_resource::stamp::MAX_COUNTER;

/// The numbers of the responses of a stream, from 1, over all types. Contracts see the last number that was drawn, 0
/// before the first.
#[derive(Clone, Copy, Debug)]
pub struct Nonces {
    last: u64,
}

impl Model for Nonces {
    ghost use Rattle.std.specs.Prelude.{ℕ, ◌≤◌};
    ghost use Rattle.xds_resource.specs.Stamps.{max_counter};

    ghost Value = { ℕ };

    ghost view = { λ n. n.last };

    ghost inverse = { λ n. record { last = n } };

    ghost invariant = { λ n. n.last ≤ max_counter };
}

impl Nonces {
    // rule: nonce-numbers
    /// The nonces of a stream that sent nothing.
    pub fn new() -> Nonces
        ensures { result ≡ 0 }
    {
        Nonces { last: 0 }
    }

    // rule: new-nonce, rule: nonce-numbers
    /// Draws the next number; after the greatest, 9,223,372,036,854,775,807, it is `NonceSpent`.
    pub fn next(&mut self) -> Result<u64, Refusal>
        ensures ok { IfOk result (λ n. (n ≡ self.old + 1) × (self.new ≡ self.old + 1)) }
        ensures bound { IfOk result (λ n. n ≤ max_counter) }
        ensures spent { IfErr result (λ e. (e ≡ NonceSpent) × (self.old ≡ max_counter) × (self.new ≡ self.old)) }
    {
        if self.last == MAX_COUNTER {
            return Err(Refusal::NonceSpent);
        }
        self.last += 1;
        Ok(self.last)
    }

    // rule: nonce-numbers
    /// The number that was drawn last, 0 before the first.
    pub fn last(&self) -> u64
        ensures { result ≡ self.now }
    {
        self.last
    }

    // rule: nonce-numbers
    /// Whether the greatest number was drawn.
    pub fn are_spent(&self) -> bool
        ensures { IsTrue result ↔ (self.now ≡ max_counter) }
    {
        self.last == MAX_COUNTER
    }
}
