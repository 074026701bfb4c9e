// The two variants of the protocol, by name and as type parameters.
ghost use Rattle.std.specs.Prelude.{◌≡◌};

use xds_resource::TypeName;

/// A variant of the protocol.
#[derive(Clone, Copy, Debug, PartialEq, Eq)]
pub enum VariantName {
    /// A request lists all names, and a response of a complete type is the whole.
    StateOfTheWorld,
    /// A request and a response tell what differs.
    Delta,
}

impl VariantName {
    ghost use Rattle.xds_ledger.specs.Variants.{is_delta, is_whole, tells_removals};

    pub fn is_delta(self) -> bool
        ensures { result ≡ is_delta self }
    {
        match self {
            VariantName::StateOfTheWorld => false,
            VariantName::Delta => true,
        }
    }

    // rule: whole-response
    /// Whether each response of the type is the whole, so that what it lacks is gone.
    pub fn is_whole(self, kind: TypeName) -> bool
        ensures { result ≡ is_whole self kind }
    {
        !self.is_delta() && kind.is_complete()
    }

    // rule: owed
    /// Whether there is a way to tell a client of the type that a name is gone.
    pub fn tells_removals(self, kind: TypeName) -> bool
        ensures { result ≡ tells_removals self kind }
    {
        self.is_delta() || kind.is_complete()
    }
}

/// A variant as a type parameter.
pub trait Variant {
    ghost use Rattle.xds_ledger.specs.declared.variant.VariantName.{VariantName};

    ghost NAME: { VariantName };

    const NAME: VariantName;
}

/// State of the world (SotW).
#[derive(Clone, Copy, Debug)]
pub struct StateOfTheWorld;

/// Incremental (delta).
#[derive(Clone, Copy, Debug)]
pub struct Delta;

impl Variant for StateOfTheWorld {
    ghost use Rattle.xds_ledger.specs.declared.variant.VariantName.TheVariants.{StateOfTheWorld};

    ghost NAME = { StateOfTheWorld };

    const NAME: VariantName = VariantName::StateOfTheWorld;
}

impl Variant for Delta {
    ghost use Rattle.xds_ledger.specs.declared.variant.VariantName.TheVariants.{Delta};

    ghost NAME = { Delta };

    const NAME: VariantName = VariantName::Delta;
}
