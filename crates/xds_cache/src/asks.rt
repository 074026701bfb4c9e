// What the two variants of a client on a stream differ in.
ghost use Rattle.std.specs.Prelude.{◌≡◌, IfOk, IfErr, OnErr};
ghost use Rattle.xds_resource.specs.declared.refusal.Refusal.TheVariants.{OutOfMemory};

use crate::accept::Accept;
use crate::shelf::Shelf;
use std::alloc::Global;
use xds_message::Node;
use xds_resource::{Refusal, TypeName};

/// The requests of a variant: which one opens a type on a stream, and which one answers a response.
pub trait Asks: Drop {
    ghost use Rattle.std.specs.Prelude.{ℕ, List, Option};
    ghost use Rattle.xds_resource.specs.declared.types.TypeName.{TypeName};
    ghost use Rattle.xds_message.specs.Messages.{Identity};
    ghost use Rattle.xds_cache.specs.Shelves.{Shelf};
    ghost use Rattle.xds_cache.specs.Faults.{Test};

    /// What a server answers.
    type Response;

    // The first request of a type on a stream, from one who says who it is or not, and from what it keeps of the type.
    ghost opening: { TypeName → Option Identity → Shelf → Self };

    // The type of a response, by its URL.
    ghost url: { Self.Response → List ℕ };

    // What a response leaves of what is kept of its type, with the request that answers it.
    ghost delivered: { Test → Self.Response → TypeName → Shelf → Shelf × Self };

    /// The first request of a type on a stream. Refused only by `OutOfMemory`.
    fn open(
        alloc: Global,
        kind: TypeName,
        node: Option<Node>,
        shelf: &Shelf,
    ) -> Result<Self, Refusal>
        ensures ok { IfOk result (λ q. q ≡ opening kind node shelf.now) }
        ensures err { IfErr result (λ e. e ≡ OutOfMemory) };

    /// The URL of a response's type.
    fn type_url(response: &Self::Response) -> &str
        ensures { result.now ≡ url response.now };

    /// Makes what is kept of a type what it is after a response, and answers the request that answers that. Refused
    /// only by `OutOfMemory`, and then it stays as it was.
    fn deliver<A: Accept>(
        alloc: Global,
        kind: TypeName,
        shelf: &mut Shelf,
        response: &Self::Response,
    ) -> Result<Self, Refusal>
        ensures ok { IfOk result (λ q. (shelf.new, q) ≡ delivered A.accepts response.now kind shelf.old) }
        ensures same { OnErr result (shelf.new ≡ shelf.old) }
        ensures err { IfErr result (λ e. e ≡ OutOfMemory) };
}
