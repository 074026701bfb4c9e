// What answers posts over HTTP.
use std::alloc::Global;
use std::sync::Wait;
use xds_polls::HttpReply;
use xds_resource::Refusal;

/// What answers posts, shared by all connections.
pub trait Replies {
    ghost use Rattle.std.specs.Prelude.{ℕ, List};
    ghost use Rattle.xds_polls.specs.Polls as polls;

    /// The right to ask it. One is made for each post, and ends with it.
    type Seat: Drop;

    // The reply to a post at a path with a body, between the seat before and after: (before, after, path, body, reply).
    ghost replies: { Self.Seat → Self.Seat → List ℕ → List ℕ → polls.HttpReply → Type 0 };

    /// The reply to a post of this body at this path, by a seat; 503 without a body where none could be made. It may wait for a
    /// lock.
    fn reply<R: Wait>(
        &self,
        rt: &R,
        alloc: Global,
        seat: &mut Self::Seat,
        path: &str,
        body: &[u8],
    ) -> HttpReply
        ensures { replies seat.old seat.new path.now body.now result };
}

/// Whoever replies, and makes a seat for each post. Who has `Replies` alone can't make one, and so asks by the seat that it is lent.
pub trait Seats: Replies {
    ghost use Rattle.std.specs.Prelude.{IfOk};

    // What a seat is that was made for a post.
    ghost fresh: { Self.Seat → Type 0 };

    /// A seat for a post. It may wait for a lock.
    fn seat<R: Wait>(&self, rt: &R) -> Result<Self::Seat, Refusal>
        ensures { IfOk result fresh };
}
