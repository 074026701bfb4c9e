// Readers and writers that may be pending, and whose bytes may be known, as those of std's `Read` and `Write`.

use tokio::io::{AsyncRead, AsyncWrite};
use tokio::net::{OwnedReadHalf, OwnedWriteHalf};

/// A reader that may be pending, and the bytes that it has left, where they are known.
pub trait KnownRead: AsyncRead {
    ghost use Rattle.std.specs.Prelude.{ℕ, List, Option};
    ghost use Rattle.std.specs.Io.KnownBytes.{Consumes, IsAtEnd};

    ghost remaining: { Self → Option (List ℕ) };

    // What is read is consumed.
    ghost consumes: { (a : Self) (xs : List ℕ) (b : Self) → Self.reads a xs b → Consumes (remaining a) (remaining b) xs };

    // At the end of the input none is left.
    ghost ends: { (a : Self) → Self.is_at_end a → IsAtEnd (remaining a) };
}

/// A writer that may be pending, and the bytes that it holds, where they are known.
pub trait KnownWrite: AsyncWrite {
    ghost use Rattle.std.specs.Prelude.{ℕ, List, Option};
    ghost use Rattle.std.specs.Io.KnownBytes.{Appends};

    ghost contents: { Self → Option (List ℕ) };

    // What is written is appended.
    ghost appends: { (a : Self) (xs : List ℕ) (b : Self) → Self.writes a xs b → Appends (contents a) (contents b) xs };
}

impl KnownRead for OwnedReadHalf {
    ghost use Rattle.std.specs.Prelude.{None};

    ghost remaining = { λ _. None };

    ghost consumes = { λ _ _ _ _. tt };

    ghost ends = { λ _ _. tt };
}

impl KnownWrite for OwnedWriteHalf {
    ghost use Rattle.std.specs.Prelude.{None};

    ghost contents = { λ _. None };

    ghost appends = { λ _ _ _ _. tt };
}
