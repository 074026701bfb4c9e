// The lines of an input.
ghost use Rattle.std.specs.Prelude.{◌≡◌, ◌<◌, ◌+◌, [], ◌∷◌, length, IfSome, IfNone, List, ℕ};
ghost use Rattle.xds_script.specs.Lines.{feed, pieces, without_last_feed};

use memchr::memchr;

/// The bytes without a line feed at their end.
pub fn without_last_feed(bytes: &[u8]) -> &[u8]
    ensures { result.now ≡ without_last_feed bytes.now }
{
    match bytes.last() {
        Some(b'\n') => &bytes[..bytes.len() - 1],
        _ => bytes,
    }
}

/// The first line and what follows its line feed, or none where there is no line feed.
pub fn split_line(bytes: &[u8]) -> Option<(&[u8], &[u8])>
    ensures split { IfSome result (λ p. pieces feed bytes.now ≡ p.0.now ∷ pieces feed p.1.now) }
    ensures last { IfNone result (pieces feed bytes.now ≡ bytes.now ∷ []) }
    ensures shorter { IfSome result (λ p. length p.1.now < length bytes.now) }
{
    let Some(i) = memchr(b'\n', bytes) else {
        return None;
    };
    Some((&bytes[..i], &bytes[i + 1..]))
}
