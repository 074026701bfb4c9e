// Where the last line of some bytes begins.
ghost use Rattle.std.specs.Prelude.{◌≡◌, ◌++◌, ◌∷◌, [], List, ℕ, IfSome, IfNone};
ghost use Rattle.xds_check.specs.Texts.{IsOneLine};
ghost use Rattle.xds_program.specs.SoFar.{EndsLine, IsLastLine};

/// Some bytes before their last line, and the last line, whether a line feed ends it or not. It is empty where there are no bytes.
pub(crate) fn split_last(bytes: &[u8]) -> (&[u8], &[u8])
    ensures whole { bytes.now ≡ result.0.now ++ result.1.now }
    ensures front { EndsLine result.0.now }
    ensures last { IsLastLine result.1.now }
    ensures some { result.1.now ≡ [] → result.0.now ≡ [] }
{
    let mut rest = bytes;
    while let Some((_, following)) = cut_line(rest) {
        if following.is_empty() {
            return parted(bytes, rest);
        }
        rest = following;
    }
    parted(bytes, rest)
}

// The bytes before these last ones, and these.
fn parted<'a>(bytes: &'a [u8], last: &'a [u8]) -> (&'a [u8], &'a [u8])
    requires { (front : List ℕ) × (bytes.now ≡ front ++ last.now) }
    ensures front { (front : List ℕ) → bytes.now ≡ front ++ last.now → result.0.now ≡ front }
    ensures last { result.1.now ≡ last.now }
{
    (&bytes[..bytes.len() - last.len()], last)
}

// The bytes before the first line feed, and those behind it, where there is one.
fn cut_line(bytes: &[u8]) -> Option<(&[u8], &[u8])>
    ensures split { IfSome result (λ p. (bytes.now ≡ p.0.now ++ 10 ∷ p.1.now) × IsOneLine p.0.now) }
    ensures last { IfNone result (IsOneLine bytes.now) }
{
    for (i, b) in bytes.iter().enumerate() {
        if *b == b'\n' {
            return Some((&bytes[..i], &bytes[i + 1..]));
        }
    }
    None
}
