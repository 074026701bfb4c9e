// The words of a line.
ghost use Rattle.std.specs.Prelude.{◌≡◌, ℕ, List, Some, IfSome, IfNone};
ghost use Rattle.std.specs.Option.{option_map};
ghost use Rattle.xds_check.specs.Words.{cut, word_of, verb_of, IsStreamText};

use xds_resource::decimal_number;

/// The greatest number of a stream.
pub const MAX_STREAM: u64 = 9_223_372_036_854_775_807;

/// The first word of a line, which says of what form it is.
#[derive(Clone, Copy, Debug, PartialEq, Eq)]
pub enum Verb {
    Write,
    Open,
    Close,
    Request,
    Response,
    Idle,
}

impl Verb {
    /// The verb that is this word, if there is one.
    pub fn from_word(word: &str) -> Option<Verb>
        ensures { result ≡ verb_of word.now }
    {
        match word {
            "write" => Some(Verb::Write),
            "open" => Some(Verb::Open),
            "close" => Some(Verb::Close),
            "request" => Some(Verb::Request),
            "response" => Some(Verb::Response),
            "idle" => Some(Verb::Idle),
            _ => None,
        }
    }

    pub fn word(self) -> &'static str
        ensures { result.now ≡ word_of self }
    {
        match self {
            Verb::Write => "write",
            Verb::Open => "open",
            Verb::Close => "close",
            Verb::Request => "request",
            Verb::Response => "response",
            Verb::Idle => "idle",
        }
    }
}

/// The text before the first space and the text behind it, where there is one.
pub(crate) fn cut(text: &str) -> Option<(&str, &str)>
    ensures { option_map (λ p. (p.0.now, p.1.now)) result ≡ cut text.now }
{
    text.split_once(' ')
}

/// The number of a stream, whose shortest decimal the word is.
pub(crate) fn stream_number(word: &str) -> Option<u64>
    ensures found { IfSome result (λ s. IsStreamText s word.now) }
    ensures all { (s : ℕ) → IsStreamText s word.now → result ≡ Some s }
{
    let number = decimal_number(word)?;
    if number == 0 || number > MAX_STREAM {
        return None;
    }
    Some(number)
}

/// The number of a stream before the first space, and the text behind it.
pub(crate) fn stream_and_rest(text: &str) -> Option<(u64, &str)>
    ensures found { IfSome result (λ p. (word : List ℕ) × (cut text.now ≡ Some (word, p.1.now)) × IsStreamText p.0 word) }
    ensures all { (s : ℕ) (word rest : List ℕ) → cut text.now ≡ Some (word, rest) → IsStreamText s word → IfNone result ⊥ }
{
    let (word, rest) = cut(text)?;
    Some((stream_number(word)?, rest))
}
