// The words of a line that are left to read.
ghost use Rattle.std.specs.Prelude.{◌≡◌};
ghost use Rattle.std.specs.Option.{option_map};
ghost use Rattle.xds_script.specs.Words.{words, is_empty, split_first, only, two, text_of};

use std::marker::Model;

/// Words that one space separates, each two of them; perhaps none.
#[derive(Drop)]
pub(crate) struct Words<'a> {
    rest: Option<&'a str>,
}

impl<'a> Model for Words<'a> {
    ghost use Rattle.std.specs.Prelude.{List};
    ghost use Rattle.std.specs.Option.{option_map};
    ghost use Rattle.xds_script.specs.Words.{Text, words_in};

    ghost Value = { List Text };

    ghost view = { λ w. words_in (option_map (λ s. s.now) w.rest) };
}

impl<'a> Words<'a> {
    /// The words of a line.
    pub(crate) fn of(line: &'a str) -> Words<'a>
        ensures { result ≡ words line.now }
    {
        Words { rest: Some(line) }
    }

    pub(crate) fn is_empty(&self) -> bool
        ensures { result ≡ is_empty self.now }
    {
        self.rest.is_none()
    }

    /// The first word, and the words behind it.
    pub(crate) fn split_first(self) -> Option<(&'a str, Words<'a>)>
        ensures { option_map (λ p. (p.0.now, p.1)) result ≡ split_first self.entry }
    {
        let line = self.rest?;
        match line.split_once(' ') {
            Some((word, rest)) => Some((word, Words { rest: Some(rest) })),
            None => Some((line, Words { rest: None })),
        }
    }

    /// The word, where it stands alone.
    pub(crate) fn only(self) -> Option<&'a str>
        ensures { option_map (λ s. s.now) result ≡ only self.entry }
    {
        let (word, rest) = self.split_first()?;
        match rest.split_first() {
            Some(_) => None,
            None => Some(word),
        }
    }

    /// The two words, where no others stand there.
    pub(crate) fn two(self) -> Option<(&'a str, &'a str)>
        ensures { option_map (λ p. (p.0.now, p.1.now)) result ≡ two self.entry }
    {
        let (first, rest) = self.split_first()?;
        let second = rest.only()?;
        Some((first, second))
    }
    /// The text that the words are of, spaces and all; none where there is no word.
    pub(crate) fn text(self) -> Option<&'a str>
        ensures { option_map (λ s. s.now) result ≡ text_of self.entry }
    {
        self.rest
    }
}
