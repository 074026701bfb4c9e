// The numbered refusals of the library.
ghost use Rattle.std.specs.Prelude.{◌≡◌};

use std::alloc::{AllocError, AllocFailed};
use thiserror::Error;

/// Why a call was refused. It prints as its number and its name, as `4 BadResource`.
#[derive(Clone, Copy, Debug, PartialEq, Eq, Hash, Error)]
pub enum Refusal {
    /// The bytes are no JSON text, or nest more than 127 deep.
    #[error("1 NotJson")]
    NotJson,
    /// A resource nests more than 100 deep.
    #[error("2 TooDeep")]
    TooDeep,
    /// A resource has a number that is no 64-bit integer.
    #[error("3 NotWhole")]
    NotWhole,
    /// It is no object of the type, or its name is no text.
    #[error("4 BadResource")]
    BadResource,
    /// The name is empty, longer than 1,024 bytes, or `*`.
    #[error("5 BadName")]
    BadName,
    /// The text is longer than 1,048,576 bytes.
    #[error("6 TooLong")]
    TooLong,
    /// The JSON spells no message of the kind that is read.
    #[error("7 BadMessage")]
    BadMessage,
    /// An allocation was refused.
    #[error("8 OutOfMemory")]
    OutOfMemory,
    /// There is no live resource of the name.
    #[error("9 NotFound")]
    NotFound,
    /// A counter has come to its greatest value.
    #[error("10 CounterSpent")]
    CounterSpent,
    /// The text is no version.
    #[error("11 BadStamp")]
    BadStamp,
    /// There is no open stream of the number, or the client has none that it can use.
    #[error("12 NoStream")]
    NoStream,
    /// The message is of the other variant than its stream.
    #[error("13 WrongVariant")]
    WrongVariant,
    /// A stream has given out its greatest nonce.
    #[error("14 NonceSpent")]
    NonceSpent,
    /// A frame says that nothing follows its length.
    #[error("15 EmptyFrame")]
    EmptyFrame,
    /// A frame is longer than 16,777,216 bytes.
    #[error("16 FrameTooLong")]
    FrameTooLong,
    /// A frame is of no kind that there is.
    #[error("17 UnknownKind")]
    UnknownKind,
    /// The input ends within a frame.
    #[error("18 Truncated")]
    Truncated,
    /// A reader or a writer failed.
    #[error("19 Device")]
    Device,
    /// A journal holds as many records as it may.
    #[error("20 JournalFull")]
    JournalFull,
    /// A line of a script is none.
    #[error("21 BadScript")]
    BadScript,
    /// A line of a trace is none.
    #[error("22 BadTrace")]
    BadTrace,
    /// The segments of a journal leave records out.
    #[error("23 Gap")]
    Gap,
    /// A list of groups is none: there are more than 64, or one is empty or longer than 1,024 bytes.
    #[error("24 BadGroup")]
    BadGroup,
}

impl Refusal {
    ghost use Rattle.xds_resource.specs.Refusals.{number_of, name_of};

    /// The number, from 1.
    pub fn number(self) -> u8
        ensures { result ≡ number_of self }
    {
        match self {
            Refusal::NotJson => 1,
            Refusal::TooDeep => 2,
            Refusal::NotWhole => 3,
            Refusal::BadResource => 4,
            Refusal::BadName => 5,
            Refusal::TooLong => 6,
            Refusal::BadMessage => 7,
            Refusal::OutOfMemory => 8,
            Refusal::NotFound => 9,
            Refusal::CounterSpent => 10,
            Refusal::BadStamp => 11,
            Refusal::NoStream => 12,
            Refusal::WrongVariant => 13,
            Refusal::NonceSpent => 14,
            Refusal::EmptyFrame => 15,
            Refusal::FrameTooLong => 16,
            Refusal::UnknownKind => 17,
            Refusal::Truncated => 18,
            Refusal::Device => 19,
            Refusal::JournalFull => 20,
            Refusal::BadScript => 21,
            Refusal::BadTrace => 22,
            Refusal::Gap => 23,
            Refusal::BadGroup => 24,
        }
    }

    /// The name, as programs print it.
    pub fn name(self) -> &'static str
        ensures { result.now ≡ name_of self }
    {
        match self {
            Refusal::NotJson => "NotJson",
            Refusal::TooDeep => "TooDeep",
            Refusal::NotWhole => "NotWhole",
            Refusal::BadResource => "BadResource",
            Refusal::BadName => "BadName",
            Refusal::TooLong => "TooLong",
            Refusal::BadMessage => "BadMessage",
            Refusal::OutOfMemory => "OutOfMemory",
            Refusal::NotFound => "NotFound",
            Refusal::CounterSpent => "CounterSpent",
            Refusal::BadStamp => "BadStamp",
            Refusal::NoStream => "NoStream",
            Refusal::WrongVariant => "WrongVariant",
            Refusal::NonceSpent => "NonceSpent",
            Refusal::EmptyFrame => "EmptyFrame",
            Refusal::FrameTooLong => "FrameTooLong",
            Refusal::UnknownKind => "UnknownKind",
            Refusal::Truncated => "Truncated",
            Refusal::Device => "Device",
            Refusal::JournalFull => "JournalFull",
            Refusal::BadScript => "BadScript",
            Refusal::BadTrace => "BadTrace",
            Refusal::Gap => "Gap",
            Refusal::BadGroup => "BadGroup",
        }
    }
}

impl From<AllocError> for Refusal {
    ghost use Rattle.std.specs.Prelude.{◌≡◌};
    ghost use Rattle.xds_resource.specs.declared.refusal.Refusal.TheVariants.{OutOfMemory};

    ghost from_gives = { λ _ e. e ≡ OutOfMemory };

    fn from(_refused: AllocError) -> Refusal {
        Refusal::OutOfMemory
    }
}

impl<T: Drop> From<AllocFailed<T>> for Refusal {
    ghost use Rattle.std.specs.Prelude.{◌≡◌};
    ghost use Rattle.xds_resource.specs.declared.refusal.Refusal.TheVariants.{OutOfMemory};

    ghost from_gives = { λ _ e. e ≡ OutOfMemory };

    fn from(_refused: AllocFailed<T>) -> Refusal {
        Refusal::OutOfMemory
    }
}
