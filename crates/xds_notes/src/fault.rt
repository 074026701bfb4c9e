// How a line of the input is refused.
use xds_causes::Cause;
use xds_resource::{Refusal, TypeName};

/// The whole response of a type, which has so many bytes, more than a frame may have.
#[derive(Clone, Copy, Debug, PartialEq, Eq)]
pub struct LongResponse {
    pub kind: TypeName,
    pub bytes: u64,
}

/// Why a line of the input, or the change that it says, is refused.
#[derive(Clone, Copy, Debug, PartialEq, Eq)]
pub struct Fault {
    pub refusal: Refusal,
    /// What is wrong of the line, where that is known.
    pub cause: Option<Cause>,
    /// The response that would be too long by it, where it is refused for that.
    pub long: Option<LongResponse>,
}

impl Fault {
    ghost use Rattle.std.specs.Prelude.{◌≡◌, None, Some};

    /// A refusal of which no more is known.
    pub fn of(refusal: Refusal) -> Fault
        ensures { result ≡ record { refusal = refusal; cause = None; long = None } }
    {
        Fault {
            refusal,
            cause: None,
            long: None,
        }
    }

    /// A line that is none of a script, for this cause.
    pub fn by(cause: Cause) -> Fault
        ensures { result ≡ record { refusal = Refusal.BadScript; cause = Some cause; long = None } }
    {
        Fault {
            refusal: Refusal::BadScript,
            cause: Some(cause),
            long: None,
        }
    }

    /// A put by which the whole response of its type would have so many bytes, more than a frame may have.
    pub fn by_length(kind: TypeName, bytes: u64) -> Fault
        ensures { result ≡ record { refusal = Refusal.FrameTooLong; cause = None; long = Some (record { kind = kind; bytes = bytes }) } }
    {
        Fault {
            refusal: Refusal::FrameTooLong,
            cause: None,
            long: Some(LongResponse { kind, bytes }),
        }
    }
}
