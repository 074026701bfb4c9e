// Frames and their kinds.
ghost use Rattle.std.specs.Prelude.{◌≡◌, ◌↔◌, IsSome, IfSome};
ghost use Rattle.xds_frames.specs.Frames.{number_of, IsKind};

/// As many bytes as a length may count: those of the kind and the text.
pub const LONGEST: usize = 16_777_216;

/// What the text of a frame spells. As a byte it is its number, from 1.
#[derive(Clone, Copy, Debug, PartialEq, Eq)]
pub enum FrameKind {
    DiscoveryRequest,
    DiscoveryResponse,
    DeltaDiscoveryRequest,
    DeltaDiscoveryResponse,
    Batch,
}

impl FrameKind {
    /// The number, from 1 to 5.
    pub fn number(self) -> u8
        ensures { result ≡ number_of self }
    {
        match self {
            FrameKind::DiscoveryRequest => 1,
            FrameKind::DiscoveryResponse => 2,
            FrameKind::DeltaDiscoveryRequest => 3,
            FrameKind::DeltaDiscoveryResponse => 4,
            FrameKind::Batch => 5,
        }
    }

    /// The kind of this number, if there is one.
    pub fn from_number(number: u8) -> Option<FrameKind>
        ensures known { IsSome result ↔ IsKind number }
        ensures kind { IfSome result (λ kind. number_of kind ≡ number) }
    {
        match number {
            1 => Some(FrameKind::DiscoveryRequest),
            2 => Some(FrameKind::DiscoveryResponse),
            3 => Some(FrameKind::DeltaDiscoveryRequest),
            4 => Some(FrameKind::DeltaDiscoveryResponse),
            5 => Some(FrameKind::Batch),
            _ => None,
        }
    }
}

/// A frame: the kind of its message, and the text.
#[derive(Clone, Copy, Debug, PartialEq, Eq)]
pub struct Frame<'a> {
    pub kind: FrameKind,
    pub text: &'a [u8],
}
