// What a client asks for.
ghost use Rattle.std.specs.Prelude.{◌≡◌, true, false};
ghost use Rattle.xds_client.specs.Subscribing.{request_kind, response_kind};

use xds_frames::FrameKind;
use xds_resource::TypeName;

/// In which of the protocol's two variants a client asks.
#[derive(Clone, Copy, Debug, PartialEq, Eq)]
pub enum StreamVariant {
    /// State of the world.
    Sotw,
    /// Incremental.
    Delta,
}

impl StreamVariant {
    // The kind of its requests' frames.
    pub(crate) fn request_kind(self) -> FrameKind
        ensures { result ≡ request_kind self }
    {
        match self {
            StreamVariant::Sotw => FrameKind::DiscoveryRequest,
            StreamVariant::Delta => FrameKind::DeltaDiscoveryRequest,
        }
    }

    // The kind of its responses' frames.
    pub(crate) fn response_kind(self) -> FrameKind
        ensures { result ≡ response_kind self }
    {
        match self {
            StreamVariant::Sotw => FrameKind::DiscoveryResponse,
            StreamVariant::Delta => FrameKind::DeltaDiscoveryResponse,
        }
    }

    // Whether frames of this kind are its responses.
    pub(crate) fn is_response(self, kind: FrameKind) -> bool
        ensures is { result ≡ true → kind ≡ response_kind self }
        ensures isnt { result ≡ false → ¬ (kind ≡ response_kind self) }
    {
        kind == self.response_kind()
    }
}

/// What a client asks for on one stream, and for how long.
#[derive(Clone, Copy, Debug)]
pub struct Subscription<'a> {
    pub variant: StreamVariant,
    /// The type of the resources.
    pub kind: TypeName,
    /// The cluster that the client says it belongs to, which may be empty.
    pub cluster: &'a str,
    /// The names of the resources. `*` of a complete type is all of them. Without a name nothing is asked for.
    pub names: &'a [String],
    /// After how many responses it ends.
    pub responses: u16,
}
