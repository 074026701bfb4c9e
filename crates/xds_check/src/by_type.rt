// The lines of one type among those of a trace.
ghost use Rattle.std.specs.Prelude.{◌≡◌};
ghost use Rattle.std.specs.Option.{option_map};
ghost use Rattle.xds_resource.specs.Types.{is_same_type};
ghost use Rattle.xds_check.specs.Writes.{write_of};

use xds_resource::{
    AnyWrite, Cluster, Endpoint, Listener, ResourceType, Route, Secret, TypeName, Write,
};

/// Whether two types are the same.
pub(crate) fn is_same(kind: TypeName, other: TypeName) -> bool
    ensures { result ≡ is_same_type kind other }
{
    kind == other
}

/// A type of the table as a type parameter, whose writes are told from those of other types.
pub trait ByType: ResourceType {
    ghost use Rattle.std.specs.Prelude.{◌≡◌};
    ghost use Rattle.std.specs.Option.{option_map};
    ghost use Rattle.xds_check.specs.Writes.{write_of};

    /// The write, if it is one of this type.
    fn write_of(write: &AnyWrite) -> Option<&Write<Self>>
        ensures { option_map (λ w. w.now) result ≡ write_of Self.TYPE write.now };
}

impl ByType for Cluster {
    fn write_of(write: &AnyWrite) -> Option<&Write<Cluster>> {
        match write {
            AnyWrite::Cluster(write) => Some(write),
            _ => None,
        }
    }
}

impl ByType for Endpoint {
    fn write_of(write: &AnyWrite) -> Option<&Write<Endpoint>> {
        match write {
            AnyWrite::Endpoint(write) => Some(write),
            _ => None,
        }
    }
}

impl ByType for Listener {
    fn write_of(write: &AnyWrite) -> Option<&Write<Listener>> {
        match write {
            AnyWrite::Listener(write) => Some(write),
            _ => None,
        }
    }
}

impl ByType for Route {
    fn write_of(write: &AnyWrite) -> Option<&Write<Route>> {
        match write {
            AnyWrite::Route(write) => Some(write),
            _ => None,
        }
    }
}

impl ByType for Secret {
    fn write_of(write: &AnyWrite) -> Option<&Write<Secret>> {
        match write {
            AnyWrite::Secret(write) => Some(write),
            _ => None,
        }
    }
}
