// The resource types, by name and as type parameters.
ghost use Rattle.std.specs.Prelude.{◌≡◌};

// rule: type-order
/// The name of a resource type.
#[derive(Clone, Copy, Debug, PartialEq, Eq, PartialOrd, Ord, Hash)]
pub enum TypeName {
    Cluster,
    Endpoint,
    Listener,
    Route,
    Secret,
}

impl TypeName {
    ghost use Rattle.xds_resource.specs.Types.{row, type_of_url, type_of_word};

    /// Every type, in the order in which a server answers them.
    pub const ALL: [TypeName; 5] = [
        TypeName::Cluster,
        TypeName::Endpoint,
        TypeName::Listener,
        TypeName::Route,
        TypeName::Secret,
    ];

    /// The word that the programs use.
    pub fn word(self) -> &'static str
        ensures { result.now ≡ (row self).word }
    {
        match self {
            TypeName::Cluster => "cluster",
            TypeName::Endpoint => "endpoint",
            TypeName::Listener => "listener",
            TypeName::Route => "route",
            TypeName::Secret => "secret",
        }
    }

    /// The type URL of discovery messages, which is also the `@type` of a resource.
    pub fn url(self) -> &'static str
        ensures { result.now ≡ (row self).url }
    {
        match self {
            TypeName::Cluster => "type.googleapis.com/envoy.config.cluster.v3.Cluster",
            TypeName::Endpoint =>
                "type.googleapis.com/envoy.config.endpoint.v3.ClusterLoadAssignment",
            TypeName::Listener => "type.googleapis.com/envoy.config.listener.v3.Listener",
            TypeName::Route => "type.googleapis.com/envoy.config.route.v3.RouteConfiguration",
            TypeName::Secret =>
                "type.googleapis.com/envoy.extensions.transport_sockets.tls.v3.Secret",
        }
    }

    /// The type whose URL this is, if it is one of the table's.
    pub fn from_url(url: &str) -> Option<TypeName>
        ensures { result ≡ type_of_url url.now }
    {
        match url {
            "type.googleapis.com/envoy.config.cluster.v3.Cluster" => Some(TypeName::Cluster),
            "type.googleapis.com/envoy.config.endpoint.v3.ClusterLoadAssignment" => Some(
                TypeName::Endpoint,
            ),
            "type.googleapis.com/envoy.config.listener.v3.Listener" => Some(TypeName::Listener),
            "type.googleapis.com/envoy.config.route.v3.RouteConfiguration" => Some(TypeName::Route),
            "type.googleapis.com/envoy.extensions.transport_sockets.tls.v3.Secret" => Some(
                TypeName::Secret,
            ),
            _ => None,
        }
    }

    /// The type whose word this is, if there is one.
    pub fn from_word(word: &str) -> Option<TypeName>
        ensures { result ≡ type_of_word word.now }
    {
        match word {
            "cluster" => Some(TypeName::Cluster),
            "endpoint" => Some(TypeName::Endpoint),
            "listener" => Some(TypeName::Listener),
            "route" => Some(TypeName::Route),
            "secret" => Some(TypeName::Secret),
            _ => None,
        }
    }

    /// The field that names a resource of the type, in lowerCamelCase.
    pub fn name_field(self) -> &'static str
        ensures { result.now ≡ (row self).name_field }
    {
        match self {
            TypeName::Cluster | TypeName::Listener | TypeName::Route | TypeName::Secret => "name",
            TypeName::Endpoint => "clusterName",
        }
    }

    /// The same field as the proto file spells it.
    pub fn proto_name_field(self) -> &'static str
        ensures { result.now ≡ (row self).proto_name_field }
    {
        match self {
            TypeName::Cluster | TypeName::Listener | TypeName::Route | TypeName::Secret => "name",
            TypeName::Endpoint => "cluster_name",
        }
    }

    // rule: star-covers, rule: whole-response
    /// Whether a state-of-the-world response of the type is the whole: what it lacks is gone.
    pub fn is_complete(self) -> bool
        ensures { result ≡ (row self).is_complete }
    {
        match self {
            TypeName::Cluster | TypeName::Listener => true,
            TypeName::Endpoint | TypeName::Route | TypeName::Secret => false,
        }
    }

    /// The path of the REST variant.
    pub fn rest_path(self) -> &'static str
        ensures { result.now ≡ (row self).rest_path }
    {
        match self {
            TypeName::Cluster => "/v3/discovery:clusters",
            TypeName::Endpoint => "/v3/discovery:endpoints",
            TypeName::Listener => "/v3/discovery:listeners",
            TypeName::Route => "/v3/discovery:routes",
            TypeName::Secret => "/v3/discovery:secrets",
        }
    }
}

/// A resource type as a type parameter. All else that is known of the type is asked of its name.
pub trait ResourceType {
    ghost use Rattle.xds_resource.specs.declared.types.TypeName.{TypeName};

    ghost TYPE: { TypeName };

    const TYPE: TypeName;
}

/// Upstream clusters (CDS).
#[derive(Clone, Copy, Debug)]
pub struct Cluster;

/// The endpoints of a cluster (EDS).
#[derive(Clone, Copy, Debug)]
pub struct Endpoint;

/// Listeners (LDS).
#[derive(Clone, Copy, Debug)]
pub struct Listener;

/// Route configurations (RDS).
#[derive(Clone, Copy, Debug)]
pub struct Route;

/// TLS certificates, keys and what validates them (SDS).
#[derive(Clone, Copy, Debug)]
pub struct Secret;

impl ResourceType for Cluster {
    ghost use Rattle.xds_resource.specs.declared.types.TypeName.TheVariants.{Cluster};

    ghost TYPE = { Cluster };

    const TYPE: TypeName = TypeName::Cluster;
}

impl ResourceType for Endpoint {
    ghost use Rattle.xds_resource.specs.declared.types.TypeName.TheVariants.{Endpoint};

    ghost TYPE = { Endpoint };

    const TYPE: TypeName = TypeName::Endpoint;
}

impl ResourceType for Listener {
    ghost use Rattle.xds_resource.specs.declared.types.TypeName.TheVariants.{Listener};

    ghost TYPE = { Listener };

    const TYPE: TypeName = TypeName::Listener;
}

impl ResourceType for Route {
    ghost use Rattle.xds_resource.specs.declared.types.TypeName.TheVariants.{Route};

    ghost TYPE = { Route };

    const TYPE: TypeName = TypeName::Route;
}

impl ResourceType for Secret {
    ghost use Rattle.xds_resource.specs.declared.types.TypeName.TheVariants.{Secret};

    ghost TYPE = { Secret };

    const TYPE: TypeName = TypeName::Secret;
}
