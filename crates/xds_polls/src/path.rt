// The paths of the REST variant.
ghost use Rattle.std.specs.Prelude.{◌≡◌};
ghost use Rattle.xds_polls.specs.Polls.{without_query as up_to_query, type_of_path as polled_at};

use xds_resource::TypeName;

// The path up to its query, if it has one.
fn without_query(path: &str) -> &str
    ensures { result.now ≡ up_to_query path.now }
{
    match path.split_once('?') {
        Some((before, _)) => before,
        None => path,
    }
}

/// The type that is polled at a path, if there is one. A query behind `?` is passed over.
pub fn type_of_path(path: &str) -> Option<TypeName>
    ensures { result ≡ polled_at path.now }
{
    match without_query(path) {
        "/v3/discovery:clusters" => Some(TypeName::Cluster),
        "/v3/discovery:endpoints" => Some(TypeName::Endpoint),
        "/v3/discovery:listeners" => Some(TypeName::Listener),
        "/v3/discovery:routes" => Some(TypeName::Route),
        "/v3/discovery:secrets" => Some(TypeName::Secret),
        _ => None,
    }
}
