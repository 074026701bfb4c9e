// The type that a type URL means which is misspelt.
ghost use Rattle.std.specs.Prelude.{◌≡◌, ◌≤◌, length};
ghost use Rattle.xds_causes.specs.Likeness.{common_front, common_back, is_near, last_name, type_near};

use xds_resource::TypeName;

/// The type of the table that a misspelt type URL means, the first that it comes near to: it ends with the same name, or has at most
/// three bytes else at one place.
pub fn type_near(url: &str) -> Option<TypeName>
    ensures { result ≡ type_near url.now }
{
    if is_near(url, TypeName::Cluster) {
        return Some(TypeName::Cluster);
    }
    if is_near(url, TypeName::Endpoint) {
        return Some(TypeName::Endpoint);
    }
    if is_near(url, TypeName::Listener) {
        return Some(TypeName::Listener);
    }
    if is_near(url, TypeName::Route) {
        return Some(TypeName::Route);
    }
    if is_near(url, TypeName::Secret) {
        return Some(TypeName::Secret);
    }
    None
}

// Whether a text comes near to the URL of a type.
fn is_near(url: &str, kind: TypeName) -> bool
    ensures { result ≡ is_near url.now kind }
{
    let given = url.as_bytes();
    let known = kind.url().as_bytes();
    let front = common_front(given, known);
    let back = common_back(given, known);
    let all = given.len().max(known.len());
    back >= last_name(kind).len() || front + back + 3 >= all
}

// The name at the end of the URL of a type, with the dot before it.
fn last_name(kind: TypeName) -> &'static str
    ensures { result.now ≡ last_name kind }
{
    match kind {
        TypeName::Cluster => ".Cluster",
        TypeName::Endpoint => ".ClusterLoadAssignment",
        TypeName::Listener => ".Listener",
        TypeName::Route => ".RouteConfiguration",
        TypeName::Secret => ".Secret",
    }
}

// How many bytes two texts have in common at their beginnings.
fn common_front(one: &[u8], other: &[u8]) -> usize
    ensures common { result ≡ common_front one.now other.now }
    ensures bounded { result ≤ length other.now }
{
    let (Some((a, one)), Some((b, other))) = (one.split_first(), other.split_first()) else {
        return 0;
    };
    if a == b {
        1 + common_front(one, other)
    } else {
        0
    }
}

// How many bytes two texts have in common at their ends.
fn common_back(one: &[u8], other: &[u8]) -> usize
    ensures common { result ≡ common_back one.now other.now }
    ensures bounded { result ≤ length other.now }
{
    let (Some((a, one)), Some((b, other))) = (one.split_last(), other.split_last()) else {
        return 0;
    };
    if a == b {
        1 + common_back(one, other)
    } else {
        0
    }
}
