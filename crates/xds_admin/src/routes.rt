// What a request at an operator's port asks for.
ghost use Rattle.std.specs.Prelude.{◌≡◌, option_map, is_some};
ghost use Rattle.xds_admin.specs.Routes.{also_at, found_at, routed, routed_among};

/// What an operator asks for.
#[derive(Clone, Copy, Debug, PartialEq, Eq)]
pub enum OperatorRoute {
    /// Whether the server runs.
    Health,
    /// Whether each replica takes changes, and clients are answered.
    Ready,
    /// That clients are to be answered.
    Open,
    Metrics,
    Status,
    Changes,
    /// The writes that a replica holds, or that changed there.
    Writes,
    /// Writes, to be merged.
    Merge,
    Stop,
    /// What replicas hold.
    Resources,
    /// A page for a browser.
    Page,
    /// The streams, as lines of a plain text.
    Lines,
}

// What is found at a path, and by which method.
fn at_path(path: &str) -> Option<(OperatorRoute, &'static str)>
    ensures { option_map (λ p. (p.0, p.1.now)) result ≡ found_at path.now }
{
    match path {
        "/healthz" => Some((OperatorRoute::Health, "GET")),
        "/ready" => Some((OperatorRoute::Ready, "GET")),
        "/metrics" => Some((OperatorRoute::Metrics, "GET")),
        "/status" => Some((OperatorRoute::Status, "GET")),
        "/changes" => Some((OperatorRoute::Changes, "POST")),
        "/writes" => Some((OperatorRoute::Writes, "GET")),
        "/stop" => Some((OperatorRoute::Stop, "POST")),
        "/resources" => Some((OperatorRoute::Resources, "GET")),
        "/" => Some((OperatorRoute::Page, "GET")),
        "/status.txt" => Some((OperatorRoute::Lines, "GET")),
        _ => None,
    }
}

// What else is found at a path, and by which method.
fn also_at_path(path: &str) -> Option<(OperatorRoute, &'static str)>
    ensures { option_map (λ p. (p.0, p.1.now)) result ≡ also_at path.now }
{
    match path {
        "/ready" => Some((OperatorRoute::Open, "POST")),
        "/writes" => Some((OperatorRoute::Merge, "POST")),
        _ => None,
    }
}

// What a request of this method asks for by what else is found at a path, or 405.
fn routed_else(method: &str, path: &str) -> Result<OperatorRoute, u16>
    ensures { result ≡ routed_among method.now (also_at path.now) }
{
    match also_at_path(path) {
        Some((route, wanted)) => {
            if method == wanted {
                Ok(route)
            } else {
                Err(405)
            }
        }
        None => Err(405),
    }
}

/// What a request of this method at this path asks for, or the status that refuses it: 404 where nothing is there, and 405 where it is
/// asked for by another method.
pub fn routed(method: &str, path: &str) -> Result<OperatorRoute, u16>
    ensures { result ≡ routed method.now path.now }
{
    match at_path(path) {
        Some((route, wanted)) => {
            if method == wanted {
                Ok(route)
            } else {
                routed_else(method, path)
            }
        }
        None => Err(404),
    }
}
