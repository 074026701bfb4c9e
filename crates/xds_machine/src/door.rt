// Whose requests an operator's port answers: those for this machine that no page of a site makes, and that say the token, where there is
// one. So no page in a browser here reaches the port, also by a name of its own that leads to this machine.
ghost use Rattle.std.specs.Prelude.{◌≡◌, option_map, string_bytes, IfOk};
ghost use Rattle.xds_machine.specs.Doors.{bearer, door_status, is_loopback};

use std::alloc::Global;
use xds_http::Head;
use xds_resource::Refusal;

// The status that a request is refused by, if it is for another host, or comes from a page of a site.
const FORBIDDEN: u16 = 403;

// The same, where it doesn't say the token.
const UNAUTHORIZED: u16 = 401;

/// The host that a field `host` names, without the port behind it.
pub fn host_name(host: &str) -> &str {
    match host.rsplit_once(':') {
        Some((name, port)) => { if is_port(port) { name } else { host } }
        None => host,
    }
}

// Whether a text has digits alone.
fn is_port(text: &str) -> bool {
    for byte in text.as_bytes() {
        if !byte.is_ascii_digit() {
            return false;
        }
    }
    true
}

/// Whether this is a name or an address by which this machine knows itself.
pub fn is_loopback(name: &str) -> bool
    ensures { result ≡ is_loopback name.now }
{
    name == "127.0.0.1" || name == "localhost" || name == "[::1]"
}

/// What a request has to say where there is a token.
pub fn bearer(alloc: Global, token: &str) -> Result<String, Refusal>
    ensures { IfOk result (λ t. string_bytes t ≡ bearer token.now) }
{
    Ok(format!(in alloc; "Bearer {token}")?)
}

/// The status that a request is refused by, if it is: 403 where it is for a host that isn't this machine, or has an origin, as a browser
/// says for a page of a site; 401 where something has to be said, and it says something else.
pub fn door_status(
    name: &str,
    has_origin: bool,
    authorization: &str,
    wanted: Option<&str>,
) -> Option<u16>
    ensures { result ≡ door_status name.now has_origin authorization.now (option_map (λ w. w.now) wanted.entry) }
{
    if !is_loopback(name) || has_origin {
        return Some(FORBIDDEN);
    }
    match wanted {
        Some(wanted) => {
            if authorization == wanted {
                None
            } else {
                Some(UNAUTHORIZED)
            }
        }
        None => None,
    }
}

/// The same of a request with this head.
pub fn refused_at(head: &Head, wanted: &Option<String>) -> Option<u16> {
    let wanted = match wanted {
        Some(wanted) => Some(wanted.as_str()),
        None => None,
    };
    let name = host_name(head.host.as_str());
    door_status(name, head.has_origin, head.authorization.as_str(), wanted)
}
