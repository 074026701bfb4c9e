// What a request comes to before its body is read.
ghost use Rattle.std.specs.Prelude.{◌≡◌};
ghost use Rattle.xds_polls.specs.Polls.{addressed as addressed_by};

use crate::path::type_of_path;
use xds_resource::TypeName;

/// As many bytes as a body may have.
pub const MAX_BODY: usize = 4_194_304;

/// The type that a request polls, or the status that finishes it: 404 where the path is none of a type, 405 where the method
/// isn't `POST`, and 413 where the body has over [`MAX_BODY`] bytes; the first of these counts.
pub fn addressed(method: &str, path: &str, body: &[u8]) -> Result<TypeName, u16>
    ensures { result ≡ addressed_by method.now path.now body.now }
{
    let Some(kind) = type_of_path(path) else {
        return Err(404);
    };
    if method != "POST" {
        return Err(405);
    }
    if body.len() > MAX_BODY {
        return Err(413);
    }
    Ok(kind)
}
