// The head of a request.
ghost use Rattle.std.specs.Prelude.{◌≡◌, option_map, string_bytes, IfOk};
ghost use Rattle.xds_port.specs.Requests.{authorization, first_lines, head_text};

use std::alloc::Global;
use xds_resource::Refusal;

/// The head of a request by this method for a target, which says what a bearer of a token says, where there is one, and that so many bytes
/// of a body follow. It is of HTTP/1.0: what is answered ends with the connection and comes in no chunks. Refused only by `OutOfMemory`.
pub fn head_text(
    alloc: Global,
    method: &str,
    target: &str,
    bearer: Option<&str>,
    count: usize,
) -> Result<String, Refusal>
    ensures { IfOk result (λ t. string_bytes t ≡ head_text method.now target.now (option_map (λ b. b.now) bearer.entry) count) }
{
    let line = first_lines(alloc, method, target)?;
    let said = authorization(alloc, bearer)?;
    let line = line.as_str();
    let said = said.as_str();
    Ok(format!(in alloc; "{line}{said}content-length: {count}\r\n\r\n")?)
}

// The lines that a request begins with.
fn first_lines(alloc: Global, method: &str, target: &str) -> Result<String, Refusal>
    ensures { IfOk result (λ t. string_bytes t ≡ first_lines method.now target.now) }
{
    Ok(format!(in alloc; "{method} {target} HTTP/1.0\r\nhost: localhost\r\n")?)
}

// The field by which a request says what a bearer of a token says.
fn authorization(alloc: Global, bearer: Option<&str>) -> Result<String, Refusal>
    ensures { IfOk result (λ t. string_bytes t ≡ authorization (option_map (λ b. b.now) bearer.entry)) }
{
    match bearer {
        Some(bearer) => Ok(format!(in alloc; "authorization: {bearer}\r\n")?),
        None => Ok(String::new(alloc)),
    }
}
