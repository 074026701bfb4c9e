// The line by which a proxy before the server says whose connection it carries: version 1 of HAProxy's PROXY protocol.
use std::alloc::Global;
use std::str;
use xds_resource::Refusal;

/// As many bytes as such a line has at most, with its end.
pub const MOST_LINE: usize = 107;

/// What the first bytes of a connection are.
#[derive(Clone, Copy, Debug, PartialEq, Eq)]
pub enum Beginning {
    /// Frames.
    Frames,
    /// A part of a line, or nothing yet.
    Part,
    /// A line, with its end.
    Line,
}

/// What the first bytes of a connection are, by those of them that have come.
pub fn beginning_of(bytes: &[u8]) -> Beginning {
    if !begins_line(bytes) {
        return Beginning::Frames;
    }
    if has_end(bytes) {
        return Beginning::Line;
    }
    if bytes.len() < MOST_LINE {
        Beginning::Part
    } else {
        Beginning::Frames
    }
}

// Whether bytes are the beginning of a line, as far as they go. No frame is so long that it begins so.
fn begins_line(bytes: &[u8]) -> bool {
    let word: &[u8] = b"PROXY ";
    bytes.starts_with(word) || word.starts_with(bytes)
}

// Whether a line ends in these bytes.
fn has_end(bytes: &[u8]) -> bool {
    for byte in bytes {
        if *byte == b'\n' {
            return true;
        }
    }
    false
}

/// The address that a line says, with its port; none where it says none that is known.
pub fn address_in(alloc: Global, line: &[u8]) -> Result<Option<String>, Refusal> {
    let Ok(text) = str::from_utf8(line) else {
        return Ok(None);
    };
    match words_in(text) {
        Some((family, address, port)) => shown(alloc, family, address, port),
        None => Ok(None),
    }
}

// The family, the address and the port of whoever connected, as a line has them.
fn words_in(text: &str) -> Option<(&str, &str, &str)> {
    let (_, text) = text.split_once(' ')?;
    let (family, text) = text.split_once(' ')?;
    let (address, text) = text.split_once(' ')?;
    let (_, text) = text.split_once(' ')?;
    let (port, _) = text.split_once(' ')?;
    if is_address(address) && is_port(port) {
        Some((family, address, port))
    } else {
        None
    }
}

// An address with a port.
fn shown(
    alloc: Global,
    family: &str,
    address: &str,
    port: &str,
) -> Result<Option<String>, Refusal> {
    if family == "TCP4" {
        return Ok(Some(format!(in alloc; "{address}:{port}")?));
    }
    if family == "TCP6" {
        return Ok(Some(format!(in alloc; "[{address}]:{port}")?));
    }
    Ok(None)
}

// Whether a text has nothing but what an address has.
fn is_address(text: &str) -> bool {
    for byte in text.as_bytes() {
        if !byte.is_ascii_hexdigit() && *byte != b'.' && *byte != b':' {
            return false;
        }
    }
    !text.is_empty()
}

// Whether a text has nothing but digits, one at least and five at most.
fn is_port(text: &str) -> bool {
    for byte in text.as_bytes() {
        if !byte.is_ascii_digit() {
            return false;
        }
    }
    !text.is_empty() && text.len() <= 5
}
