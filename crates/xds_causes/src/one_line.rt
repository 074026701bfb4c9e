// A text that is told as one line.
ghost use Rattle.std.specs.Prelude.{◌≡◌, ◌++◌, ◌∷◌, [], IfOk, map};
ghost use Rattle.xds_causes.specs.PlainLines.{plain_byte, plain_line};

use std::alloc::{AllocError, Global};

/// The line of a text: each byte below 32, a line feed among them, is a question mark, and a line feed ends it.
pub fn plain_line(alloc: Global, text: &str) -> Result<Vec<u8>, AllocError>
    ensures { IfOk result (λ line. line.items ≡ plain_line text.now) }
{
    let mut line = Vec::new(alloc);
    let bytes = text.as_bytes();
    for byte in bytes {
        line.push(plain_byte(*byte))?;
    }
    line.push(b'\n')?;
    Ok(line)
}

fn plain_byte(byte: u8) -> u8
    ensures { result ≡ plain_byte byte }
{
    if byte < 32 { b'?' } else { byte }
}
