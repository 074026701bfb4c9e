// What a request is answered, as it comes over a connection.
ghost use Rattle.std.specs.Prelude.{◌≡◌, ◌≤◌, IfSome};
ghost use Rattle.xds_port.specs.Answers.{digit_of, shown_status, status_in};

/// The answer to a request: its status, and its body.
#[derive(Clone, Copy, Debug)]
pub struct PortAnswer<'a> {
    pub status: u16,
    pub body: &'a str,
}

/// The answer that a text is, all of which has come: none where it is no answer of HTTP/1, and where its body isn't as long as it says.
pub fn answer_in(text: &str) -> Option<PortAnswer<'_>> {
    let (head, body) = text.split_once("\r\n\r\n")?;
    let status = status_in(head.as_bytes())?;
    match length_in(head) {
        Some(length) if length != body.len() => None,
        _ => Some(PortAnswer { status, body }),
    }
}

// The status that the head of an answer begins with: three digits behind the version.
fn status_in(head: &[u8]) -> Option<u16>
    ensures { result ≡ status_in head.now }
{
    match head {
        [
            b'H',
            b'T',
            b'T',
            b'P',
            b'/',
            b'1',
            b'.',
            _,
            b' ',
            a,
            b,
            c,
            ..
        ] => shown_status(*a, *b, *c),
        _ => None,
    }
}

// The status of three digits.
fn shown_status(a: u8, b: u8, c: u8) -> Option<u16>
    ensures { result ≡ shown_status a b c }
{
    let a = digit_of(a)?;
    let b = digit_of(b)?;
    let c = digit_of(c)?;
    Some(a * 100 + b * 10 + c)
}

// What a digit stands for.
fn digit_of(byte: u8) -> Option<u16>
    ensures value { result ≡ digit_of byte }
    ensures small { IfSome result (λ d. d ≤ 9) }
{
    if byte >= b'0' && byte <= b'9' {
        Some(u16::from(byte - b'0'))
    } else {
        None
    }
}

// How long the body is, as the head of an answer says, if it does.
fn length_in(head: &str) -> Option<usize> {
    for line in head.split('\n') {
        if let Some((name, value)) = line.split_once(':') {
            if name.eq_ignore_ascii_case("content-length") {
                return value.trim().parse::<usize>().ok();
            }
        }
    }
    None
}
