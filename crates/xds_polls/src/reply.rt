// Replies to polls over HTTP.
ghost use Rattle.std.specs.Prelude.{◌≡◌};
ghost use Rattle.xds_polls.specs.Polls.{without_body as bare};

use std::marker::Model;

/// A reply: its status, and its body, if it has one. A body is a JSON text.
#[derive(Drop)]
pub struct HttpReply {
    pub status: u16,
    pub body: Option<String>,
}

impl Model for HttpReply {
    ghost use Rattle.std.specs.Prelude.{option_map, string_bytes};
    ghost use Rattle.xds_polls.specs.Polls as polls;

    ghost Value = { polls.HttpReply };

    ghost view = { λ r. record { status = r.status; body = option_map string_bytes r.body } };
}

impl HttpReply {
    /// A status alone.
    pub fn without_body(status: u16) -> HttpReply
        ensures { result ≡ bare status }
    {
        HttpReply { status, body: None }
    }
}
