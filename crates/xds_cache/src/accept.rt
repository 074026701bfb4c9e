// A client's own test of the resources that it is sent.
ghost use Rattle.std.specs.Prelude.{◌≡◌};
ghost use Rattle.serde_json.specs.View.{view};

use serde_json::Value;

/// Which resources a client takes. The answer depends on the type URL, the name and the body alone.
pub trait Accept {
    ghost use Rattle.xds_cache.specs.Faults.{Test};

    ghost accepts: { Test };

    /// Whether the client takes a resource of this type, name and body.
    fn takes(type_url: &str, name: &str, body: &Value) -> bool
        ensures { result ≡ accepts type_url.now name.now (view body.now) };
}

/// Takes every resource.
#[derive(Clone, Copy, Debug)]
pub struct AcceptAll;

/// Refuses a resource that has `"reject":true` at its top level.
#[derive(Clone, Copy, Debug)]
pub struct Marked;

impl Accept for AcceptAll {
    ghost use Rattle.std.specs.Prelude.{true};

    ghost accepts = { λ _ _ _. true };

    fn takes(_type_url: &str, _name: &str, _body: &Value) -> bool {
        true
    }
}

impl Accept for Marked {
    ghost use Rattle.xds_cache.specs.Marks.{is_unmarked};

    ghost accepts = { λ _ _ body. is_unmarked body };

    fn takes(_type_url: &str, _name: &str, body: &Value) -> bool {
        match body.get("reject") {
            Some(Value::Bool(reject)) => !*reject,
            Some(_) => true,
            None => true,
        }
    }
}
